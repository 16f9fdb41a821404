// Reads the list of the original crate's calls and answers (docs/ORACLE.md) from standard input, holds the proved
// code against it and writes what agrees. A line on which our code gives something else is a mismatch; one that is
// out of form, of no known kind, or on which our code must not be called is a fault.
#![tactic(auto)]

mod record;
mod run;

use run::Replay;
use std::io;

fn main(rt: HostRuntime) -> io::Result<()> {
    let mut replay = Replay::new();
    reading::take_lent(&mut rt.stdin(), &mut replay)?;
    print!(rt; "{}", replay.counts)
}

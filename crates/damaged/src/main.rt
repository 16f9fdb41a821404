// Reads the list of sound and damaged tables (docs/MODEL.md) from standard input, makes the tables that it tells of, and holds
// the check of the tables against its verdicts. A verdict is a mismatch if the audit names another rule or place, or the
// check another answer. A line that is out of form, of no known kind, or that names a place or a length that the tables
// can't have is a fault.
#![tactic(auto)]

mod record;
mod run;
mod score;
mod tables;

use run::Run;
use std::io;

fn main(rt: HostRuntime) -> io::Result<()> {
    let mut run = Run::new();
    reading::take_lent(&mut rt.stdin(), &mut run)?;
    print!(rt; "{}", run.counts)
}

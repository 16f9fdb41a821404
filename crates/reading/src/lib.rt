// The lines of an input, the numbers that stand on them, and what takes them one by one. The source is kept by the input, or lent
// to each call beside what was read ahead of it.
#![tactic(auto)]

mod lines;

ghost use Rattle.std.specs.Prelude.{◌≡◌, OnErr};

pub use lines::{Input, Line, ReadAhead};
use std::io::{self, Read};

// What is kept from line to line of an input.
pub trait Taker {
    // Takes the next line: whether there was one. An error is one of reading a line, and leaves what is kept.
    fn take_next<R: Read + Drop>(
        &mut self,
        input: &mut Input<R>,
        line: &mut Line,
    ) -> io::Result<bool>
        ensures { OnErr result (self.new ≡ self.old) };
}

// What is kept from line to line of a source that is lent.
pub trait LentTaker {
    // Takes the next line: whether there was one. An error is one of reading a line, and leaves what is kept.
    fn take_next<R: Read>(
        &mut self,
        source: &mut R,
        input: &mut ReadAhead,
        line: &mut Line,
    ) -> io::Result<bool>
        ensures { OnErr result (self.new ≡ self.old) };
}

// Takes each line of a source that is given, as take_lent does of one that is lent.
pub fn take_all<R: Read + Drop, T: Taker>(source: R, taker: &mut T) -> io::Result<()> {
    let mut input = Input::new(source);
    let mut line = Line::new();
    for _ in 0..u64::MAX {
        if !taker.take_next(&mut input, &mut line)? {
            break;
        }
    }
    Ok(())
}

// Takes each line of a source that is lent. Nothing says that it ends, so the loop has more turns than any run takes.
// A function of its own in the machine too: its buffer lies on the stack only while lines are read.
#[inline(never)]
pub fn take_lent<R: Read, T: LentTaker>(source: &mut R, taker: &mut T) -> io::Result<()> {
    let mut input = ReadAhead::new();
    let mut line = Line::new();
    for _ in 0..u64::MAX {
        if !taker.take_next(source, &mut input, &mut line)? {
            break;
        }
    }
    Ok(())
}

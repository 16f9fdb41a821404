// What a list of numbers adds up to: the smallest of what may be kept from line to line, of an input and of a source that is lent.
#![tactic(auto)]

#[cfg(test)]
mod tests;

ghost use Rattle.std.specs.Prelude.{◌≡◌, OnErr};

use reading::{Input, LentTaker, Line, ReadAhead, Taker};
use std::io::{self, Read};

// Of the lines of a list how many there are, how many are out of form, and the sum of the numbers on the others.
#[derive(Clone, Copy, Debug, PartialEq, Eq)]
pub struct Sums {
    pub lines: u64,
    pub faults: u64,
    pub sum: u64,
}

impl Sums {
    // Of a list of which nothing was taken yet.
    pub fn new() -> Sums
        ensures { (result.lines ≡ 0) × (result.faults ≡ 0) × (result.sum ≡ 0) }
    {
        Sums {
            lines: 0,
            faults: 0,
            sum: 0,
        }
    }

    fn take(&mut self, line: &Line) {
        self.lines = self.lines.wrapping_add(1);
        match line.numbers() {
            Some(numbers) => {
                for &number in numbers {
                    self.sum = self.sum.wrapping_add(u64::from(number));
                }
            }
            None => self.faults = self.faults.wrapping_add(1),
        }
    }
}

impl Taker for Sums {
    fn take_next<R: Read + Drop>(
        &mut self,
        input: &mut Input<R>,
        line: &mut Line,
    ) -> io::Result<bool>
        ensures { OnErr result (self.new ≡ self.old) }
    {
        if !input.next_line(line)? {
            return Ok(false);
        }
        self.take(line);
        Ok(true)
    }
}

impl LentTaker for Sums {
    fn take_next<R: Read>(
        &mut self,
        source: &mut R,
        input: &mut ReadAhead,
        line: &mut Line,
    ) -> io::Result<bool>
        ensures { OnErr result (self.new ≡ self.old) }
    {
        if !input.next_line(source, line)? {
            return Ok(false);
        }
        self.take(line);
        Ok(true)
    }
}

// What is counted of a list that a program is run on: its lines, the mismatches and the faults.
#![tactic(auto)]

mod kind;
mod score;

pub use kind::{Kind, UnknownKind};
pub use score::{Counts, Place, Verdict};
use std::fmt;

// The lines so far, and the first mismatch, with what is to be said of it, and the line of the first fault.
#[derive(Clone, Copy)]
pub struct Tally<M> {
    lines: u64,
    mismatches: u64,
    faults: u64,
    first_mismatch: Option<M>,
    first_fault: Option<u64>,
}

impl<M: Copy> Tally<M> {
    pub fn new() -> Tally<M> {
        Tally {
            lines: 0,
            mismatches: 0,
            faults: 0,
            first_mismatch: None,
            first_fault: None,
        }
    }

    // How many lines were counted: the number of the last.
    pub fn lines(&self) -> u64 {
        self.lines
    }

    // One more line.
    pub fn count_line(&mut self) {
        self.lines = self.lines.saturating_add(1);
    }

    // Our code gives something else than the list says.
    pub fn count_mismatch(&mut self, mismatch: M) {
        self.mismatches = self.mismatches.saturating_add(1);
        self.first_mismatch = self.first_mismatch.or(Some(mismatch));
    }

    // The line that was counted last is a fault: no line of the format, or one on which our code must not be called.
    pub fn count_fault(&mut self) {
        self.faults = self.faults.saturating_add(1);
        self.first_fault = self.first_fault.or(Some(self.lines));
    }
}

impl<M: fmt::Display> fmt::Display for Tally<M> {
    fn fmt<W: fmt::Write>(&self, f: &mut fmt::Formatter<W>) -> fmt::Result {
        writeln!(f, "mismatches {}", self.mismatches)?;
        writeln!(f, "faults {}", self.faults)?;
        if let Some(first) = &self.first_mismatch {
            writeln!(f, "first mismatch on {first}")?;
        }
        if let Some(line) = self.first_fault {
            writeln!(f, "first fault on line {line}")?;
        }
        Ok(())
    }
}

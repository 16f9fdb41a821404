// The counts of the list of calls and answers.
use crate::{Kind, Tally};
use std::fmt;

// What is found of a line.
#[derive(Clone, Copy)]
pub enum Verdict {
    // Our code gives what the list says.
    Agrees,
    // Our code gives something else.
    Differs,
    // The line tells of a call that is held against our code at its end.
    Told,
    // The line is not replayed.
    Later,
    // No line of the format, or one on which our code must not be called.
    Fault,
}

// Of an answer that was held against the list's, where there is one: our code is not called on a fault.
impl From<Option<bool>> for Verdict {
    fn from(agrees: Option<bool>) -> Verdict {
        match agrees {
            Some(true) => Verdict::Agrees,
            Some(false) => Verdict::Differs,
            None => Verdict::Fault,
        }
    }
}

// A line of the list: its kind and its number.
#[derive(Clone, Copy)]
pub struct Place {
    pub kind: Kind,
    pub line: u64,
}

impl fmt::Display for Place {
    fn fmt<W: fmt::Write>(&self, f: &mut fmt::Formatter<W>) -> fmt::Result {
        write!(f, "line {}\n  of kind {}", self.line, self.kind)
    }
}

// The counts of the lines; of each kind how many agree, or are not replayed; and how many lines tell of a call.
#[derive(Clone, Copy)]
pub struct Counts {
    pub tally: Tally<Place>,
    pub of_kind: [u64; 32],
    pub later: u64,
    pub told: u64,
}

// The kinds that are held against our code, and what is written of them.
const REPLAYED: [(&str, Kind); 9] = [
    ("buckets", Kind::Bucket),
    ("roundings", Kind::Rounding),
    ("cuts", Kind::Cut),
    ("starts", Kind::Start),
    ("allocates", Kind::Allocate),
    ("deallocates", Kind::Deallocate),
    ("grows", Kind::Grow),
    ("clears", Kind::Clear),
    ("resets", Kind::Reset),
];

impl Counts {
    pub fn new() -> Counts {
        Counts {
            tally: Tally::new(),
            of_kind: [0; 32],
            later: 0,
            told: 0,
        }
    }

    fn of(&self, kind: Kind) -> u64 {
        self.of_kind[kind as usize]
    }

    fn count_kind(&mut self, kind: Kind) {
        let at = kind as usize;
        self.of_kind[at] = self.of_kind[at].saturating_add(1);
    }

    // Counts what is found of the line that was counted last, or of the call that it closes, at this place.
    pub fn count(&mut self, place: Place, verdict: Verdict) {
        match verdict {
            Verdict::Agrees => self.count_kind(place.kind),
            Verdict::Differs => self.tally.count_mismatch(place),
            Verdict::Told => self.told = self.told.saturating_add(1),
            Verdict::Later => {
                self.count_kind(place.kind);
                self.later = self.later.saturating_add(1);
            }
            Verdict::Fault => self.tally.count_fault(),
        }
    }
}

impl fmt::Display for Counts {
    fn fmt<W: fmt::Write>(&self, f: &mut fmt::Formatter<W>) -> fmt::Result {
        writeln!(f, "lines {}", self.tally.lines())?;
        for (words, kind) in REPLAYED {
            writeln!(f, "{words} agree {}", self.of(kind))?;
        }
        writeln!(f, "  lines that tell of these calls {}", self.told)?;
        write!(f, "{}", self.tally)?;
        writeln!(f, "lines not replayed {}", self.later)?;
        for kind in [Kind::List, Kind::Search] {
            writeln!(f, "  of kind {kind}: {}", self.of(kind))?;
        }
        Ok(())
    }
}

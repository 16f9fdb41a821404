// The counts of what the list said and what the check found, and where the first difference stood.
use judged::Broken;
use refusals::Refusal;
use std::fmt;
use tally::Tally;

// What the check gives of the tables: the audit's rule and place, and the answer that a call would begin with.
#[derive(Clone, Copy, PartialEq, Eq)]
pub struct Found {
    pub rule: u32,
    pub place: u32,
    pub answer: u32,
}

impl Found {
    pub fn new(audit: Result<(), Broken>, check: Result<(), Refusal>) -> Found {
        let (rule, place) = match audit {
            Ok(()) => (0, 0),
            Err(broken) => (judged::number_of(broken.rule), broken.place),
        };
        Found {
            rule,
            place,
            answer: refusals::answer_of(check),
        }
    }

    // What the list says: a rule and a place. A call answers 0 of sound tables and 2 of others.
    pub fn expected(rule: u32, place: u32) -> Found {
        Found {
            rule,
            place,
            answer: if rule > 0 { 2 } else { 0 },
        }
    }
}

impl fmt::Display for Found {
    fn fmt<W: fmt::Write>(&self, f: &mut fmt::Formatter<W>) -> fmt::Result {
        writeln!(f, "rule {}", self.rule)?;
        writeln!(f, "    place {}", self.place)?;
        write!(f, "    answer {}", self.answer)
    }
}

// A verdict that isn't what the check finds.
#[derive(Clone, Copy)]
pub struct Mismatch {
    line: u64,
    expected: Found,
    found: Found,
}

impl fmt::Display for Mismatch {
    fn fmt<W: fmt::Write>(&self, f: &mut fmt::Formatter<W>) -> fmt::Result {
        writeln!(f, "line {}", self.line)?;
        writeln!(f, "  expected {}", self.expected)?;
        write!(f, "  found {}", self.found)
    }
}

// The counts of the lines and the verdicts, and how many verdicts agree, by the broken rule that the list names, 0 for none.
#[derive(Clone, Copy)]
pub struct Counts {
    pub tally: Tally<Mismatch>,
    pub verdicts: u64,
    pub agreed: [u64; 8],
}

impl Counts {
    pub fn new() -> Counts {
        Counts {
            tally: Tally::new(),
            verdicts: 0,
            agreed: [0; 8],
        }
    }

    // The line that was counted last is a verdict.
    pub fn count_verdict(&mut self, expected: Found, found: Found) {
        self.verdicts = self.verdicts.saturating_add(1);
        if expected != found {
            self.tally.count_mismatch(Mismatch {
                line: self.tally.lines(),
                expected,
                found,
            });
        } else if let Some(n) = self.agreed.get_mut(expected.rule as usize) {
            *n = n.saturating_add(1);
        }
    }
}

impl fmt::Display for Counts {
    fn fmt<W: fmt::Write>(&self, f: &mut fmt::Formatter<W>) -> fmt::Result {
        writeln!(f, "lines {}", self.tally.lines())?;
        writeln!(f, "verdicts {}", self.verdicts)?;
        writeln!(f, "sound agree {}", self.agreed[0])?;
        for rule in 1..8 {
            writeln!(f, "rule {rule} agree {}", self.agreed[rule])?;
        }
        write!(f, "{}", self.tally)
    }
}

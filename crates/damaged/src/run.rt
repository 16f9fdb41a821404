// What is kept from line to line.
ghost use Rattle.std.specs.Prelude.{◌≡◌, OnErr};

use crate::record::Record;
use crate::score::Counts;
use crate::tables::Tables;
use reading::{LentTaker, Line, ReadAhead};
use std::io::{self, Read};

#[derive(Clone, Copy)]
pub struct Run {
    pub tables: Tables,
    pub counts: Counts,
}

impl Run {
    pub fn new() -> Run {
        Run {
            tables: Tables::new(0, 0),
            counts: Counts::new(),
        }
    }

    // Takes what a line says, unless the tables can't have it: whether it was taken.
    fn take_record(&mut self, record: Record) -> bool {
        match record {
            Record::Begin { slots, entries } => self.tables = Tables::new(slots, entries),
            Record::Edit(edit) => return self.tables.make(edit),
            Record::Verdict(expected) => {
                let Some(found) = self.tables.check() else {
                    return false;
                };
                self.counts.count_verdict(expected, found);
            }
        }
        true
    }

    fn take(&mut self, line: &Line) {
        self.counts.tally.count_line();
        let taken = match Record::of(line) {
            Some(record) => self.take_record(record),
            None => false,
        };
        if !taken {
            self.counts.tally.count_fault();
        }
    }
}

impl LentTaker for Run {
    fn take_next<R: Read>(
        &mut self,
        source: &mut R,
        input: &mut ReadAhead,
        line: &mut Line,
    ) -> io::Result<bool>
        ensures { OnErr result (self.new ≡ self.old) }
    {
        if !input.next_line(source, line)? {
            return Ok(false);
        }
        self.take(line);
        Ok(true)
    }
}

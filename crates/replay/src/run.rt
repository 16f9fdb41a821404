// The state that the list tells of and ours, from line to line. A call is opened by its line, told of by changes of the state, and
// closed by a line of its own, where our state is held against the one that was told.
ghost use Rattle.std.specs.Prelude.{◌≡◌, OnErr};

use crate::record::Record;
use calls::Call;
use geometry::{AllocatorOptions, Size};
use reading::{LentTaker, Line, ReadAhead};
use std::io::{self, Read};
use tally::{Counts, Place, Verdict};
use told::{Change, State};

// The call that is open: where it stands on the list, and whether ours gave the answers that are told.
#[derive(Clone, Copy)]
struct Open {
    place: Place,
    agrees: bool,
}

// What is kept from line to line.
#[derive(Clone, Copy)]
pub struct Replay {
    told: State,
    ours: State,
    open: Option<Open>,
    pub counts: Counts,
}

impl Replay {
    // What is kept before the first line. Our tables begin with numbers that a start has to write over.
    // A function of its own in the machine too, as take_lent is: what it makes the tables of doesn't lie on the stack when lines are read.
    #[inline(never)]
    pub fn new() -> Replay {
        let none = Size {
            width: 0,
            height: 0,
        };
        let options = AllocatorOptions {
            alignment: none,
            small: 0,
            large: 0,
        };
        let state = State::filled(7, 7, none, options);
        Replay {
            told: state,
            ours: state,
            open: None,
            counts: Counts::new(),
        }
    }

    // The call of a line, made on ours: a start finds our state as the call before left it, every other call begins with the one
    // that the list told of.
    fn open(&mut self, place: Place, call: Call) -> Verdict {
        if self.open.is_some() {
            return Verdict::Fault;
        }
        if !matches!(call, Call::Start(..)) {
            self.ours = self.told;
        }
        let agrees = call.make(&mut self.ours);
        self.open = Some(Open { place, agrees });
        match call {
            // What was told before is forgotten: the tables hold what no start writes.
            Call::Start(sheet, options) => {
                self.told = State::filled(u32::MAX, u8::MAX, sheet, options);
            }
            Call::Grow(sheet) => self.told.head.sheet = sheet,
            Call::Reset(sheet, options) => {
                self.told.head.sheet = sheet;
                self.told.head.options = options;
            }
            _ => {}
        }
        Verdict::Told
    }

    // A change of the state by the call that is open.
    fn change(&mut self, change: Change) -> Verdict {
        if self.open.is_some() && self.told.make(change) {
            Verdict::Told
        } else {
            Verdict::Fault
        }
    }

    // Whether our call gave the answers and left the state that the list tells of, with an empty sheet or not. The call is closed,
    // whatever is found.
    fn close(&mut self, empty: u32) -> Option<bool> {
        let open = self.open.take()?;
        if empty > 1 {
            return None;
        }
        Some(
            calls::is_empty_as_told(&self.told, empty == 1)
                && open.agrees
                && agree::is_as_told(&self.told, &self.ours),
        )
    }

    // Takes what a line says. What is found at the end of a call is the call's.
    fn take_record(&mut self, at: Place, record: Record) {
        let about = match (record, self.open) {
            (Record::Close(_), Some(open)) => open.place,
            _ => at,
        };
        let verdict = match record {
            Record::Open(call) => self.open(at, call),
            Record::Change(change) => self.change(change),
            Record::Close(empty) => Verdict::from(self.close(empty)),
            Record::Leaf(leaf) => Verdict::from(leaf.agrees()),
            Record::Other => Verdict::Later,
        };
        self.counts.count(about, verdict);
    }

    fn take(&mut self, line: &Line) {
        self.counts.tally.count_line();
        match Record::of(line) {
            Some((kind, record)) => {
                let line = self.counts.tally.lines();
                self.take_record(Place { kind, line }, record);
            }
            None => self.counts.tally.count_fault(),
        }
    }
}

impl LentTaker for Replay {
    fn take_next<R: Read>(
        &mut self,
        source: &mut R,
        input: &mut ReadAhead,
        line: &mut Line,
    ) -> io::Result<bool>
        ensures { OnErr result (self.new ≡ self.old) }
    {
        if !input.next_line(source, line)? {
            return Ok(false);
        }
        self.take(line);
        Ok(true)
    }
}

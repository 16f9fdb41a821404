// The lines of the list, as docs/MODEL.md gives them.
use crate::score::Found;
use crate::tables::Edit;
use reading::Line;

// The kinds of lines.
#[derive(Clone, Copy)]
enum Kind {
    Begin = 30,
    Word = 31,
    Generation = 32,
    Entry = 33,
    Field = 34,
    Verdict = 35,
}

// A number that no kind of line has.
#[derive(Clone, Copy)]
struct UnknownKind(u32);

impl TryFrom<u32> for Kind {
    type Error = UnknownKind;

    fn try_from(number: u32) -> Result<Kind, UnknownKind> {
        match number {
            30 => Ok(Kind::Begin),
            31 => Ok(Kind::Word),
            32 => Ok(Kind::Generation),
            33 => Ok(Kind::Entry),
            34 => Ok(Kind::Field),
            35 => Ok(Kind::Verdict),
            _ => Err(UnknownKind(number)),
        }
    }
}

// What a line says.
#[derive(Clone, Copy)]
pub enum Record {
    // Tables of so many slots and entries, all zeros.
    Begin { slots: u32, entries: u32 },
    // A change of the tables.
    Edit(Edit),
    // What the check must find in the tables.
    Verdict(Found),
}

impl Record {
    // What a line says, unless it is out of form.
    pub fn of(line: &Line) -> Option<Record> {
        let (number, numbers) = line.numbers()?.split_first()?;
        match (Kind::try_from(*number).ok()?, numbers) {
            (Kind::Begin, &[slots, entries]) => Some(Record::Begin { slots, entries }),
            (Kind::Word, &[place, value]) => Some(Record::Edit(Edit::Word { place, value })),
            (Kind::Generation, &[place, value]) => {
                Some(Record::Edit(Edit::Generation { place, value }))
            }
            (Kind::Entry, &[bucket, place, value]) => Some(Record::Edit(Edit::Entry {
                bucket,
                place,
                value,
            })),
            (Kind::Field, &[field, value]) => Some(Record::Edit(Edit::Field { field, value })),
            (Kind::Verdict, &[rule, place]) => Some(Record::Verdict(Found::expected(rule, place))),
            _ => None,
        }
    }
}

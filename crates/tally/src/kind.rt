// The kinds of lines of the list of calls and answers.
use std::fmt;

// The kinds, as docs/ORACLE.md numbers them.
#[derive(Clone, Copy, PartialEq, Eq)]
pub enum Kind {
    Start = 1,
    Allocate = 2,
    Deallocate = 3,
    Grow = 4,
    Clear = 5,
    Reset = 6,
    List = 7,
    Search = 8,
    Close = 9,
    Slot = 10,
    Generation = 11,
    Length = 12,
    Entry = 13,
    Links = 14,
    Bucket = 20,
    Rounding = 21,
    Cut = 22,
}

// A number that no kind of line has.
#[derive(Clone, Copy)]
pub struct UnknownKind(pub u32);

impl TryFrom<u32> for Kind {
    type Error = UnknownKind;

    fn try_from(number: u32) -> Result<Kind, UnknownKind> {
        match number {
            1 => Ok(Kind::Start),
            2 => Ok(Kind::Allocate),
            3 => Ok(Kind::Deallocate),
            4 => Ok(Kind::Grow),
            5 => Ok(Kind::Clear),
            6 => Ok(Kind::Reset),
            7 => Ok(Kind::List),
            8 => Ok(Kind::Search),
            9 => Ok(Kind::Close),
            10 => Ok(Kind::Slot),
            11 => Ok(Kind::Generation),
            12 => Ok(Kind::Length),
            13 => Ok(Kind::Entry),
            14 => Ok(Kind::Links),
            20 => Ok(Kind::Bucket),
            21 => Ok(Kind::Rounding),
            22 => Ok(Kind::Cut),
            _ => Err(UnknownKind(number)),
        }
    }
}

impl fmt::Display for Kind {
    fn fmt<W: fmt::Write>(&self, f: &mut fmt::Formatter<W>) -> fmt::Result {
        write!(f, "{}", *self as u32)
    }
}

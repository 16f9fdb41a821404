// What the program writes: a size, a rectangle, links.
use geometry::{Rectangle, Size};
use std::fmt;

// A side, in words if it is below 0.
#[derive(Clone, Copy)]
struct Side(i32);

impl fmt::Display for Side {
    fn fmt<W: fmt::Write>(&self, f: &mut fmt::Formatter<W>) -> fmt::Result {
        if self.0 < 0 {
            return f.write_str("less than 0");
        }
        write!(f, "{}", self.0)
    }
}

// Two sides joined by an x.
#[derive(Clone, Copy)]
pub struct Sides(pub Size);

impl fmt::Display for Sides {
    fn fmt<W: fmt::Write>(&self, f: &mut fmt::Formatter<W>) -> fmt::Result {
        write!(f, "{}x{}", Side(self.0.width), Side(self.0.height))
    }
}

// Corners min-max.
#[derive(Clone, Copy)]
pub struct Corners(pub Rectangle);

impl fmt::Display for Corners {
    fn fmt<W: fmt::Write>(&self, f: &mut fmt::Formatter<W>) -> fmt::Result {
        let Rectangle { x0, y0, x1, y1 } = self.0;
        write!(f, "({x0},{y0})-({x1},{y1})")
    }
}

// A link, - for none.
#[derive(Clone, Copy)]
pub struct Link(pub u32);

impl fmt::Display for Link {
    fn fmt<W: fmt::Write>(&self, f: &mut fmt::Formatter<W>) -> fmt::Result {
        if self.0 == slots::NONE.0 {
            return f.write_str("-");
        }
        write!(f, "{}", self.0)
    }
}

// Links, each behind a space.
#[derive(Clone, Copy)]
pub struct Links<'a>(pub &'a [u32]);

impl fmt::Display for Links<'_> {
    fn fmt<W: fmt::Write>(&self, f: &mut fmt::Formatter<W>) -> fmt::Result {
        for link in self.0 {
            write!(f, " {}", Link(*link))?;
        }
        Ok(())
    }
}

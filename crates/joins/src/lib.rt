// What a walk found of a chain or a slot, and how two places one after the other are put together.
#![tactic(auto)]

ghost use Rattle.std.specs.Prelude.{◌≡◌, ◌<◌};
ghost use Rattle.sound.specs.Rules.{join};
ghost use Rattle.joins.specs.Joins.{adjoins, fits_together, out_of_slots, nothing_yet, own_place, stored_as, together, added};

use geometry::{Orientation, Rectangle};
use slots::AllocIndex;

// What a walk over a chain or a slot found: whether it came to its end within the count, whether all that it saw fits together,
// the place if so, whether the rectangle of the slot, or of the chain's last one, is its place if it is a Container, and how many
// slots of the count are left.
#[derive(Clone, Copy)]
pub struct Placed {
    pub ended: bool,
    pub fits: bool,
    pub at: Rectangle,
    pub stored: bool,
    pub left: u32,
}

// Whether s adjoins r along an orientation, with equal span across.
#[tactic(auto, unfolding(crate::specs::Joins::adjoins))]
fn adjoins(o: Orientation, r: Rectangle, s: Rectangle) -> bool
    ensures { result ≡ adjoins o r s }
{
    match o {
        Orientation::Vertical => r.y1 == s.y0 && r.x0 == s.x0 && r.x1 == s.x1,
        Orientation::Horizontal => r.x1 == s.x0 && r.y0 == s.y0 && r.y1 == s.y1,
    }
}

fn joined(r: Rectangle, s: Rectangle) -> Rectangle
    ensures { result ≡ join r s }
{
    Rectangle {
        x0: r.x0,
        y0: r.y0,
        x1: s.x1,
        y1: s.y1,
    }
}

// The count ran out.
pub fn out_of_slots() -> Placed
    ensures { result ≡ out_of_slots }
{
    Placed {
        ended: false,
        fits: false,
        at: geometry::no_rect(),
        stored: false,
        left: 0,
    }
}

// Nothing of a chain seen, with this count.
pub fn nothing_yet(left: u32) -> Placed
    ensures { result ≡ nothing_yet left }
{
    Placed {
        ended: false,
        fits: false,
        at: geometry::no_rect(),
        stored: false,
        left,
    }
}

// An Alloc or Free slot: its own rectangle, which fits if it is not empty.
pub fn own_place(rect: Rectangle, left: u32) -> Placed
    requires { 0 < left }
    ensures { result ≡ own_place rect left }
{
    Placed {
        ended: true,
        fits: !geometry::is_empty(rect),
        at: rect,
        stored: true,
        left: left - 1,
    }
}

// Whether what was seen of a chain and what comes after it each fit, and adjoin.
fn fits_together(o: Orientation, a: Placed, b: Placed) -> bool
    ensures { result ≡ fits_together o a b }
{
    a.fits && b.fits && adjoins(o, a.at, b.at)
}

// The place of what was seen of a chain and the place of what comes after it, as one.
#[tactic(auto, unfolding(crate::specs::Joins::together))]
fn together(o: Orientation, a: Placed, b: Placed) -> Placed
    ensures { result ≡ together o a b }
{
    if !b.ended {
        return b;
    }
    Placed {
        fits: fits_together(o, a, b),
        at: joined(a.at, b.at),
        ..b
    }
}

// One member more of a chain: the first has no prev.
#[tactic(auto, unfolding(crate::specs::Joins::added))]
pub fn added(o: Orientation, prev: AllocIndex, a: Placed, b: Placed) -> Placed
    ensures { result ≡ added o prev a b }
{
    if slots::is_none(prev) {
        return b;
    }
    together(o, a, b)
}

// A Container's place, with whether its stored rectangle is that.
#[tactic(auto, unfolding(crate::specs::Joins::same_rect))]
pub fn stored_as(p: Placed, rect: Rectangle) -> Placed
    ensures { result ≡ stored_as p rect }
{
    Placed {
        stored: p.at == rect,
        ..p
    }
}

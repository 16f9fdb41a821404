// What a slot holds: links, a kind, an orientation and a rectangle; and the code of the two in the middle.
#![tactic(auto)]

ghost use Rattle.std.specs.Prelude.{◌≡◌, ◌<◌};
ghost use Rattle.slots.specs.Slots.{is_none, kind_of, orientation_of, code_of};

use geometry::{Orientation, Rectangle};

// The number of a slot, or none.
#[derive(Clone, Copy, PartialEq, Eq)]
pub struct AllocIndex(pub u32);

// The link that names no slot.
pub const NONE: AllocIndex = AllocIndex(4294967295);

// What a slot is, by its number in the code word.
#[derive(Clone, Copy, PartialEq, Eq)]
pub enum NodeKind {
    Container = 0,
    Alloc = 1,
    Free = 2,
    Unused = 3,
}

// A slot's contents.
#[derive(Clone, Copy)]
pub struct Node {
    pub parent: AllocIndex,
    pub next: AllocIndex,
    pub prev: AllocIndex,
    pub kind: NodeKind,
    pub orientation: Orientation,
    pub rect: Rectangle,
}

pub fn is_none(i: AllocIndex) -> bool
    ensures { result ≡ is_none i }
{
    i == NONE
}

// The kind that a code word means. A word outside the code means Unused, so that it is never a live slot.
#[tactic(auto, unfolding(crate::specs::Slots::kind_of))]
pub fn kind_of(code: u32) -> NodeKind
    ensures { result ≡ kind_of code }
{
    if code > 7 {
        return NodeKind::Unused;
    }
    match code % 4 {
        0 => NodeKind::Container,
        1 => NodeKind::Alloc,
        2 => NodeKind::Free,
        _ => NodeKind::Unused,
    }
}

#[tactic(auto, unfolding(crate::specs::Slots::orientation_of))]
pub fn orientation_of(code: u32) -> Orientation
    ensures { result ≡ orientation_of code }
{
    if code < 4 {
        Orientation::Vertical
    } else {
        Orientation::Horizontal
    }
}

pub fn code_of(kind: NodeKind, o: Orientation) -> u32
    ensures { result ≡ code_of kind o }
{
    kind as u32 + 4 * (o as u32)
}

// The shape of a cut, its slots, and how many new ones it needs.
#![tactic(auto)]

ghost use Rattle.std.specs.Prelude.{◌≡◌, ◌≤◌};
ghost use Rattle.grants.specs.Shapes.{shape_of, slots_needed};

use cuts::Cut;
use geometry::Orientation;
use slots::AllocIndex;

// How a chosen slot is cut: not at all, along its orientation or across it, with a leftover or without.
#[derive(Clone, Copy, PartialEq, Eq)]
pub enum Shape {
    Exact,
    Along,
    AlongLeft,
    Across,
    AcrossLeft,
}

// The slots of a cut: split, inner Container, Alloc and leftover, none where there is none.
#[derive(Clone, Copy)]
pub struct CutSlots {
    pub split: AllocIndex,
    pub inner: AllocIndex,
    pub alloc: AllocIndex,
    pub left: AllocIndex,
}

// The shape of a cut of a slot with this orientation.
#[tactic(auto, unfolding(crate::specs::Shapes::shape_of))]
pub fn shape_of(cut: Cut, o: Orientation) -> Shape
    ensures { result ≡ shape_of cut o }
{
    if geometry::is_empty(cut.split) {
        return Shape::Exact;
    }
    match (cut.orientation == o, geometry::is_empty(cut.leftover)) {
        (true, true) => Shape::Along,
        (true, false) => Shape::AlongLeft,
        (false, true) => Shape::Across,
        (false, false) => Shape::AcrossLeft,
    }
}

// How many new slots a shape needs.
pub fn slots_needed(shape: Shape) -> u32
    ensures { (result ≡ slots_needed shape) × (result ≤ 4) }
{
    match shape {
        Shape::Exact => 0,
        Shape::Along => 1,
        Shape::AlongLeft => 3,
        Shape::Across => 2,
        Shape::AcrossLeft => 4,
    }
}

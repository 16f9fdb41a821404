// How far a sheet grows each way, from its old size and its new one.
#![tactic(auto)]

ghost use Rattle.std.specs.Prelude.{◌≡◌, ◌≤◌};
ghost use Rattle.geometry.specs.Sides.{natural};
ghost use Rattle.ways.specs.Ways.{ways_of};

use geometry::{AllocatorOptions, Extent, Orientation, Rectangle, Size};

// By how much a sheet grows along an orientation and across it, and the strip across.
#[derive(Clone, Copy)]
pub struct Ways {
    pub along: u32,
    pub across: u32,
    pub strip: Rectangle,
}

// How far a sheet grows each way, along an orientation and across it.
pub fn ways_of(o: Orientation, old: Size, new: Size, options: AllocatorOptions) -> Ways
    requires { (natural old.width ≤ natural new.width) × (natural old.height ≤ natural new.height) }
    ensures { result ≡ ways_of o old new }
{
    let from = geometry::setup_of(old, options).sheet;
    let to = geometry::setup_of(new, options).sheet;
    let by = Extent {
        width: to.width - from.width,
        height: to.height - from.height,
    };
    let over = geometry::flipped(o);
    Ways {
        along: strips::side_along(o, by),
        across: strips::side_along(over, by),
        strip: strips::strip_rect(over, from, to),
    }
}

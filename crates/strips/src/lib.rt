// The rectangles of a grow: one stretched, the one appended, and the strip past the old sheet.
#![tactic(auto)]

ghost use Rattle.std.specs.Prelude.{◌≡◌, ◌+◌, ◌^◌, ◌<◌};
ghost use Rattle.strips.specs.Strips.{along, stretched_rect, started_at, appended_rect, strip_rect};

use geometry::{Extent, Orientation, Rectangle};

// The side along an orientation.
pub fn side_along(o: Orientation, sides: Extent) -> u32
    ensures { result ≡ along o sides }
{
    match o {
        Orientation::Vertical => sides.height,
        Orientation::Horizontal => sides.width,
    }
}

// A rectangle stretched along an orientation by a length.
pub fn stretched_rect(o: Orientation, rect: Rectangle, by: u32) -> Rectangle
    requires { (rect.x1 + by < 2 ^ 32) × (rect.y1 + by < 2 ^ 32) }
    ensures { result ≡ stretched_rect o rect by }
{
    match o {
        Orientation::Vertical => Rectangle {
            y1: rect.y1 + by,
            ..rect
        },
        Orientation::Horizontal => Rectangle {
            x1: rect.x1 + by,
            ..rect
        },
    }
}

// A rectangle with another start along an orientation.
fn started_at(o: Orientation, rect: Rectangle, start: u32) -> Rectangle
    ensures { result ≡ started_at o rect start }
{
    match o {
        Orientation::Vertical => Rectangle { y0: start, ..rect },
        Orientation::Horizontal => Rectangle { x0: start, ..rect },
    }
}

// The one appended along an orientation, of a length.
pub fn appended_rect(o: Orientation, rect: Rectangle, d: u32) -> Rectangle
    requires { (rect.x1 + d < 2 ^ 32) × (rect.y1 + d < 2 ^ 32) }
    ensures { result ≡ appended_rect o rect d }
{
    let corner = Extent {
        width: rect.x1,
        height: rect.y1,
    };
    let longer = stretched_rect(o, rect, d);
    started_at(o, longer, side_along(o, corner))
}

// The strip of the new sheet past the old one, along an orientation.
pub fn strip_rect(o: Orientation, old: Extent, new: Extent) -> Rectangle
    ensures { result ≡ strip_rect o old new }
{
    started_at(o, Rectangle::from(new), side_along(o, old))
}

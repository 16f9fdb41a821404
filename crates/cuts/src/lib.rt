// The cut of a chosen rectangle: what is left of it beside a request.
#![tactic(auto)]

ghost use Rattle.std.specs.Prelude.{◌≡◌};
ghost use Rattle.cuts.specs.Cuts.{area_compared, exact_fit, cut_way, split_of, leftover_of, FitsIn, cut_of};

use geometry::{Orientation, Rectangle};

// The most that an area counts for.
const MOST: u64 = 2147483647;

// The area by which the cut compares its two candidates.
#[tactic(auto, unfolding(crate::specs::Cuts::area_compared, geometry::specs::Choice::lesser))]
fn area_compared(w: u32, h: u32) -> u64
    ensures { result ≡ area_compared w h }
{
    (u64::from(w) * u64::from(h)).min(MOST)
}

// Whether the request has exactly the size of the rectangle.
#[tactic(auto, unfolding(crate::specs::Cuts::exact_fit))]
fn is_exact(r: Rectangle, w: u32, h: u32) -> bool
    requires { FitsIn r w h }
    ensures { result ≡ exact_fit r w h }
{
    r.x1 - r.x0 == w && r.y1 - r.y0 == h
}

// Horizontal if the candidate to the right has the greater area, else Vertical.
#[tactic(auto, unfolding(crate::specs::Cuts::cut_way))]
fn cut_way(r: Rectangle, w: u32, h: u32) -> Orientation
    requires { FitsIn r w h }
    ensures { result ≡ cut_way r w h }
{
    if area_compared(r.x1 - r.x0 - w, h) > area_compared(w, r.y1 - r.y0 - h) {
        Orientation::Horizontal
    } else {
        Orientation::Vertical
    }
}

// What the cut leaves past the request: the full-height strip to the right, or the full-width strip below.
fn split_of(o: Orientation, r: Rectangle, w: u32, h: u32) -> Rectangle
    requires { FitsIn r w h }
    ensures { result ≡ split_of o r w h }
{
    match o {
        Orientation::Horizontal => Rectangle {
            x0: r.x0 + w,
            y0: r.y0,
            x1: r.x1,
            y1: r.y1,
        },
        Orientation::Vertical => Rectangle {
            x0: r.x0,
            y0: r.y0 + h,
            x1: r.x1,
            y1: r.y1,
        },
    }
}

// What it leaves beside the request: the candidate at the bottom, or the one to the right.
fn leftover_of(o: Orientation, r: Rectangle, w: u32, h: u32) -> Rectangle
    requires { FitsIn r w h }
    ensures { result ≡ leftover_of o r w h }
{
    match o {
        Orientation::Horizontal => Rectangle {
            x0: r.x0,
            y0: r.y0 + h,
            x1: r.x0 + w,
            y1: r.y1,
        },
        Orientation::Vertical => Rectangle {
            x0: r.x0 + w,
            y0: r.y0,
            x1: r.x1,
            y1: r.y0 + h,
        },
    }
}

// What the cut leaves of the chosen rectangle beside the request, and how the pieces lie.
#[derive(Clone, Copy)]
pub struct Cut {
    pub orientation: Orientation,
    pub split: Rectangle,
    pub leftover: Rectangle,
}

// The cut of a chosen rectangle for a request w by h at its least corner.
#[tactic(auto, unfolding(crate::specs::Cuts::cut_of))]
pub fn guillotine_rect(chosen: Rectangle, w: u32, h: u32, kept: Orientation) -> Cut
    requires { FitsIn chosen w h }
    ensures { result ≡ cut_of chosen w h kept }
{
    if is_exact(chosen, w, h) {
        return Cut {
            orientation: kept,
            split: geometry::no_rect(),
            leftover: geometry::no_rect(),
        };
    }
    let way = cut_way(chosen, w, h);
    Cut {
        orientation: way,
        split: split_of(way, chosen, w, h),
        leftover: leftover_of(way, chosen, w, h),
    }
}

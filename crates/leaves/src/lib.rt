// The leaves: our functions called with a line's numbers, and each of their answers held against the line's.
#![tactic(auto)]

use geometry::{Orientation, Rectangle};

// A leaf line: what our function is called with, and what it must answer.
#[derive(Clone, Copy)]
pub enum Leaf {
    Bucket {
        small: i32,
        large: i32,
        width: u32,
        height: u32,
        bucket: u32,
    },
    Rounding {
        alignment: i32,
        side: u32,
        rounded: u32,
    },
    Cut {
        chosen: Rectangle,
        width: u32,
        height: u32,
        kept: Orientation,
        split: Rectangle,
        leftover: Rectangle,
        orientation: Orientation,
    },
}

// A side that a request may have.
fn side_of(number: u32) -> Option<u32> {
    if number > 2147483647 {
        return None;
    }
    Some(number)
}

// An orientation by its number.
pub fn orientation_of(number: u32) -> Option<Orientation> {
    match number {
        0 => Some(Orientation::Vertical),
        1 => Some(Orientation::Horizontal),
        _ => None,
    }
}

impl Leaf {
    // Whether our answer is the line's. There is none where our function must not be called.
    pub fn agrees(&self) -> Option<bool> {
        match *self {
            Leaf::Bucket {
                small,
                large,
                width,
                height,
                bucket,
            } => {
                let small = geometry::natural(small);
                let large = geometry::natural(large);
                let ours = geometry::free_list_for_size(
                    small,
                    large,
                    side_of(width)?,
                    side_of(height)?,
                );
                Some(ours as u32 == bucket)
            }
            Leaf::Rounding {
                alignment,
                side,
                rounded,
            } => {
                let alignment = geometry::natural(alignment);
                if alignment == 0 || side > 2147483647 {
                    return None;
                }
                Some(rounding::adjust_size(alignment, side) == Some(rounded))
            }
            Leaf::Cut {
                chosen,
                width,
                height,
                kept,
                split,
                leftover,
                orientation,
            } => {
                if chosen.x1.checked_sub(chosen.x0)? < width
                    || chosen.y1.checked_sub(chosen.y0)? < height
                {
                    return None;
                }
                let ours = cuts::guillotine_rect(chosen, width, height, kept);
                Some(
                    ours.split == split
                        && ours.leftover == leftover
                        && ours.orientation == orientation,
                )
            }
        }
    }
}

// Rounding: a requested size as the search takes it.
#![tactic(auto)]

ghost use Rattle.std.specs.Prelude.{◌≡◌, ◌<◌, ◌^◌, ◌%◌};
ghost use Rattle.geometry.specs.Sides.{ValidSetup};
ghost use Rattle.rounding.specs.Rounding.{rounded, request_of};

use geometry::{Extent, Setup, Size};
use refusals::Refusal;

// What a side has above the last multiple of the alignment. By a power of two nothing is divided: it is the digits below that power.
fn rest_of(alignment: u32, side: u32) -> u32
    requires { 0 < alignment }
    ensures { result ≡ side % alignment }
{
    let below = alignment - 1;
    let shared = alignment & below;
    if shared == 0 {
        side & below
    } else {
        side % alignment
    }
}

// The side rounded up to a multiple of the alignment, none where that exceeds 2,147,483,647.
#[tactic(auto, unfolding(crate::specs::Rounding::round_up, crate::specs::Rounding::rounded))]
pub fn adjust_size(alignment: u32, side: u32) -> Option<u32>
    requires { (0 < alignment) × (alignment < 2 ^ 31) × (side < 2 ^ 31) }
    ensures { result ≡ rounded alignment side }
{
    let rem = rest_of(alignment, side);
    if rem == 0 {
        return Some(side);
    }
    let up = side + (alignment - rem);
    if up <= 2147483647 { Some(up) } else { None }
}

// A requested size as the search takes it. Sides of 0 or less are refused first, then sides too large to round up.
#[tactic(auto, unfolding(crate::specs::Rounding::request_of))]
pub fn request_of(setup: Setup, size: Size) -> Result<Extent, Refusal>
    requires { ValidSetup setup }
    ensures { result ≡ request_of setup size }
{
    let w = geometry::natural(size.width);
    let h = geometry::natural(size.height);
    if w == 0 || h == 0 {
        return Err(Refusal::NotPositive);
    }
    let width = adjust_size(setup.alignment.width, w).ok_or(Refusal::TooLarge)?;
    let height = adjust_size(setup.alignment.height, h).ok_or(Refusal::TooLarge)?;
    Ok(Extent { width, height })
}

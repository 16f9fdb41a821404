// Sides and setups as they arrive, rectangles and buckets.
#![tactic(auto)]

ghost use Rattle.std.specs.Prelude.{◌≡◌, ◌<◌, ◌^◌};
ghost use Rattle.geometry.specs.Sides.{natural, sheet_side, valid_options, valid_setup, extent_of, setup_of};
ghost use Rattle.geometry.specs.Buckets.{reaches, bucket_of};
ghost use Rattle.geometry.specs.Rectangles.{no_rect, rect_of, flip, empty_rect};

// A width and a height as they arrive: any two i32.
#[derive(Clone, Copy, PartialEq, Eq)]
pub struct Size {
    pub width: i32,
    pub height: i32,
}

// What a caller may set: the sides that requests are rounded up to multiples of, and from which side on a
// size is medium (small) or large (large).
#[derive(Clone, Copy, PartialEq, Eq)]
pub struct AllocatorOptions {
    pub alignment: Size,
    pub small: i32,
    pub large: i32,
}

// A width and a height to reckon with.
#[derive(Clone, Copy, PartialEq, Eq)]
pub struct Extent {
    pub width: u32,
    pub height: u32,
}

// A sheet and its options as numbers to reckon with: see setup_of.
#[derive(Clone, Copy)]
pub struct Setup {
    pub sheet: Extent,
    pub alignment: Extent,
    pub small: u32,
    pub large: u32,
}

// A rectangle from its least corner to its greatest, which is outside it.
#[derive(Clone, Copy, PartialEq, Eq)]
pub struct Rectangle {
    pub x0: u32,
    pub y0: u32,
    pub x1: u32,
    pub y1: u32,
}

// How siblings follow one another: Vertical runs down y, Horizontal along x.
#[derive(Clone, Copy, PartialEq, Eq)]
pub enum Orientation {
    Vertical,
    Horizontal,
}

// The other orientation.
pub fn flipped(o: Orientation) -> Orientation
    ensures { result ≡ flip o }
{
    match o {
        Orientation::Vertical => Orientation::Horizontal,
        Orientation::Horizontal => Orientation::Vertical,
    }
}

// The number itself, or 0 where it is negative. A size compares with a threshold as it does with this.
#[tactic(auto, unfolding(crate::specs::Sides::natural))]
pub fn natural(s: i32) -> u32
    ensures { (result ≡ natural s) × (result < 2 ^ 31) }
{
    s.max(0) as u32
}

// The largest side of a sheet.
pub const LARGEST_SIDE: u32 = 2147483647;

// Whether a sheet may have this side.
#[tactic(auto, unfolding(crate::specs::Sides::sheet_side))]
fn is_sheet_side(side: u32) -> bool
    ensures { result ≡ sheet_side side }
{
    side != 0 && side <= LARGEST_SIDE
}

// Whether options may be set: alignment sides above 0, large threshold not below the small one.
fn are_valid(options: AllocatorOptions) -> bool
    ensures { result ≡ valid_options options }
{
    let alignment = options.alignment;
    natural(alignment.width) != 0
        && natural(alignment.height) != 0
        && options.small <= options.large
}

// Whether a setup is valid: sheet sides in range, alignment sides above 0, large threshold not below the small one.
#[tactic(auto, unfolding(crate::specs::Sides::valid_setup))]
pub fn is_valid(sheet: Size, options: AllocatorOptions) -> bool
    ensures { result ≡ valid_setup sheet options }
{
    is_sheet_side(natural(sheet.width))
        && is_sheet_side(natural(sheet.height))
        && are_valid(options)
}

// Both sides as numbers to reckon with.
impl From<Size> for Extent {
    ghost from_gives = { λ size extent. (extent ≡ extent_of size) × (extent.width < 2 ^ 31) × (extent.height < 2 ^ 31) };

    fn from(size: Size) -> Extent {
        Extent {
            width: natural(size.width),
            height: natural(size.height),
        }
    }
}

// The setup as numbers to reckon with.
#[tactic(auto, unfolding(crate::specs::Sides::setup_of))]
pub fn setup_of(sheet: Size, options: AllocatorOptions) -> Setup
    ensures { (result ≡ setup_of sheet options) × (result.alignment.width < 2 ^ 31) × (result.alignment.height < 2 ^ 31) }
{
    Setup {
        sheet: Extent::from(sheet),
        alignment: Extent::from(options.alignment),
        small: natural(options.small),
        large: natural(options.large),
    }
}

// The free list that a size belongs to.
#[derive(Clone, Copy, PartialEq, Eq)]
pub enum Bucket {
    Small,
    Medium,
    Large,
}

// Whether either side reaches the threshold.
#[tactic(auto, unfolding(crate::specs::Buckets::reaches))]
fn reaches(threshold: u32, w: u32, h: u32) -> bool
    ensures { result ≡ reaches threshold w h }
{
    threshold <= w || threshold <= h
}

// Large if either side reaches the large threshold, else medium if one reaches the small one, else small.
#[tactic(auto, unfolding(crate::specs::Buckets::bucket_of))]
pub fn free_list_for_size(small: u32, large: u32, w: u32, h: u32) -> Bucket
    ensures { result ≡ bucket_of small large w h }
{
    if reaches(large, w, h) {
        Bucket::Large
    } else if reaches(small, w, h) {
        Bucket::Medium
    } else {
        Bucket::Small
    }
}

// The rectangle that stands for none.
pub fn no_rect() -> Rectangle
    ensures { result ≡ no_rect }
{
    Rectangle {
        x0: 0,
        y0: 0,
        x1: 0,
        y1: 0,
    }
}

// The rectangle of an extent from the origin.
impl From<Extent> for Rectangle {
    ghost from_gives = { λ extent rect. rect ≡ rect_of extent };

    fn from(extent: Extent) -> Rectangle {
        Rectangle {
            x0: 0,
            y0: 0,
            x1: extent.width,
            y1: extent.height,
        }
    }
}

// Whether no point lies in the rectangle.
#[tactic(auto, unfolding(crate::specs::Rectangles::empty_rect))]
pub fn is_empty(r: Rectangle) -> bool
    ensures { result ≡ empty_rect r }
{
    r.x1 <= r.x0 || r.y1 <= r.y0
}

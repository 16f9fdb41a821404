// Grow on sound tables: a single Free root stretches; otherwise along the root's orientation, then across it.
#![tactic(auto)]

ghost use Rattle.std.specs.Prelude.{◌≡◌, ◌<◌};
ghost use Rattle.steps.specs.State.{state};
ghost use Rattle.sound.specs.Sound.{Sound};
ghost use Rattle.lent.specs.Lent.{LentOf};
ghost use Rattle.grows.specs.Grows.{grown_both, grown};
ghost use Rattle.grown.specs.Terms.{GrowDue};
ghost use Rattle.along.specs.Ready.{AlongReady};
ghost use Rattle.across.specs.Ready.{AcrossReady};
ghost use Rattle.enlarging.specs.Ready.{along_by, across_by, BothReady};

use geometry::{Rectangle, Size};
use steps::Head;

// Grows along by a length, if it is above 0.
fn lengthen(
    words: &mut [u32],
    generations: &mut [u8],
    small: &mut [u32],
    medium: &mut [u32],
    large: &mut [u32],
    head: Head,
    by: u32,
) -> Head
    requires { 0 < by → AlongReady (state head words.old generations.old small.old medium.old large.old) by }
    ensures { state result words.new generations.new small.new medium.new large.new
        ≡ along_by (state head words.old generations.old small.old medium.old large.old) by }
{
    if by > 0 {
        return along::grow_along(words, generations, small, medium, large, head, by);
    }
    head
}

// Grows across by a length, if it is above 0: the strip is the new Free rectangle.
fn widen(
    words: &mut [u32],
    generations: &mut [u8],
    small: &mut [u32],
    medium: &mut [u32],
    large: &mut [u32],
    head: Head,
    by: u32,
    strip: Rectangle,
) -> Head
    requires { 0 < by → AcrossReady (state head words.old generations.old small.old medium.old large.old) strip }
    ensures { state result words.new generations.new small.new medium.new large.new
        ≡ across_by (state head words.old generations.old small.old medium.old large.old) by strip }
{
    if by > 0 {
        return across::grow_across(words, generations, small, medium, large, head, strip);
    }
    head
}

// Along, then across, each if the sheet, which was of the old size, grows that way.
fn grow_both(
    words: &mut [u32],
    generations: &mut [u8],
    small: &mut [u32],
    medium: &mut [u32],
    large: &mut [u32],
    head: Head,
    old: Size,
) -> Head
    requires { BothReady (state head words.old generations.old small.old medium.old large.old) old }
    ensures { state result words.new generations.new small.new medium.new large.new
        ≡ grown_both (state head words.old generations.old small.old medium.old large.old) old head.sheet }
{
    let o = table::node_at(words, head.root).orientation;
    let far = ways::ways_of(o, old, head.sheet, head.options);
    let between = lengthen(words, generations, small, medium, large, head, far.along);
    widen(
        words,
        generations,
        small,
        medium,
        large,
        between,
        far.across,
        far.strip,
    )
}

// Grows the sheet of sound tables to a size, where such a grow is due.
pub fn grow_sheet(
    words: &mut [u32],
    generations: &mut [u8],
    small: &mut [u32],
    medium: &mut [u32],
    large: &mut [u32],
    head: Head,
    new: Size,
) -> Head
    requires { LentOf (state head words.old generations.old small.old medium.old large.old)
        × Sound (state head words.old generations.old small.old medium.old large.old)
        × GrowDue (state head words.old generations.old small.old medium.old large.old) new }
    ensures { state result words.new generations.new small.new medium.new large.new
        ≡ grown (state head words.old generations.old small.old medium.old large.old) new }
{
    let sheet = geometry::setup_of(new, head.options).sheet;
    let after = Head { sheet: new, ..head };
    if lone::is_lone(words, head.root) {
        let whole = Rectangle::from(sheet);
        return growing::stretch(words, small, medium, large, after, head.root, whole);
    }
    grow_both(words, generations, small, medium, large, after, head.sheet)
}

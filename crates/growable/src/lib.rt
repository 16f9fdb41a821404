// Whether a grow can be done on sound tables: the new slots that it needs, and what it is refused with.
#![tactic(auto)]

ghost use Rattle.std.specs.Prelude.{◌≡◌, List, ℕ, ◌≤◌};
ghost use Rattle.geometry.specs.Sides.{natural};
ghost use Rattle.steps.specs.State.{state};
ghost use Rattle.grows.specs.Grows.{grow_slots};
ghost use Rattle.grows.specs.Refusals.{is_smaller, grow_answer};
ghost use Rattle.refusals.specs.Refusals.{answer_of};
ghost use Rattle.growable.specs.Growable.{TopReady, Growable, slots_along};

use geometry::{Extent, Size};
use refusals::Refusal;
use slots::NodeKind;
use steps::Head;

// Whether either side is smaller than now.
#[tactic(auto, unfolding(grows::specs::Refusals::is_smaller))]
fn is_smaller(old: Extent, new: Extent) -> bool
    ensures { result ≡ is_smaller old new }
{
    new.width < old.width || new.height < old.height
}

// The new slots along, if the sheet grows so: 1 to append to the last slot of the top chain, none where that is Free.
fn slots_along(words: &[u32], head: Head, grows: bool) -> u32
    requires { TopReady words.now head }
    ensures { result ≡ slots_along words.now head grows }
{
    if !grows {
        return 0;
    }
    let last = stretches::last_of(words, head.count, head.root);
    if table::node_at(words, last).kind == NodeKind::Free {
        0
    } else {
        1
    }
}

// The new slots that a grow needs to a size with no smaller side, whatever the generations and the lists.
pub fn grow_slots(words: &[u32], head: Head, new: Size) -> u32
    requires { TopReady words.now head × (natural head.sheet.width ≤ natural new.width) × (natural head.sheet.height ≤ natural new.height) }
    ensures { (g a b c : List ℕ) → result ≡ grow_slots (state head words.now g a b c) new }
{
    if lone::is_lone(words, head.root) {
        return 0;
    }
    let o = table::node_at(words, head.root).orientation;
    let far = ways::ways_of(o, head.sheet, new, head.options);
    let along = slots_along(words, head, far.along > 0);
    if far.across > 0 { along + 2 } else { along }
}

// What a grow is refused with, whatever the lists: 11 where either side is smaller than now, 3 where the setup with the new size is not
// valid, 7 where too few slots are spare; 0 where it can be done.
pub fn grow_answer(words: &[u32], generations: &[u8], head: Head, size: Size) -> Result<(), Refusal>
    requires { Growable words.now generations.now head }
    ensures { (a b c : List ℕ) → answer_of result ≡ grow_answer (state head words.now generations.now a b c) size }
{
    let options = head.options;
    let old = geometry::setup_of(head.sheet, options).sheet;
    let new = geometry::setup_of(size, options).sheet;
    if is_smaller(old, new) {
        return Err(Refusal::Smaller);
    }
    if !geometry::is_valid(size, options) {
        return Err(Refusal::Setup);
    }
    let need = grow_slots(words, head, size);
    let total = generations.len() as u32;
    if !spares::has_spare_slots(words, total, head.spare, head.count, need) {
        return Err(Refusal::NoSlots);
    }
    Ok(())
}

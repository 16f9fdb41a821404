// An entry that moves: a Free slot's, where its rectangle grows.
#![tactic(auto)]

ghost use Rattle.std.specs.Prelude.{◌≡◌, ◌≤◌};
ghost use Rattle.table.specs.Table.{HasSlot};
ghost use Rattle.buckets.specs.FreeLists.{lists};
ghost use Rattle.entries.specs.Entries.{ListsReady};
ghost use Rattle.moves.specs.Moves.{moved};

use buckets::Lengths;
use geometry::{Rectangle, Setup};
use slots::AllocIndex;

// Moves the entry of slot i: the first occurrence is taken out, and it is pushed by its new rectangle.
pub fn move_entry(
    words: &[u32],
    small: &mut [u32],
    medium: &mut [u32],
    large: &mut [u32],
    lengths: Lengths,
    setup: Setup,
    i: AllocIndex,
    rect: Rectangle,
) -> Lengths
    requires { ListsReady words.now (lists lengths small.old medium.old large.old) × HasSlot words.now i × (rect.x0 ≤ rect.x1) × (rect.y0 ≤ rect.y1) }
    ensures { lists result small.new medium.new large.new
        ≡ moved words.now setup i rect (lists lengths small.old medium.old large.old) }
{
    let without = buckets::forget(small, medium, large, lengths, i.0);
    entries::add_free_rect(words, small, medium, large, without, setup, i, rect)
}

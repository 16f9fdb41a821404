// The entry of a Free slot, in the list of its rectangle's bucket.
#![tactic(auto)]

ghost use Rattle.std.specs.Prelude.{◌≡◌, ◌≤◌};
ghost use Rattle.buckets.specs.FreeLists.{lists};
ghost use Rattle.entries.specs.Entries.{entered, Enterable};

use buckets::Lengths;
use geometry::{Rectangle, Setup};
use slots::AllocIndex;

// Pushes slot i onto the list of its rectangle's bucket.
pub fn add_free_rect(
    words: &[u32],
    small: &mut [u32],
    medium: &mut [u32],
    large: &mut [u32],
    lengths: Lengths,
    setup: Setup,
    i: AllocIndex,
    rect: Rectangle,
) -> Lengths
    requires { Enterable words.now i.0 (lists lengths small.old medium.old large.old) × (rect.x0 ≤ rect.x1) × (rect.y0 ≤ rect.y1) }
    ensures { lists result small.new medium.new large.new
        ≡ entered words.now setup i rect (lists lengths small.old medium.old large.old) }
{
    let bucket = geometry::free_list_for_size(
        setup.small,
        setup.large,
        rect.x1 - rect.x0,
        rect.y1 - rect.y0,
    );
    buckets::push_to(words, small, medium, large, lengths, bucket, i.0)
}

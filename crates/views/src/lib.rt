// What can be read off the tables: the listings, and the sheet's size.
#![tactic(auto)]

ghost use Rattle.std.specs.Prelude.{◌≡◌};
ghost use Rattle.slots.specs.declared.NodeKind.TheVariants.{Alloc, Free};
ghost use Rattle.steps.specs.State.{state};
ghost use Rattle.outcomes.specs.Given.{given};
ghost use Rattle.listings.specs.Listings.{filled};
ghost use Rattle.refusals.specs.Refusals.{answer_of, handed};
ghost use Rattle.views.specs.Views.{ListCall};

use geometry::Size;
use refusals::Refusal;
use slots::NodeKind;
use steps::Head;

// The listing of a kind, into a lent list: how many entries it has. 12: the lent list is shorter than the listing.
fn for_each_rectangle(
    words: &[u32],
    generations: &[u8],
    small: &[u32],
    medium: &[u32],
    large: &[u32],
    head: Head,
    out: &mut [u32],
    kind: NodeKind,
) -> Result<u32, Refusal>
    ensures { ListCall kind (state head words.now generations.now small.now medium.now large.now) out.old
        (given (answer_of result) (filled (handed 0 result) out.new) (state head words.now generations.now small.now medium.now large.now)) }
{
    audit::check(words, generations, small, medium, large, head)?;
    listings::list_slots(words, generations, out, kind, head.count)
}

// The Alloc slots in slot order, five words to an entry: the ticket and the corners.
pub fn for_each_allocated_rectangle(
    words: &[u32],
    generations: &[u8],
    small: &[u32],
    medium: &[u32],
    large: &[u32],
    head: Head,
    out: &mut [u32],
) -> Result<u32, Refusal>
    ensures { ListCall Alloc (state head words.now generations.now small.now medium.now large.now) out.old
        (given (answer_of result) (filled (handed 0 result) out.new) (state head words.now generations.now small.now medium.now large.now)) }
{
    for_each_rectangle(
        words,
        generations,
        small,
        medium,
        large,
        head,
        out,
        NodeKind::Alloc,
    )
}

// The Free slots in slot order, four words to an entry: the corners.
pub fn for_each_free_rectangle(
    words: &[u32],
    generations: &[u8],
    small: &[u32],
    medium: &[u32],
    large: &[u32],
    head: Head,
    out: &mut [u32],
) -> Result<u32, Refusal>
    ensures { ListCall Free (state head words.now generations.now small.now medium.now large.now) out.old
        (given (answer_of result) (filled (handed 0 result) out.new) (state head words.now generations.now small.now medium.now large.now)) }
{
    for_each_rectangle(
        words,
        generations,
        small,
        medium,
        large,
        head,
        out,
        NodeKind::Free,
    )
}

// The sheet's size, as the head has it.
pub fn size(head: Head) -> Size
    ensures { result ≡ head.sheet }
{
    head.sheet
}

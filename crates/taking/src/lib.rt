// The chosen slot is cut for a request; and what a call that allocates hands over.
#![tactic(auto)]

ghost use Rattle.std.specs.Prelude.{◌≡◌};
ghost use Rattle.buckets.specs.FreeLists.{lists};
ghost use Rattle.steps.specs.State.{state};
ghost use Rattle.refusals.specs.Refusals.{handed};
ghost use Rattle.grants.specs.Grants.{grant, taken};
ghost use Rattle.taking.specs.Allocations.{no_allocation};
ghost use Rattle.taking.specs.Ready.{TakeReady};

use buckets::Lengths;
use choices::Chosen;
use cuts::Cut;
use geometry::{Rectangle, Setup};
use grants::Shape;
use refusals::Refusal;
use steps::Head;
use tickets::AllocId;

// What was allocated: a ticket, and the rectangle that it stands for.
#[derive(Clone, Copy)]
pub struct Allocation {
    pub id: AllocId,
    pub rectangle: Rectangle,
}

// What a call hands over: zero ticket and rectangle on a refusal.
pub fn handed_over(outcome: Result<Allocation, Refusal>) -> Allocation
    ensures { result ≡ handed no_allocation outcome }
{
    outcome.unwrap_or(Allocation {
        id: AllocId(0),
        rectangle: geometry::no_rect(),
    })
}

// The chosen slot is cut for a request at rect. The lists have these lengths.
pub fn take_chosen(
    shape: Shape,
    words: &mut [u32],
    generations: &mut [u8],
    small: &mut [u32],
    medium: &mut [u32],
    large: &mut [u32],
    head: &mut Head,
    lengths: Lengths,
    setup: Setup,
    chosen: Chosen,
    rect: Rectangle,
    cut: Cut,
) -> Allocation
    requires { TakeReady shape words.old generations.old head.old (lists lengths small.old medium.old large.old) chosen.slot chosen.bucket chosen.place cut }
    ensures { grant 0 result.id result.rectangle
        (state head.new words.new generations.new small.new medium.new large.new)
        ≡ taken shape (state head.old words.old generations.old small.old medium.old large.old)
        setup (lists lengths small.old medium.old large.old) chosen.slot chosen.bucket chosen.place rect cut }
{
    let new = carves::take_slots(shape, words, generations, head, chosen.slot);
    carves::carve(shape, words, chosen.slot, new, rect, cut);
    let less = buckets::remove_from(small, medium, large, lengths, chosen.bucket, chosen.place);
    head.lengths = pieces::enter_pieces(
        shape, words, small, medium, large, less, setup, new.split, new.left, cut,
    );
    let id = tickets::alloc_id(new.alloc, generations[new.alloc.0 as usize]);
    Allocation {
        id,
        rectangle: rect,
    }
}

// The cut of the chosen slot, where enough slots are spare.
#![tactic(auto)]

ghost use Rattle.std.specs.Prelude.{◌≡◌};
ghost use Rattle.buckets.specs.FreeLists.{lists};
ghost use Rattle.steps.specs.State.{state};
ghost use Rattle.grants.specs.Grants.{cut_for};
ghost use Rattle.taking.specs.Allocations.{grant_by};
ghost use Rattle.cutting.specs.Ready.{ChosenReady};

use buckets::Lengths;
use choices::Chosen;
use geometry::{Extent, Rectangle, Setup};
use refusals::Refusal;
use steps::Head;
use taking::Allocation;

// The chosen slot is cut for a request, where enough slots are spare. The lists have these lengths.
pub fn cut_for(
    words: &mut [u32],
    generations: &mut [u8],
    small: &mut [u32],
    medium: &mut [u32],
    large: &mut [u32],
    head: &mut Head,
    lengths: Lengths,
    setup: Setup,
    request: Extent,
    chosen: Chosen,
) -> Result<Allocation, Refusal>
    requires { ChosenReady words.old generations.old head.old (lists lengths small.old medium.old large.old) request chosen.slot chosen.bucket chosen.place }
    ensures { grant_by result (state head.new words.new generations.new small.new medium.new large.new)
        ≡ cut_for (state head.old words.old generations.old small.old medium.old large.old)
        setup (lists lengths small.old medium.old large.old) request chosen.slot chosen.bucket chosen.place }
{
    let node = table::node_at(words, chosen.slot);
    let cut = cuts::guillotine_rect(node.rect, request.width, request.height, node.orientation);
    let shape = grants::shape_of(cut, node.orientation);
    let need = grants::slots_needed(shape);
    let total = generations.len() as u32;
    if !spares::has_spare_slots(words, total, head.spare, head.count, need) {
        head.lengths = lengths;
        return Err(Refusal::NoSlots);
    }
    let rect = Rectangle {
        x0: node.rect.x0,
        y0: node.rect.y0,
        x1: node.rect.x0 + request.width,
        y1: node.rect.y0 + request.height,
    };
    Ok(taking::take_chosen(
        shape,
        words,
        generations,
        small,
        medium,
        large,
        head,
        lengths,
        setup,
        chosen,
        rect,
        cut,
    ))
}

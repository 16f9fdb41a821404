// Allocate on sound tables: the search, and the cut of what it chose.
#![tactic(auto)]

ghost use Rattle.std.specs.Prelude.{◌≡◌};
ghost use Rattle.steps.specs.State.{state};
ghost use Rattle.sound.specs.Sound.{Sound};
ghost use Rattle.lent.specs.Lent.{LentOf};
ghost use Rattle.grants.specs.Grants.{granted};
ghost use Rattle.taking.specs.Allocations.{grant_by};

use geometry::Extent;
use refusals::Refusal;
use steps::Head;
use taking::Allocation;

// Allocates a rounded request on sound tables: in a Free rectangle as wide and as tall, where enough slots are spare for its cut.
pub fn grant_request(
    words: &mut [u32],
    generations: &mut [u8],
    small: &mut [u32],
    medium: &mut [u32],
    large: &mut [u32],
    head: &mut Head,
    request: Extent,
) -> Result<Allocation, Refusal>
    requires { LentOf (state head.old words.old generations.old small.old medium.old large.old)
        × Sound (state head.old words.old generations.old small.old medium.old large.old) }
    ensures { grant_by result (state head.new words.new generations.new small.new medium.new large.new)
        ≡ granted (state head.old words.old generations.old small.old medium.old large.old) request }
{
    let setup = geometry::setup_of(head.sheet, head.options);
    let found = search::find_suitable_rect(
        words,
        small,
        medium,
        large,
        head.lengths,
        setup,
        request,
    );
    match found.chosen {
        Some(chosen) => cutting::cut_for(
            words,
            generations,
            small,
            medium,
            large,
            head,
            found.lengths,
            setup,
            request,
            chosen,
        ),
        None => {
            head.lengths = found.lengths;
            Err(Refusal::NoSpace)
        }
    }
}

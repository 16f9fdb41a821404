// Allocate: the check, the rounding, and the call on sound tables.
#![tactic(auto)]

ghost use Rattle.steps.specs.State.{state};
ghost use Rattle.refusals.specs.Refusals.{answer_of};
ghost use Rattle.outcomes.specs.Given.{given};
ghost use Rattle.allocate.specs.Allocate.{crop_of, AllocateCall};

use geometry::Size;
use refusals::Refusal;
use steps::Head;
use taking::Allocation;

// A rectangle for a requested size, with its ticket. A refusal for space or for slots leaves the lists as the search left them; any other changes nothing.
#[tactic(auto, using(audit::proofs::AnswerLaws::answers_checked, refusals::proofs::RefusalLaws::refused_not_0, crate::specs::AllocateLaws::leaves_refused, crate::specs::AllocateLaws::leaves_outcome))]
pub fn allocate(
    words: &mut [u32],
    generations: &mut [u8],
    small: &mut [u32],
    medium: &mut [u32],
    large: &mut [u32],
    head: &mut Head,
    size: Size,
) -> Result<Allocation, Refusal>
    ensures { AllocateCall size (state head.old words.old generations.old small.old medium.old large.old)
        (given (answer_of result) (crop_of result) (state head.new words.new generations.new small.new medium.new large.new)) }
{
    audit::check(words, generations, small, medium, large, *head)?;
    let setup = geometry::setup_of(head.sheet, head.options);
    let request = rounding::request_of(setup, size)?;
    granting::grant_request(words, generations, small, medium, large, head, request)
}

// Grow: the check, the refusals, and the call on sound tables.
#![tactic(auto)]

ghost use Rattle.steps.specs.State.{state};
ghost use Rattle.outcomes.specs.Given.{nothing, given};
ghost use Rattle.refusals.specs.Refusals.{answer_of};
ghost use Rattle.grow.specs.Grow.{GrowCall};

use geometry::Size;
use refusals::Refusal;
use steps::Head;

// Grows the sheet to another size. 1: a table length is out of range; 2: the tables are not sound; 11: either side is smaller than now;
// 3: the setup with the new size is not valid; 7: too few spare slots.
#[tactic(auto, using(audit::proofs::AnswerLaws::answers_checked, audit::proofs::AnswerLaws::leaves_refused, audit::proofs::AnswerLaws::leaves_done, refusals::proofs::RefusalLaws::refused_not_0))]
pub fn grow(
    words: &mut [u32],
    generations: &mut [u8],
    small: &mut [u32],
    medium: &mut [u32],
    large: &mut [u32],
    head: &mut Head,
    size: Size,
) -> Result<(), Refusal>
    ensures { GrowCall (state head.old words.old generations.old small.old medium.old large.old) size
        (given (answer_of result) nothing (state head.new words.new generations.new small.new medium.new large.new)) }
{
    audit::check(words, generations, small, medium, large, *head)?;
    growable::grow_answer(words, generations, *head, size)?;
    *head = enlarging::grow_sheet(words, generations, small, medium, large, *head, size);
    Ok(())
}

// Deallocate: the check, the ticket, and the call on sound tables.
#![tactic(auto)]

ghost use Rattle.steps.specs.State.{state};
ghost use Rattle.outcomes.specs.Given.{nothing, given};
ghost use Rattle.refusals.specs.Refusals.{answer_of};
ghost use Rattle.deallocate.specs.Deallocate.{DeallocateCall};

use refusals::Refusal;
use steps::Head;
use tickets::AllocId;

// Frees a live ticket. 1: a table length is out of range; 2: the tables are not sound; 8: the ticket's slot is not below n; 9: its generation
// differs; 10: its slot is not Alloc. The generations are lent to be read.
#[tactic(auto, using(audit::proofs::AnswerLaws::answers_checked, audit::proofs::AnswerLaws::leaves_refused, refusals::proofs::RefusalLaws::refused_not_0, lookup::specs::HeldLaws::checked_held))]
pub fn deallocate(
    words: &mut [u32],
    generations: &[u8],
    small: &mut [u32],
    medium: &mut [u32],
    large: &mut [u32],
    head: &mut Head,
    id: AllocId,
) -> Result<(), Refusal>
    ensures { DeallocateCall (state head.old words.old generations.now small.old medium.old large.old) id
        (given (answer_of result) nothing (state head.new words.new generations.now small.new medium.new large.new)) }
{
    audit::check(words, generations, small, medium, large, *head)?;
    live::ticket_answer(words, generations, head.count, id)?;
    let i = tickets::get_index(id);
    *head = releasing::release(words, small, medium, large, *head, i);
    Ok(())
}

// "Is it empty": whether one Free slot is the whole sheet.
#![tactic(auto)]

ghost use Rattle.std.specs.Prelude.{false};
ghost use Rattle.steps.specs.State.{state};
ghost use Rattle.outcomes.specs.Given.{given};
ghost use Rattle.refusals.specs.Refusals.{answer_of, handed};
ghost use Rattle.empty.specs.Empty.{EmptyCall};

use refusals::Refusal;
use steps::Head;

// Whether one Free slot is the whole sheet.
#[tactic(auto, using(audit::proofs::AnswerLaws::answers_checked, audit::proofs::AnswerLaws::answers_core, refusals::proofs::RefusalLaws::refused_not_0, lookup::specs::HeldLaws::checked_root))]
pub fn is_empty(
    words: &[u32],
    generations: &[u8],
    small: &[u32],
    medium: &[u32],
    large: &[u32],
    head: Head,
) -> Result<bool, Refusal>
    ensures { EmptyCall (state head words.now generations.now small.now medium.now large.now)
        (given (answer_of result) (handed false result) (state head words.now generations.now small.now medium.now large.now)) }
{
    audit::check(words, generations, small, medium, large, head)?;
    Ok(lone::is_lone(words, head.root))
}

// Ticket lookup: a live ticket's rectangle.
#![tactic(auto)]

ghost use Rattle.geometry.specs.Rectangles.{no_rect};
ghost use Rattle.steps.specs.State.{state};
ghost use Rattle.outcomes.specs.Given.{given};
ghost use Rattle.refusals.specs.Refusals.{answer_of, handed};
ghost use Rattle.lookup.specs.Lookup.{IndexCall};

use geometry::Rectangle;
use refusals::Refusal;
use steps::Head;
use tickets::AllocId;

// A ticket's rectangle. 8: its slot is not below n; 9: its generation differs; 10: its slot is not Alloc.
#[tactic(auto, using(audit::proofs::AnswerLaws::answers_checked, audit::proofs::AnswerLaws::answers_core, refusals::proofs::RefusalLaws::refused_not_0, crate::specs::HeldLaws::checked_held))]
pub fn index(
    words: &[u32],
    generations: &[u8],
    small: &[u32],
    medium: &[u32],
    large: &[u32],
    head: Head,
    id: AllocId,
) -> Result<Rectangle, Refusal>
    ensures { IndexCall (state head words.now generations.now small.now medium.now large.now) id
        (given (answer_of result) (handed no_rect result) (state head words.now generations.now small.now medium.now large.now)) }
{
    audit::check(words, generations, small, medium, large, head)?;
    live::look_up(words, generations, head.count, id)
}

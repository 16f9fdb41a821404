// What a ticket is on the tables: live, with its rectangle, or refused.
#![tactic(auto)]

ghost use Rattle.std.specs.Prelude.{◌≡◌};
ghost use Rattle.geometry.specs.Rectangles.{no_rect};
ghost use Rattle.refusals.specs.Refusals.{answer_of, handed};
ghost use Rattle.live.specs.Live.{ticket_answer, ticket_rect};
ghost use Rattle.links.specs.Held.{Held};

use geometry::Rectangle;
use refusals::Refusal;
use slots::NodeKind;
use tickets::AllocId;

// What a ticket is on tables of n slots: live, or refused with 8, 9 or 10.
pub fn ticket_answer(words: &[u32], generations: &[u8], n: u32, id: AllocId) -> Result<(), Refusal>
    requires { Held words.now generations.now n }
    ensures { answer_of result ≡ ticket_answer words.now generations.now n id }
{
    let i = tickets::get_index(id);
    if i.0 >= n {
        return Err(Refusal::NoSuchSlot);
    }
    let present = generations[i.0 as usize];
    let told = tickets::get_generation(id);
    if present != told {
        return Err(Refusal::Generation);
    }
    if table::node_at(words, i).kind != NodeKind::Alloc {
        return Err(Refusal::NotAlloc);
    }
    Ok(())
}

// The rectangle of a live ticket.
pub fn look_up(words: &[u32], generations: &[u8], n: u32, id: AllocId) -> Result<Rectangle, Refusal>
    requires { Held words.now generations.now n }
    ensures { (answer_of result ≡ ticket_answer words.now generations.now n id)
        × (handed no_rect result ≡ ticket_rect words.now generations.now n id) }
{
    ticket_answer(words, generations, n, id)?;
    Ok(table::node_at(words, tickets::get_index(id)).rect)
}

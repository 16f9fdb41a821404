// The listing of a kind of slots, into a lent list.
#![tactic(auto)]

ghost use Rattle.std.specs.Prelude.{◌≡◌, ◌≤◌, length};
ghost use Rattle.listings.specs.Listings.{entries, written_over, filled, list_answer, list_filled};
ghost use Rattle.refusals.specs.Refusals.{answer_of, handed};
ghost use Rattle.links.specs.Held.{Held};

use refusals::Refusal;
use slots::{AllocIndex, NodeKind};

// Writes a kind's listing of the first n slots over the front of a list.
fn fill(words: &[u32], generations: &[u8], out: &mut [u32], kind: NodeKind, n: u32)
    requires { Held words.now generations.now n × (length (entries words.now generations.now kind n) ≤ length out.old) }
    ensures { out.new ≡ written_over (entries words.now generations.now kind n) out.old }
{
    let mut at = 0;
    for i in 0..n {
        at = written::list_slot(words, generations, out, kind, AllocIndex(i), at);
    }
}

// A kind's listing of the first n slots, in slot order: how many entries it has. 12: the lent list is shorter than the listing.
pub fn list_slots(
    words: &[u32],
    generations: &[u8],
    out: &mut [u32],
    kind: NodeKind,
    n: u32,
) -> Result<u32, Refusal>
    requires { Held words.now generations.now n }
    ensures { (answer_of result ≡ list_answer words.now generations.now kind n out.old)
        × (filled (handed 0 result) out.new ≡ list_filled words.now generations.now kind n out.old) }
{
    let count = counts::count_kind(words, kind, n);
    if out.len() < (count as usize) * written::entry_words(kind) {
        return Err(Refusal::ListLength);
    }
    fill(words, generations, out, kind, n);
    Ok(count)
}

// Grow in the slot table: the last slot of a chain, and another parent for a chain.
#![tactic(auto)]

ghost use Rattle.std.specs.Prelude.{◌≡◌, false};
ghost use Rattle.slots.specs.Slots.{is_none};
ghost use Rattle.grows.specs.Grows.{last_from, reparented};
ghost use Rattle.stretches.specs.Chains.{ChainHas};

use slots::AllocIndex;

// The last slot of the chain from slot i, at most n links on.
pub fn last_of(words: &[u32], n: u32, i: AllocIndex) -> AllocIndex
    requires { (is_none i ≡ false) × ChainHas n words.now i }
    ensures { result ≡ last_from n words.now i }
{
    let mut at = i;
    for _k in 0..n {
        let next = table::node_at(words, at).next;
        if slots::is_none(next) {
            return at;
        }
        at = next;
    }
    at
}

// The chain from slot i, at most n slots of it, gets the parent p.
pub fn reparent(words: &mut [u32], n: u32, p: AllocIndex, i: AllocIndex)
    requires { ChainHas n words.old i }
    ensures { words.new ≡ reparented n words.old p i }
{
    let mut at = i;
    for _j in 0..n {
        if slots::is_none(at) {
            return;
        }
        let next = table::node_at(words, at).next;
        stores::set_parent(words, at, p);
        at = next;
    }
}

// Whether enough slots are spare for a call, told by no more than that many steps along the spare chain.
#![tactic(auto)]

ghost use Rattle.std.specs.Prelude.{◌≡◌, ◌*◌, ◌≤◌, length, leb};
ghost use Rattle.steps.specs.Spares.{spare_slots};
ghost use Rattle.spares.specs.Chains.{chain_has, SpareReady};

use slots::AllocIndex;

// Whether the chain from a link has at least k slots, all below n.
fn chain_has(words: &[u32], n: u32, spare: AllocIndex, k: u32) -> bool
    requires { n * 8 ≤ length words.now }
    ensures { result ≡ chain_has words.now n k spare }
{
    let mut at = spare;
    for _ in 0..k {
        if at.0 >= n {
            return false;
        }
        at = table::node_at(words, at).next;
    }
    true
}

// Whether at least `need` slots are spare: those past n, of total in the table, and the Unused ones.
pub fn has_spare_slots(words: &[u32], total: u32, spare: AllocIndex, n: u32, need: u32) -> bool
    requires { SpareReady words.now total spare n }
    ensures { result ≡ leb need (spare_slots words.now total n) }
{
    let room = total - n;
    need <= room || chain_has(words, n, spare, need - room)
}

// Rule 2, by the walk along the spare chain, and rule 4 of one slot.
#![tactic(auto)]

ghost use Rattle.std.specs.Prelude.{◌≡◌, ◌<◌};
ghost use Rattle.links.specs.Links.{spare_walk, merged_at, Table};

use slots::{AllocIndex, NodeKind};

// Whether the chain that starts at a link passes just this many Unused slots below n and then ends.
pub fn spare_walk(words: &[u32], n: u32, spare: AllocIndex, unused: u32) -> bool
    requires { Table words.now n }
    ensures { result ≡ spare_walk words.now n unused spare }
{
    let mut at = spare;
    for _ in 0..unused {
        if at.0 >= n {
            return false;
        }
        let node = table::node_at(words, at);
        if node.kind != NodeKind::Unused {
            return false;
        }
        at = node.next;
    }
    slots::is_none(at)
}

// Rule 4 of slot i: a Free slot's next isn't Free, and with a parent it has a sibling.
#[tactic(auto, unfolding(links::specs::Links::merged_at))]
pub fn merged_at(words: &[u32], n: u32, i: AllocIndex) -> bool
    requires { Table words.now n × (i.0 < n) }
    ensures { result ≡ merged_at words.now n i.0 }
{
    let node = table::node_at(words, i);
    if node.kind != NodeKind::Free {
        return true;
    }
    if node.next.0 >= n {
        return !slots::is_none(node.prev) || slots::is_none(node.parent);
    }
    table::node_at(words, node.next).kind != NodeKind::Free
}

// Rule 3 of one slot: whether it agrees with its next and its prev.
#![tactic(auto)]

ghost use Rattle.std.specs.Prelude.{◌≡◌};
ghost use Rattle.links.specs.Links.{next_agrees, prev_agrees, siblings_agree, NamesSlot};

use slots::{AllocIndex, Node};

// Next and prev agree, and siblings share parent and orientation.
#[tactic(auto, unfolding(links::specs::Links::next_agrees))]
fn next_agrees(words: &[u32], i: AllocIndex, node: Node) -> bool
    requires { NamesSlot words.now node.next }
    ensures { result ≡ next_agrees words.now i.0 node }
{
    if slots::is_none(node.next) {
        return true;
    }
    let other = table::node_at(words, node.next);
    other.prev == i && other.parent == node.parent && other.orientation == node.orientation
}

#[tactic(auto, unfolding(links::specs::Links::prev_agrees))]
fn prev_agrees(words: &[u32], i: AllocIndex, node: Node) -> bool
    requires { NamesSlot words.now node.prev }
    ensures { result ≡ prev_agrees words.now i.0 node }
{
    slots::is_none(node.prev) || table::node_at(words, node.prev).next == i
}

// A slot agrees with its next and its prev.
#[tactic(auto, unfolding(links::specs::Links::siblings_agree))]
pub fn siblings_agree(words: &[u32], i: AllocIndex, node: Node) -> bool
    requires { NamesSlot words.now node.next × NamesSlot words.now node.prev }
    ensures { result ≡ siblings_agree words.now i.0 node }
{
    next_agrees(words, i, node) && prev_agrees(words, i, node)
}

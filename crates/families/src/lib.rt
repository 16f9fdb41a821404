// Rule 3 of one slot: whether it agrees with its parent, with its children and with the root.
#![tactic(auto)]

ghost use Rattle.std.specs.Prelude.{◌≡◌, ◌<◌, length};
ghost use Rattle.links.specs.Links.{parent_agrees, child_agrees, first_agrees, root_agrees, family_agrees, NamesSlot, NamesPlace};

use slots::{AllocIndex, Node, NodeKind};

// A parent is a Container of the other orientation.
#[tactic(auto, unfolding(links::specs::Links::parent_agrees))]
fn parent_agrees(words: &[u32], node: Node) -> bool
    requires { NamesSlot words.now node.parent }
    ensures { result ≡ parent_agrees words.now node }
{
    if slots::is_none(node.parent) {
        return true;
    }
    let above = table::node_at(words, node.parent);
    above.kind == NodeKind::Container && above.orientation == geometry::flipped(node.orientation)
}

// A Container has a first child.
#[tactic(auto, unfolding(links::specs::Links::child_agrees))]
fn child_agrees(firsts: &[u32], i: AllocIndex, node: Node) -> bool
    requires { i.0 < length firsts.now }
    ensures { result ≡ child_agrees firsts.now i.0 node }
{
    node.kind != NodeKind::Container || !slots::is_none(AllocIndex(firsts[i.0 as usize]))
}

// A first child is the one that was entered at its parent: there is no other.
#[tactic(auto, unfolding(links::specs::Links::first_agrees))]
fn first_agrees(firsts: &[u32], i: AllocIndex, node: Node) -> bool
    requires { NamesPlace firsts.now node.parent }
    ensures { result ≡ first_agrees firsts.now i.0 node }
{
    !slots::is_none(node.prev)
        || slots::is_none(node.parent)
        || firsts[node.parent.0 as usize] == i.0
}

// The root, and no other slot, has neither parent nor prev.
#[tactic(auto, unfolding(links::specs::Links::root_agrees))]
fn root_agrees(root: AllocIndex, i: AllocIndex, node: Node) -> bool
    ensures { result ≡ root_agrees root.0 i.0 node }
{
    (slots::is_none(node.parent) && slots::is_none(node.prev)) == (i == root)
}

// A slot agrees with its parent, with its children and with the root.
#[tactic(auto, unfolding(links::specs::Links::family_agrees))]
pub fn family_agrees(
    words: &[u32],
    firsts: &[u32],
    root: AllocIndex,
    i: AllocIndex,
    node: Node,
) -> bool
    requires { NamesSlot words.now node.parent × NamesPlace firsts.now node.parent × (i.0 < length firsts.now) }
    ensures { result ≡ family_agrees words.now firsts.now root.0 i.0 node }
{
    parent_agrees(words, node)
        && child_agrees(firsts, i, node)
        && first_agrees(firsts, i, node)
        && root_agrees(root, i, node)
}

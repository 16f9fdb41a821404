// Whether a slot stands where a walk came to it: its parent, prev and orientation, and that the count has a slot left for it.
#![tactic(auto)]

ghost use Rattle.std.specs.Prelude.{◌≡◌, ◌*◌, ◌≤◌, length};
ghost use Rattle.standing.specs.Standing.{stands_as, is_lone, lone_at, held_by};

use geometry::Orientation;
use slots::{AllocIndex, Node, NodeKind};

// Whether a slot in use has this parent, this prev and this orientation.
#[tactic(auto, unfolding(crate::specs::Standing::stands_as))]
pub fn stands(node: Node, parent: AllocIndex, prev: AllocIndex, o: Orientation) -> bool
    ensures { result ≡ stands_as node parent prev o }
{
    node.parent == parent
        && node.prev == prev
        && node.orientation == o
        && node.kind != NodeKind::Unused
}

// Whether a slot is the only child of this parent, and a Container.
#[tactic(auto, unfolding(crate::specs::Standing::is_lone))]
fn is_lone(node: Node, parent: AllocIndex, o: Orientation) -> bool
    ensures { result ≡ is_lone node parent o }
{
    node.kind == NodeKind::Container
        && slots::is_none(node.next)
        && stands(node, parent, slots::NONE, o)
}

// Whether slot c, if it is one of n, is that.
#[tactic(auto, unfolding(crate::specs::Standing::lone_at))]
pub fn lone_at(words: &[u32], n: usize, c: AllocIndex, parent: AllocIndex, o: Orientation) -> bool
    requires { n * 8 ≤ length words.now }
    ensures { result ≡ lone_at words.now n c parent o }
{
    (c.0 as usize) < n && is_lone(table::node_at(words, c), parent, o)
}

// Whether slot i is one of n, and the count has a slot left for it.
#[tactic(auto, unfolding(crate::specs::Standing::held_by))]
pub fn is_held(n: usize, i: AllocIndex, left: u32) -> bool
    ensures { result ≡ held_by n i.0 left }
{
    (i.0 as usize) < n && left > 0
}

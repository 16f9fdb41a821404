// A single Free root: what grow stretches, and what an empty sheet is.
#![tactic(auto)]

ghost use Rattle.std.specs.Prelude.{◌≡◌};
ghost use Rattle.table.specs.Table.{HasSlot};
ghost use Rattle.lone.specs.Lone.{lone_free};

use slots::{AllocIndex, NodeKind};

// Whether the root is Free and has no next.
#[tactic(auto, unfolding(crate::specs::Lone::lone_free))]
pub fn is_lone(words: &[u32], root: AllocIndex) -> bool
    requires { HasSlot words.now root }
    ensures { result ≡ lone_free words.now root }
{
    let node = table::node_at(words, root);
    node.kind == NodeKind::Free && slots::is_none(node.next)
}

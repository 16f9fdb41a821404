// The chosen slot of a cut: it turns Alloc, and split becomes its next sibling.
#![tactic(auto)]

ghost use Rattle.std.specs.Prelude.{◌≡◌};
ghost use Rattle.table.specs.Table.{node_at, HasSlot};
ghost use Rattle.grants.specs.Carves.{turned, beside};
ghost use Rattle.pairs.specs.Pairs.{LinkHas};

use geometry::Rectangle;
use slots::{AllocIndex, Node, NodeKind};

// The chosen slot turns Alloc, with the request's rectangle.
#[tactic(auto, unfolding(grants::specs::Carves::turned))]
pub fn turn(words: &mut [u32], i: AllocIndex, rect: Rectangle)
    requires { HasSlot words.old i }
    ensures { words.new ≡ turned words.old i rect }
{
    stores::set_kind(words, i, NodeKind::Alloc);
    stores::set_rect(words, i, rect);
}

// Split becomes the chosen slot's next sibling.
#[tactic(auto, unfolding(grants::specs::Carves::beside), using(pairs::specs::PairLaws::link_stored))]
pub fn split_beside(words: &mut [u32], i: AllocIndex, s: AllocIndex, rect: Rectangle)
    requires { HasSlot words.old i × HasSlot words.old s × LinkHas words.old (node_at words.old i).next }
    ensures { words.new ≡ beside words.old i s rect }
{
    let node = table::node_at(words, i);
    let split = Node {
        prev: i,
        kind: NodeKind::Free,
        rect,
        ..node
    };
    stores::put_node(words, s, split);
    stores::set_next(words, i, s);
    pairs::answer_link(words, node.next, s);
}

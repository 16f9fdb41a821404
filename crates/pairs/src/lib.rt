// Two new slots taken and written, one after the other; a link answered by the slot that it names.
#![tactic(auto)]

ghost use Rattle.std.specs.Prelude.{◌≡◌};
ghost use Rattle.table.specs.Table.{HasSlot};
ghost use Rattle.grants.specs.Carves.{answered_by, pair_under};
ghost use Rattle.pairs.specs.Pairs.{two, two_nodes, CanTake, LinkHas};

use geometry::{Orientation, Rectangle};
use slots::{AllocIndex, Node, NodeKind};
use steps::Head;

// Two slots taken.
#[derive(Clone, Copy)]
pub struct Two {
    pub first: AllocIndex,
    pub second: AllocIndex,
}

// Takes two new slots, one after the other.
#[tactic(auto, unfolding(crate::specs::Pairs::two_nodes))]
pub fn take_two(words: &[u32], generations: &mut [u8], head: &mut Head) -> Two
    requires { CanTake 2 words.now generations.old head.old }
    ensures { two result.first result.second head.new generations.new ≡ two_nodes words.now generations.old head.old }
{
    let first = steps::new_node(words, generations, head);
    let second = steps::new_node(words, generations, head);
    Two { first, second }
}

// Two new slots under p: a, and then b, which is Free.
#[tactic(auto, unfolding(grants::specs::Carves::pair_under))]
pub fn put_pair(
    words: &mut [u32],
    p: AllocIndex,
    o: Orientation,
    a: AllocIndex,
    kind: NodeKind,
    rect: Rectangle,
    b: AllocIndex,
    other: Rectangle,
)
    requires { HasSlot words.old a × HasSlot words.old b }
    ensures { words.new ≡ pair_under words.old p o a kind rect b other }
{
    let first = Node {
        parent: p,
        next: b,
        prev: slots::NONE,
        kind,
        orientation: o,
        rect,
    };
    let last = Node {
        parent: p,
        next: slots::NONE,
        prev: a,
        kind: NodeKind::Free,
        orientation: o,
        rect: other,
    };
    stores::put_node(words, a, first);
    stores::put_node(words, b, last);
}

// A link to j, unless it is none, is answered by j's prev.
#[tactic(auto, unfolding(grants::specs::Carves::answered_by))]
pub fn answer_link(words: &mut [u32], j: AllocIndex, s: AllocIndex)
    requires { LinkHas words.old j }
    ensures { words.new ≡ answered_by words.old j s }
{
    if !slots::is_none(j) {
        stores::set_prev(words, j, s);
    }
}

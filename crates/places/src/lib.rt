// The place of a slot, of a chain and of a Container, worked out from the members' places, with a falling count of slots left.
// Every slot that the walk comes to is held against the chain in which it was found, so that the walk trusts no link.
#![tactic(auto)]

ghost use Rattle.std.specs.Prelude.{◌<◌, length};
ghost use Rattle.sound.specs.View.{none, link_of};
ghost use Rattle.places.specs.Places.{Held, Ready, Lined, Chained, Slotted, Contained};

use geometry::Orientation;
use joins::Placed;
use slots::{AllocIndex, Node, NodeKind};

// A Container whose only child is a Container has that one's place. The last Container in such a line, with the orientation of its
// children and the count that is left for them.
#[derive(Clone, Copy)]
struct Line {
    at: AllocIndex,
    along: Orientation,
    left: u32,
}

fn line_below(words: &[u32], firsts: &[u32], i: AllocIndex, o: Orientation, left: u32) -> Line
    requires { Ready words.now firsts.now × (i.0 < length firsts.now) }
    ensures { Lined words.now firsts.now i.0 o left result.at.0 result.along result.left }
{
    let mut line = Line {
        at: i,
        along: o,
        left,
    };
    while line.left > 0 {
        let child = AllocIndex(firsts[line.at.0 as usize]);
        if !standing::lone_at(words, firsts.len(), child, line.at, line.along) {
            break;
        }
        line = Line {
            at: child,
            along: geometry::flipped(line.along),
            left: line.left - 1,
        };
    }
    line
}

// The place of slot i, with what is below it.
#[cycle(walk)]
fn place_of_slot(words: &[u32], firsts: &[u32], i: AllocIndex, node: Node, left: u32) -> Placed
    requires { Ready words.now firsts.now × Held words.now firsts.now i.0 node left }
    ensures { Slotted words.now firsts.now i.0 node.orientation left result }
{
    if node.kind != NodeKind::Container {
        return joins::own_place(node.rect, left);
    }
    let along = geometry::flipped(node.orientation);
    let p = place_of_container(words, firsts, i, along, left - 1);
    joins::stored_as(p, node.rect)
}

// The place of a Container: that of its chain of children, which run along o.
#[cycle(walk)]
fn place_of_container(
    words: &[u32],
    firsts: &[u32],
    i: AllocIndex,
    o: Orientation,
    left: u32,
) -> Placed
    requires { Ready words.now firsts.now × (i.0 < length firsts.now) }
    ensures { Contained words.now firsts.now i.0 o left result }
{
    let line = line_below(words, firsts, i, o, left);
    let first = AllocIndex(firsts[line.at.0 as usize]);
    place_of_chain(words, firsts, first, line.at, line.along, line.left)
}

// The place of the chain that starts at slot first, under parent, along o. firsts has the first child of each Container below its length.
// A call stands for each Container on the way down to a slot, but for those whose only child is a Container.
#[cycle(walk)]
pub fn place_of_chain(
    words: &[u32],
    firsts: &[u32],
    first: AllocIndex,
    parent: AllocIndex,
    o: Orientation,
    left: u32,
) -> Placed
    requires { Ready words.now firsts.now }
    ensures { Chained words.now firsts.now first.0 (link_of parent) none o left result }
{
    let mut at = first;
    let mut prev = slots::NONE;
    let mut sum = joins::nothing_yet(left);
    while !slots::is_none(at) {
        if !standing::is_held(firsts.len(), at, sum.left) {
            return joins::out_of_slots();
        }
        let node = table::node_at(words, at);
        if !standing::stands(node, parent, prev, o) {
            return joins::out_of_slots();
        }
        let p = place_of_slot(words, firsts, at, node, sum.left);
        if !p.ended {
            return p;
        }
        sum = joins::added(o, prev, sum, p);
        prev = at;
        at = node.next;
    }
    sum
}

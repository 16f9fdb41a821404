// Deallocate in the slot table: an only child gives its rectangle up, and the climb.
#![tactic(auto)]

ghost use Rattle.std.specs.Prelude.{◌≡◌};
ghost use Rattle.table.specs.Table.{node_at, HasSlot};
ghost use Rattle.frees.specs.Climbs.{level, is_only_child, given_up, climbed};
ghost use Rattle.climbs.specs.Climbable.{Climbing};

use absorbing::Rung;
use slots::{AllocIndex, NodeKind};

// Whether slot i has neither prev nor next, and a parent.
#[tactic(auto, unfolding(frees::specs::Climbs::is_only_child))]
fn is_only_child(words: &[u32], i: AllocIndex) -> bool
    requires { HasSlot words.now i }
    ensures { result ≡ is_only_child words.now i }
{
    let node = table::node_at(words, i);
    slots::is_none(node.prev) && slots::is_none(node.next) && !slots::is_none(node.parent)
}

// A child gives its rectangle to its parent, which turns Free, and becomes spare.
#[tactic(auto, unfolding(frees::specs::Climbs::given_up))]
fn give_up(words: &mut [u32], spare: AllocIndex, child: AllocIndex) -> Rung
    requires { HasSlot words.old child × HasSlot words.old (node_at words.old child).parent }
    ensures { level words.new result.spare result.at ≡ given_up (level words.old spare child) }
{
    let parent = table::node_at(words, child).parent;
    stores::copy_rect(words, child, parent);
    stores::set_kind(words, parent, NodeKind::Free);
    steps::mark_node_unused(words, spare, child);
    Rung {
        spare: child,
        at: parent,
    }
}

// The climb from slot i, of at most `left` levels: absorb a Free next; be absorbed by a Free prev; an only child gives up, and the climb
// starts again at the parent.
pub fn climb(words: &mut [u32], spare: AllocIndex, i: AllocIndex, left: u32) -> Rung
    requires { Climbing left (level words.old spare i) }
    ensures { level words.new result.spare result.at ≡ climbed left (level words.old spare i) }
{
    if left == 0 {
        return Rung { spare, at: i };
    }
    let wider = absorbing::absorb_next(words, spare, i);
    let widest = absorbing::absorb_into_prev(words, wider.spare, wider.at);
    if is_only_child(words, widest.at) {
        let above = give_up(words, widest.spare, widest.at);
        let end = climb(words, above.spare, above.at, left - 1);
        // Field by field, for the machine: handed over whole it is stored as two words and read as one double word.
        return Rung {
            spare: end.spare,
            at: end.at,
        };
    }
    Rung {
        spare: widest.spare,
        at: widest.at,
    }
}

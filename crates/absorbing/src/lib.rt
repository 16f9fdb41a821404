// Deallocate in the slot table: two Free siblings become one.
#![tactic(auto)]

ghost use Rattle.std.specs.Prelude.{◌≡◌};
ghost use Rattle.pairs.specs.Pairs.{LinkHas};
ghost use Rattle.frees.specs.Climbs.{level, absorbed, is_free, next_absorbed, absorbed_by_prev};
ghost use Rattle.absorbing.specs.Absorbable.{Mergeable, NextReady, PrevReady};

use geometry::Rectangle;
use slots::{AllocIndex, NodeKind};

// Where a climb stands: the head of the spare chain, and the Free slot that it has come to.
#[derive(Clone, Copy)]
pub struct Rung {
    pub spare: AllocIndex,
    pub at: AllocIndex,
}

// Whether a link names a Free slot.
fn is_free(words: &[u32], j: AllocIndex) -> bool
    requires { LinkHas words.now j }
    ensures { result ≡ is_free words.now j }
{
    !slots::is_none(j) && table::node_at(words, j).kind == NodeKind::Free
}

// Slot a absorbs b, its next, which becomes the head of the spare chain that started at `spare`.
#[tactic(auto, unfolding(frees::specs::Climbs::absorbed))]
fn merge_siblings(words: &mut [u32], spare: AllocIndex, a: AllocIndex, b: AllocIndex)
    requires { Mergeable words.old a b }
    ensures { level words.new b a ≡ absorbed words.old spare a b }
{
    let node = table::node_at(words, a);
    let other = table::node_at(words, b);
    let whole = Rectangle {
        x1: other.rect.x1,
        y1: other.rect.y1,
        ..node.rect
    };
    stores::set_rect(words, a, whole);
    stores::set_next(words, a, other.next);
    pairs::answer_link(words, other.next, a);
    steps::mark_node_unused(words, spare, b);
}

// Slot i absorbs a Free next.
#[tactic(auto, unfolding(frees::specs::Climbs::next_absorbed))]
pub fn absorb_next(words: &mut [u32], spare: AllocIndex, i: AllocIndex) -> Rung
    requires { NextReady words.old i }
    ensures { level words.new result.spare result.at ≡ next_absorbed (level words.old spare i) }
{
    let next = table::node_at(words, i).next;
    if is_free(words, next) {
        merge_siblings(words, spare, i, next);
        return Rung { spare: next, at: i };
    }
    Rung { spare, at: i }
}

// Slot i is absorbed by a Free prev.
#[tactic(auto, unfolding(frees::specs::Climbs::absorbed_by_prev))]
pub fn absorb_into_prev(words: &mut [u32], spare: AllocIndex, i: AllocIndex) -> Rung
    requires { PrevReady words.old i }
    ensures { level words.new result.spare result.at ≡ absorbed_by_prev (level words.old spare i) }
{
    let prev = table::node_at(words, i).prev;
    if is_free(words, prev) {
        merge_siblings(words, spare, prev, i);
        return Rung { spare: i, at: prev };
    }
    Rung { spare, at: i }
}

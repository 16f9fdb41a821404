// The head, and the steps that take a slot into use and out of it.
#![tactic(auto)]

ghost use Rattle.std.specs.Prelude.{◌≡◌};
ghost use Rattle.table.specs.Table.{HasSlot};
ghost use Rattle.steps.specs.Spares.{fresh, new_node, marked_unused, HasSpare};

use buckets::Lengths;
use geometry::{AllocatorOptions, Size};
use slots::{AllocIndex, NodeKind};

// What is kept beside the tables: the sheet and its options, the first slot of the top chain, the first
// spare slot, how many slots there are, and the lengths of the free lists.
#[derive(Clone, Copy, PartialEq, Eq)]
pub struct Head {
    pub sheet: Size,
    pub options: AllocatorOptions,
    pub root: AllocIndex,
    pub spare: AllocIndex,
    pub count: u32,
    pub lengths: Lengths,
}

// Takes a slot into use: the first spare one, its generation stepped, else slot n with generation 0.
#[tactic(auto, unfolding(crate::specs::Spares::new_node))]
pub fn new_node(words: &[u32], generations: &mut [u8], head: &mut Head) -> AllocIndex
    requires { HasSpare words.now generations.old head.old }
    ensures { fresh result head.new generations.new ≡ new_node words.now generations.old head.old }
{
    let first = head.spare;
    let n = head.count;
    if first.0 < n {
        let at = first.0 as usize;
        generations[at] = generations[at].wrapping_add(1);
        head.spare = table::node_at(words, first).next;
        return first;
    }
    generations[n as usize] = 0;
    head.count = n + 1;
    AllocIndex(n)
}

// Slot i becomes spare: its kind and next are written, so that it is the head of the chain that started at `spare`.
#[tactic(auto, unfolding(crate::specs::Spares::marked_unused))]
pub fn mark_node_unused(words: &mut [u32], spare: AllocIndex, i: AllocIndex)
    requires { HasSlot words.old i }
    ensures { words.new ≡ marked_unused words.old spare i }
{
    stores::set_kind(words, i, NodeKind::Unused);
    stores::set_next(words, i, spare);
}

// The steps of a grow on the tables: a Free slot gets another rectangle, or a new Free slot follows the last of the top chain.
#![tactic(auto)]

ghost use Rattle.std.specs.Prelude.{◌≡◌, List, ℕ};
ghost use Rattle.table.specs.Table.{HasSlot};
ghost use Rattle.buckets.specs.FreeLists.{lists};
ghost use Rattle.steps.specs.Spares.{HasSpare};
ghost use Rattle.steps.specs.State.{state};
ghost use Rattle.grows.specs.Grows.{stretched, appended_to};
ghost use Rattle.grown.specs.Appending.{linked_after};
ghost use Rattle.growing.specs.Ready.{StepReady};

use geometry::{Orientation, Rectangle};
use slots::{AllocIndex, Node, NodeKind};
use steps::Head;

// The Free slot i gets another rectangle, and its entry moves, whatever the generations.
pub fn stretch(
    words: &mut [u32],
    small: &mut [u32],
    medium: &mut [u32],
    large: &mut [u32],
    head: Head,
    i: AllocIndex,
    rect: Rectangle,
) -> Head
    requires { StepReady words.old (lists head.lengths small.old medium.old large.old) i rect }
    ensures { (g : List ℕ) → state result words.new g small.new medium.new large.new
        ≡ stretched (state head words.old g small.old medium.old large.old) i rect }
{
    let setup = geometry::setup_of(head.sheet, head.options);
    stores::set_rect(words, i, rect);
    let lengths = moves::move_entry(words, small, medium, large, head.lengths, setup, i, rect);
    Head { lengths, ..head }
}

// Links the new Free slot f after slot i, the last of the top chain.
fn link_after(words: &mut [u32], i: AllocIndex, f: AllocIndex, o: Orientation, rect: Rectangle)
    requires { HasSlot words.old i × HasSlot words.old f }
    ensures { words.new ≡ linked_after words.old i f o rect }
{
    let tail = Node {
        parent: slots::NONE,
        next: slots::NONE,
        prev: i,
        kind: NodeKind::Free,
        orientation: o,
        rect,
    };
    stores::set_next(words, i, f);
    stores::put_node(words, f, tail);
}

// A new Free slot follows slot i, the last of the top chain.
pub fn append_to(
    words: &mut [u32],
    generations: &mut [u8],
    small: &mut [u32],
    medium: &mut [u32],
    large: &mut [u32],
    head: Head,
    i: AllocIndex,
    o: Orientation,
    rect: Rectangle,
) -> Head
    requires { HasSpare words.old generations.old head × StepReady words.old (lists head.lengths small.old medium.old large.old) i rect }
    ensures { state result words.new generations.new small.new medium.new large.new
        ≡ appended_to (state head words.old generations.old small.old medium.old large.old) i o rect }
{
    let setup = geometry::setup_of(head.sheet, head.options);
    let mut after = head;
    let new = steps::new_node(words, generations, &mut after);
    link_after(words, i, new, o, rect);
    let lengths = entries::add_free_rect(
        words,
        small,
        medium,
        large,
        head.lengths,
        setup,
        new,
        rect,
    );
    Head { lengths, ..after }
}

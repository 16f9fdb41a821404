// What is stored in the slot table: a field of a slot, or all of it.
#![tactic(auto)]

ghost use Rattle.std.specs.Prelude.{◌≡◌, ◌<◌};
ghost use Rattle.table.specs.Table.{HasSlot, node_at};
ghost use Rattle.stores.specs.Stores.{set_word, stored, to_parent, toNext, toPrev, to_kind, to_rect, to_node};

use geometry::Rectangle;
use slots::{AllocIndex, Node, NodeKind};

// Stores word f of slot i.
#[tactic(auto, unfolding(crate::specs::Stores::set_word))]
fn put_word(words: &mut [u32], i: AllocIndex, f: usize, v: u32)
    requires { HasSlot words.old i × (f < 8) }
    ensures { words.new ≡ set_word words.old i f v }
{
    words[i.0 as usize * 8 + f] = v;
}

// Stores a whole node at slot i.
#[tactic(auto, unfolding(crate::specs::Stores::stored, crate::specs::Stores::stored_rect))]
pub fn put_node(words: &mut [u32], i: AllocIndex, node: Node)
    requires { HasSlot words.old i }
    ensures { words.new ≡ stored words.old i (to_node node) }
{
    put_word(words, i, 0, node.parent.0);
    put_word(words, i, 1, node.next.0);
    put_word(words, i, 2, node.prev.0);
    put_word(words, i, 3, slots::code_of(node.kind, node.orientation));
    set_rect(words, i, node.rect);
}

#[tactic(auto, unfolding(crate::specs::Stores::stored))]
pub fn set_parent(words: &mut [u32], i: AllocIndex, to: AllocIndex)
    requires { HasSlot words.old i }
    ensures { words.new ≡ stored words.old i (to_parent to) }
{
    put_word(words, i, 0, to.0);
}

#[tactic(auto, unfolding(crate::specs::Stores::stored))]
pub fn set_next(words: &mut [u32], i: AllocIndex, to: AllocIndex)
    requires { HasSlot words.old i }
    ensures { words.new ≡ stored words.old i (toNext to) }
{
    put_word(words, i, 1, to.0);
}

#[tactic(auto, unfolding(crate::specs::Stores::stored))]
pub fn set_prev(words: &mut [u32], i: AllocIndex, to: AllocIndex)
    requires { HasSlot words.old i }
    ensures { words.new ≡ stored words.old i (toPrev to) }
{
    put_word(words, i, 2, to.0);
}

#[tactic(auto, unfolding(crate::specs::Stores::stored))]
pub fn set_kind(words: &mut [u32], i: AllocIndex, kind: NodeKind)
    requires { HasSlot words.old i }
    ensures { words.new ≡ stored words.old i (to_kind kind) }
{
    let code = table::word_at(words, i, 3);
    let kept = slots::orientation_of(code);
    put_word(words, i, 3, slots::code_of(kind, kept));
}

#[tactic(auto, unfolding(crate::specs::Stores::stored, crate::specs::Stores::stored_rect))]
pub fn set_rect(words: &mut [u32], i: AllocIndex, rect: Rectangle)
    requires { HasSlot words.old i }
    ensures { words.new ≡ stored words.old i (to_rect rect) }
{
    put_word(words, i, 4, rect.x0);
    put_word(words, i, 5, rect.y0);
    put_word(words, i, 6, rect.x1);
    put_word(words, i, 7, rect.y1);
}

// Copies the rectangle of slot i to slot j, corner by corner.
pub fn copy_rect(words: &mut [u32], i: AllocIndex, j: AllocIndex)
    requires { HasSlot words.old i × HasSlot words.old j }
    ensures { words.new ≡ stored words.old j (to_rect (node_at words.old i).rect) }
{
    let x0 = table::word_at(words, i, 4);
    let y0 = table::word_at(words, i, 5);
    put_word(words, j, 4, x0);
    put_word(words, j, 5, y0);
    let x1 = table::word_at(words, i, 6);
    let y1 = table::word_at(words, i, 7);
    put_word(words, j, 6, x1);
    put_word(words, j, 7, y1);
}

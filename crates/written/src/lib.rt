// How an entry of a listing is written.
#![tactic(auto)]

ghost use Rattle.std.specs.Prelude.{◌≡◌, ◌+◌, ◌≤◌, length};
ghost use Rattle.std.proofs.lemmas.List.Edits.{sets};
ghost use Rattle.lists.specs.Lists.{bag};
ghost use Rattle.written.specs.Entries.{corners, entry_of, entry_at};
ghost use Rattle.written.specs.Fills.{entry_words, wrote, Enterable};

use geometry::Rectangle;
use slots::{AllocIndex, NodeKind};
use tickets::AllocId;

// How many words an entry of a kind's listing has.
pub fn entry_words(kind: NodeKind) -> usize
    ensures { (result ≡ entry_words kind) × (result ≤ 5) }
{
    if kind == NodeKind::Alloc { 5 } else { 4 }
}

// Writes four corners from a place on.
fn put_corners(out: &mut [u32], at: usize, rect: Rectangle)
    requires { at + 4 ≤ length out.old }
    ensures { out.new ≡ sets out.old at (corners rect) }
{
    out[at] = rect.x0;
    out[at + 1] = rect.y0;
    out[at + 2] = rect.x1;
    out[at + 3] = rect.y1;
}

// Writes an entry of a kind's listing from a place on, and answers the next place.
fn put_entry(out: &mut [u32], at: usize, kind: NodeKind, id: AllocId, rect: Rectangle) -> usize
    requires { at + entry_words kind ≤ length out.old }
    ensures { bag out.new result ≡ wrote (bag out.old at) (entry_of kind id rect) }
{
    if kind == NodeKind::Alloc {
        out[at] = id.0;
        put_corners(out, at + 1, rect);
        return at + 5;
    }
    put_corners(out, at, rect);
    at + 4
}

// Enters slot i, if it is of this kind, from a place of a listing on, and answers the next place.
pub fn list_slot(
    words: &[u32],
    generations: &[u8],
    out: &mut [u32],
    kind: NodeKind,
    i: AllocIndex,
    at: usize,
) -> usize
    requires { Enterable words.now generations.now kind i.0 (bag out.old at) }
    ensures { bag out.new result ≡ wrote (bag out.old at) (entry_at words.now generations.now kind i.0) }
{
    let node = table::node_at(words, i);
    if node.kind != kind {
        return at;
    }
    let id = tickets::alloc_id(i, generations[i.0 as usize]);
    put_entry(out, at, kind, id, node.rect)
}

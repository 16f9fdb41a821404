// The tests that the check makes of each slot, and the scan for the lowest that fails one.
#![tactic(auto)]

ghost use Rattle.std.specs.Prelude.{◌≡◌, Bool, ℕ, ◌≤◌, ◌<◌, length};
ghost use Rattle.table.specs.Table.{HasSlot};
ghost use Rattle.links.specs.Links.{Table};
ghost use Rattle.scans.specs.Tests.{filled_at, not_last_at, settled_at, Computes};
ghost use Rattle.slots.specs.Slots.{slot};
ghost use Rattle.below.specs.Below.{first_bad};

use geometry::Setup;
pub use linked::links_at;
pub use marks::listed_at;
pub use merged::merged_at;
use slots::{AllocIndex, NodeKind};

// Rule 5 of slot i alone: the rectangle of an Alloc or Free slot is never empty.
#[tactic(auto, unfolding(crate::specs::Tests::filled_at))]
pub fn filled_at(words: &[u32], i: AllocIndex) -> bool
    requires { HasSlot words.now i }
    ensures { result ≡ filled_at words.now i.0 }
{
    let node = table::node_at(words, i);
    match node.kind {
        NodeKind::Container | NodeKind::Unused => true,
        NodeKind::Alloc | NodeKind::Free => !geometry::is_empty(node.rect),
    }
}

// Slot i is not the last of the top chain.
#[tactic(auto, unfolding(crate::specs::Tests::not_last_at))]
pub fn not_last_at(words: &[u32], n: u32, i: AllocIndex) -> bool
    requires { Table words.now n × (i.0 < n) }
    ensures { result ≡ not_last_at words.now n i.0 }
{
    if !linked::is_live(words, n, i) {
        return true;
    }
    let node = table::node_at(words, i);
    !slots::is_none(node.parent) || !slots::is_none(node.next)
}

// Rules 4 and 6 of slot i.
#[tactic(auto, unfolding(crate::specs::Tests::settled_at))]
pub fn settled_at(words: &[u32], marks: &[u8], n: u32, setup: Setup, i: AllocIndex) -> bool
    requires { Table words.now n × (12288 ≤ length marks.now) × (i.0 < n) }
    ensures { result ≡ settled_at words.now marks.now n setup i.0 }
{
    merged_at(words, n, i) && listed_at(words, marks, setup, i)
}

// The lowest of the first n slots that fails a test, if there is one.
pub fn lowest<F: Fn(AllocIndex) -> bool>(n: u32, holds: F) -> Option<u32>
    requires { (i : ℕ) → i < n → F.pre holds (slot i) }
    ensures { (p : ℕ → Bool) → Computes (F.post holds) n p → result ≡ first_bad p n }
{
    for i in 0..n {
        if !holds(AllocIndex(i)) {
            return Some(i);
        }
    }
    None
}

// How many slots are of a kind, and how many are spare.
#![tactic(auto)]

ghost use Rattle.std.specs.Prelude.{◌≡◌, ◌*◌, ◌≤◌, length};
ghost use Rattle.steps.specs.Spares.{count_kind, unused_below, spare_slots};

use slots::{AllocIndex, NodeKind};

// How many of the first n slots are of this kind.
#[tactic(auto, using(steps::specs::SpareLaws::count_more), unfolding(steps::specs::Spares::count_kind, steps::specs::Spares::of_kind))]
pub fn count_kind(words: &[u32], kind: NodeKind, n: u32) -> u32
    requires { n * 8 ≤ length words.now }
    ensures { (result ≡ count_kind words.now kind n) × (result ≤ n) }
{
    let mut count = 0;
    for i in 0..n {
        if table::node_at(words, AllocIndex(i)).kind == kind {
            count += 1;
        }
    }
    count
}

// How many of the first n slots are Unused.
pub fn unused_below(words: &[u32], n: u32) -> u32
    requires { n * 8 ≤ length words.now }
    ensures { (result ≡ unused_below words.now n) × (result ≤ n) }
{
    count_kind(words, NodeKind::Unused, n)
}

// How many slots can be taken into use, of total in the table: those past n, and the Unused ones.
pub fn spare_slots(words: &[u32], total: u32, n: u32) -> u32
    requires { (n ≤ total) × (total * 8 ≤ length words.now) }
    ensures { result ≡ spare_slots words.now total n }
{
    total - n + unused_below(words, n)
}

// The sweep of a full list, and the push after it.
#![tactic(auto)]

ghost use Rattle.std.specs.Prelude.{◌≡◌, ◌≤◌, ◌<◌, length, get_or};
ghost use Rattle.lists.specs.Lists.{bag, appended, Entries};
ghost use Rattle.pushes.specs.Pushes.{swept, Pushable};
ghost use Rattle.pushes.specs.Sweeps.{is_kept, sweeping, sweep_step, sweep_to, Sweepable};

use slots::{AllocIndex, NodeKind};

// Whether a sweep keeps entry x: a Free slot other than the pushed one v, not marked as seen.
#[tactic(auto, unfolding(crate::specs::Sweeps::is_kept))]
fn is_kept(words: &[u32], marks: &[u8], x: u32, v: u32) -> bool
    requires { Sweepable words.now marks.now x }
    ensures { result ≡ is_kept words.now v marks.now x }
{
    x != v && marks[x as usize] == 0 && table::node_at(words, AllocIndex(x)).kind == NodeKind::Free
}

// Looks at entry i of a sweep: marks it as seen, and moves it behind the kept ones if it is kept.
#[tactic(auto, unfolding(crate::specs::Sweeps::sweep_step))]
fn sweep_entry(
    words: &[u32],
    list: &mut [u32],
    marks: &mut [u8],
    i: usize,
    kept: usize,
    v: u32,
) -> usize
    requires { (kept ≤ i) × (i < length list.old) × Sweepable words.now marks.old (get_or list.old i 0) }
    ensures { sweeping list.new marks.new result ≡ sweep_step words.now v i (sweeping list.old marks.old kept) }
{
    let x = list[i];
    let keep = is_kept(words, marks, x, v);
    marks[x as usize] = 1;
    if keep {
        list[kept] = x;
        return kept + 1;
    }
    kept
}

fn sweep_marked(words: &[u32], list: &mut [u32], marks: &mut [u8], len: usize, v: u32) -> usize
    requires { Entries words.now (bag list.old len) × (length words.now ≤ 32768) × (length marks.old ≡ 4096) }
    ensures { sweeping list.new marks.new result ≡ sweep_to words.now v len (sweeping list.old marks.old 0) }
{
    let mut kept = 0;
    for i in 0..len {
        kept = sweep_entry(words, list, marks, i, kept, v);
    }
    kept
}

// Keeps, in order, the first entries of Free slots other than the pushed one v.
fn sweep(words: &[u32], list: &mut [u32], len: usize, v: u32) -> usize
    requires { Entries words.now (bag list.old len) × (length words.now ≤ 32768) }
    ensures { bag list.new result ≡ swept words.now v (bag list.old len) }
{
    let mut marks = [0u8; 4096];
    sweep_marked(words, list, &mut marks, len, v)
}

// Sweeps a list, which then has room, and appends v.
pub fn sweep_and_append(words: &[u32], list: &mut [u32], len: usize, v: u32) -> usize
    requires { Pushable words.now v (bag list.old len) }
    ensures { bag list.new result ≡ appended (swept words.now v (bag list.old len)) v }
{
    let less = sweep(words, list, len, v);
    lists::append(list, less, v)
}

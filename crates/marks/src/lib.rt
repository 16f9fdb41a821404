// The marks of rule 6: which slots have an entry in which list, and the test of one slot.
#![tactic(auto)]

ghost use Rattle.std.specs.Prelude.{◌≡◌, ◌-◌, ◌≤◌, ◌<◌, length};
ghost use Rattle.table.specs.Table.{HasSlot};
ghost use Rattle.lists.specs.Lists.{bag, Each};
ghost use Rattle.buckets.specs.FreeLists.{lists};
ghost use Rattle.marks.specs.Marks.{marks_start, listed_at, marks_to, marks_from, ListsReady};

use buckets::Lengths;
use geometry::{Bucket, Setup};
use slots::{AllocIndex, NodeKind};

// A side of a rectangle, 0 where its corners are out of order.
fn side(from: u32, to: u32) -> u32
    ensures { result ≡ to - from }
{
    to.saturating_sub(from)
}

// Where a bucket's marks start: each has 4,096, one after the other.
#[tactic(auto, unfolding(crate::specs::Marks::marks_start))]
fn marks_start(b: Bucket) -> usize
    ensures { (result ≡ marks_start b) × (result ≤ 8192) }
{
    match b {
        Bucket::Small => 0,
        Bucket::Medium => 4096,
        Bucket::Large => 8192,
    }
}

// Rule 6 of slot i: a Free slot has its own bucket's mark.
#[tactic(auto, unfolding(crate::specs::Marks::listed_at))]
pub fn listed_at(words: &[u32], marks: &[u8], setup: Setup, i: AllocIndex) -> bool
    requires { HasSlot words.now i × (12288 ≤ length marks.now) × (i.0 < 4096) }
    ensures { result ≡ listed_at words.now marks.now setup i.0 }
{
    let node = table::node_at(words, i);
    if node.kind != NodeKind::Free {
        return true;
    }
    let rect = node.rect;
    let own = geometry::free_list_for_size(
        setup.small,
        setup.large,
        side(rect.x0, rect.x1),
        side(rect.y0, rect.y1),
    );
    marks[marks_start(own) + i.0 as usize] != 0
}

// Marks every slot that has an entry in this bucket's list.
fn mark_list(marks: &mut [u8], bucket: Bucket, list: &[u32], len: usize)
    requires { (12288 ≤ length marks.old) × (len ≤ length list.now) × Each (λ x. x < 4096) (bag list.now len) }
    ensures { marks.new ≡ marks_to (marks_start bucket) list.now len marks.old }
{
    let start = marks_start(bucket);
    for x in &list[..len] {
        marks[start + *x as usize] = 1;
    }
}

// Marks, for each bucket, every slot that has an entry in its list.
#[tactic(auto, unfolding(crate::specs::Marks::marks_from))]
pub fn mark_lists(marks: &mut [u8], small: &[u32], medium: &[u32], large: &[u32], lengths: Lengths)
    requires { ListsReady (lists lengths small.now medium.now large.now) × (12288 ≤ length marks.old) }
    ensures { marks.new
        ≡ marks_from (lists lengths small.now medium.now large.now) marks.old }
{
    mark_list(marks, Bucket::Small, small, lengths.small);
    mark_list(marks, Bucket::Medium, medium, lengths.medium);
    mark_list(marks, Bucket::Large, large, lengths.large);
}

// The three free lists, one for each bucket.
#![tactic(auto)]

ghost use Rattle.std.specs.Prelude.{◌≡◌, ◌<◌};
ghost use Rattle.pushes.specs.Pushes.{Pushable};
ghost use Rattle.buckets.specs.FreeLists.{lists, list_of, pushed_to, removed_from, first_in, entry_of, forgotten, Within};

use geometry::Bucket;

// How many places of each bucket's table are filled.
#[derive(Clone, Copy, PartialEq, Eq)]
pub struct Lengths {
    pub small: usize,
    pub medium: usize,
    pub large: usize,
}

// Pushes v onto a bucket's list: appends it; a full list is swept first, and then has room.
pub fn push_to(
    words: &[u32],
    small: &mut [u32],
    medium: &mut [u32],
    large: &mut [u32],
    lengths: Lengths,
    bucket: Bucket,
    v: u32,
) -> Lengths
    requires { Pushable words.now v (list_of bucket (lists lengths small.old medium.old large.old)) }
    ensures { lists result small.new medium.new large.new ≡ pushed_to words.now v bucket (lists lengths small.old medium.old large.old) }
{
    let mut after = lengths;
    match bucket {
        Bucket::Small => {
            if lengths.small < small.len() {
                after.small = lists::append(small, lengths.small, v);
            } else {
                after.small = pushes::sweep_and_append(words, small, lengths.small, v);
            }
        }
        Bucket::Medium => {
            if lengths.medium < medium.len() {
                after.medium = lists::append(medium, lengths.medium, v);
            } else {
                after.medium = pushes::sweep_and_append(words, medium, lengths.medium, v);
            }
        }
        Bucket::Large => {
            if lengths.large < large.len() {
                after.large = lists::append(large, lengths.large, v);
            } else {
                after.large = pushes::sweep_and_append(words, large, lengths.large, v);
            }
        }
    }
    after
}

// Takes entry k of a bucket's list out.
pub fn remove_from(
    small: &mut [u32],
    medium: &mut [u32],
    large: &mut [u32],
    lengths: Lengths,
    bucket: Bucket,
    k: usize,
) -> Lengths
    requires { Within (lists lengths small.old medium.old large.old) × (k < (list_of bucket (lists lengths small.old medium.old large.old)).len) }
    ensures { lists result small.new medium.new large.new ≡ removed_from bucket k (lists lengths small.old medium.old large.old) }
{
    let mut after = lengths;
    match bucket {
        Bucket::Small => {
            after.small = lists::swap_remove(small, lengths.small, k);
        }
        Bucket::Medium => {
            after.medium = lists::swap_remove(medium, lengths.medium, k);
        }
        Bucket::Large => {
            after.large = lists::swap_remove(large, lengths.large, k);
        }
    }
    after
}

// The first place of a bucket's list that holds v.
fn first_in(
    small: &[u32],
    medium: &[u32],
    large: &[u32],
    lengths: Lengths,
    bucket: Bucket,
    v: u32,
) -> Option<usize>
    requires { Within (lists lengths small.now medium.now large.now) }
    ensures { result ≡ first_in v bucket (lists lengths small.now medium.now large.now) }
{
    match bucket {
        Bucket::Small => lists::first_of(small, lengths.small, v),
        Bucket::Medium => lists::first_of(medium, lengths.medium, v),
        Bucket::Large => lists::first_of(large, lengths.large, v),
    }
}

// An entry of a slot: its bucket, and its place in that bucket's list.
#[derive(Clone, Copy)]
struct Entry {
    bucket: Bucket,
    place: usize,
}

// The first entry of v, the buckets looked at from small to large.
#[tactic(auto, unfolding(crate::specs::FreeLists::entry_of))]
fn entry_of(small: &[u32], medium: &[u32], large: &[u32], lengths: Lengths, v: u32) -> Option<Entry>
    requires { Within (lists lengths small.now medium.now large.now) }
    ensures { result ≡ entry_of v (lists lengths small.now medium.now large.now) }
{
    for bucket in [Bucket::Small, Bucket::Medium, Bucket::Large] {
        if let Some(place) = first_in(small, medium, large, lengths, bucket, v) {
            return Some(Entry { bucket, place });
        }
    }
    None
}

// Takes the first occurrence of v out, the buckets looked at from small to large.
#[tactic(auto, unfolding(crate::specs::FreeLists::forgotten))]
pub fn forget(
    small: &mut [u32],
    medium: &mut [u32],
    large: &mut [u32],
    lengths: Lengths,
    v: u32,
) -> Lengths
    requires { Within (lists lengths small.old medium.old large.old) }
    ensures { lists result small.new medium.new large.new ≡ forgotten v (lists lengths small.old medium.old large.old) }
{
    match entry_of(small, medium, large, lengths, v) {
        Some(entry) => remove_from(small, medium, large, lengths, entry.bucket, entry.place),
        None => lengths,
    }
}

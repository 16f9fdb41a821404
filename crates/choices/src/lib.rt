// The choice in one bucket: what the scan of its list answers, and whether the search ends there.
#![tactic(auto)]

ghost use Rattle.std.specs.Prelude.{◌≡◌};
ghost use Rattle.lists.specs.Lists.{bag};
ghost use Rattle.buckets.specs.FreeLists.{lists};
ghost use Rattle.fits.specs.Scans.{BestWithin, Ready};
ghost use Rattle.choices.specs.Choices.{chosen_of, scan_answer, scan_bucket, searched, search_one, is_large, higher, settled, Searchable};

use buckets::Lengths;
use fits::{Best, Query};
use geometry::Bucket;
use slots::AllocIndex;

// The slot that was chosen, with its bucket and its place in that bucket's list.
#[derive(Clone, Copy)]
pub struct Chosen {
    pub slot: AllocIndex,
    pub bucket: Bucket,
    pub place: usize,
}

// What a search answers, with the lengths of the lists as it left them. The chosen entry is still in its list.
#[derive(Clone, Copy)]
pub struct Search {
    pub chosen: Option<Chosen>,
    pub lengths: Lengths,
}

// The entry at the best candidate's place, as the answer.
fn chosen_of(list: &[u32], best: Best, place: usize, bucket: Bucket) -> Option<Chosen>
    requires { BestWithin best place list.now }
    ensures { result ≡ chosen_of bucket best place list.now }
{
    match best {
        Best::Found => Some(Chosen {
            slot: AllocIndex(list[place]),
            bucket,
            place,
        }),
        Best::Nothing => None,
    }
}

// What the scan of one list answers, and the list's length after it.
#[derive(Clone, Copy)]
struct Answer {
    chosen: Option<Chosen>,
    len: usize,
}

// A function of its own in the machine too: put into its three callers its loop has too few registers.
#[inline(never)]
#[tactic(auto, unfolding(crate::specs::Choices::scan_bucket))]
fn scan_bucket(words: &[u32], list: &mut [u32], len: usize, bucket: Bucket, q: Query) -> Answer
    requires { Ready words.now (bag list.old len) }
    ensures { scan_answer result.chosen (bag list.new result.len) ≡ scan_bucket words.now q bucket (bag list.old len) }
{
    let s = fits::scan_list(words, list, len, q);
    Answer {
        chosen: chosen_of(list, s.best, s.place, bucket),
        len: s.len,
    }
}

// Searches one bucket's list.
pub fn search_one(
    words: &[u32],
    small: &mut [u32],
    medium: &mut [u32],
    large: &mut [u32],
    lengths: Lengths,
    bucket: Bucket,
    q: Query,
) -> Search
    requires { Searchable words.now (lists lengths small.old medium.old large.old) }
    ensures { searched result.chosen (lists result.lengths small.new medium.new large.new)
        ≡ search_one words.now q bucket (lists lengths small.old medium.old large.old) }
{
    let mut after = lengths;
    match bucket {
        Bucket::Small => {
            let a = scan_bucket(words, small, lengths.small, bucket, q);
            after.small = a.len;
            let chosen = a.chosen;
            Search {
                chosen: chosen,
                lengths: after,
            }
        }
        Bucket::Medium => {
            let a = scan_bucket(words, medium, lengths.medium, bucket, q);
            after.medium = a.len;
            let chosen = a.chosen;
            Search {
                chosen: chosen,
                lengths: after,
            }
        }
        Bucket::Large => {
            let a = scan_bucket(words, large, lengths.large, bucket, q);
            after.large = a.len;
            let chosen = a.chosen;
            Search {
                chosen: chosen,
                lengths: after,
            }
        }
    }
}

pub fn higher(bucket: Bucket) -> Bucket
    ensures { result ≡ higher bucket }
{
    match bucket {
        Bucket::Small => Bucket::Medium,
        Bucket::Medium | Bucket::Large => Bucket::Large,
    }
}

// Whether the search ends here: a candidate was found, or no bucket is above.
pub fn is_settled(chosen: Option<Chosen>, bucket: Bucket) -> bool
    ensures { result ≡ settled chosen bucket }
{
    chosen.is_some() || is_large(bucket)
}

pub fn is_large(bucket: Bucket) -> bool
    ensures { result ≡ is_large bucket }
{
    bucket == Bucket::Large
}

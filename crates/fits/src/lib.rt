// The scan of one free list for the rectangle that takes a request best.
#![tactic(auto)]

ghost use Rattle.std.specs.Prelude.{◌≡◌, ◌≤◌, ◌<◌};
ghost use Rattle.lists.specs.Lists.{bag};
ghost use Rattle.fits.specs.Scans.{opening, shifted_score, beats, weighed, Open, scanned, look, scan_all, Ready};

use geometry::Rectangle;
use slots::{AllocIndex, NodeKind};

// What is looked for: a rectangle at least this wide and tall. The greatest lesser spare side wins where worst is set, else the least.
#[derive(Clone, Copy)]
pub struct Query {
    pub width: u32,
    pub height: u32,
    pub worst: bool,
}

// Whether there is a candidate so far. The best one's place stands beside it, in the scan.
#[derive(Clone, Copy)]
pub enum Best {
    Found,
    Nothing,
}

// A scan of one list: its length, the next place to look at, and the best candidate with its place and its score.
#[derive(Clone, Copy)]
pub struct Scan {
    pub len: usize,
    pub at: usize,
    pub best: Best,
    pub place: usize,
    pub score: u64,
}

// One more than the greatest u32.
const SHIFT: u64 = 4294967296;

// The score, shifted up. It stays below the shift where a side is too short, so that one test asks of both sides.
#[tactic(auto, unfolding(crate::specs::Scans::shifted_score, geometry::specs::Choice::lesser), using(geometry::specs::Choice::lesser_first))]
fn shifted_score(r: Rectangle, q: Query) -> u64
    requires { (r.x0 ≤ r.x1) × (r.y0 ≤ r.y1) }
    ensures { (result ≡ shifted_score r q) × (result < 8589934592) }
{
    let wide = u64::from(r.x1 - r.x0) + SHIFT - u64::from(q.width);
    let tall = u64::from(r.y1 - r.y0) + SHIFT - u64::from(q.height);
    wide.min(tall)
}

// The score of a scan with no candidate yet, which any candidate beats.
#[tactic(auto, unfolding(crate::specs::Scans::opening))]
fn opening(worst: bool) -> u64
    ensures { result ≡ opening worst }
{
    if worst { 0 } else { SHIFT }
}

// Whether a shifted score fits and beats the best so far. Of equals the first stays.
#[tactic(auto, unfolding(crate::specs::Scans::beats))]
fn beats(score: u64, shifted: u64, worst: bool) -> bool
    ensures { result ≡ beats score shifted worst }
{
    // Values and no branches, for the machine: where the greatest wins, many fit and few beat, in no order that it foresees. And two
    // returns, so that the loop is made once for each of the two.
    let fits = SHIFT <= shifted;
    let new = shifted.wrapping_sub(SHIFT);
    if worst {
        return fits & (score < new);
    }
    fits & (new < score)
}

// What the entry of a Free rectangle does to the scan. A fit that is exact on one axis ends it.
#[tactic(auto, using(crate::proofs::ScanLaws::short_passes, crate::proofs::ScanLaws::beats_enough, crate::proofs::ScanLaws::exact_ends, crate::proofs::ScanLaws::beaten_kept, crate::proofs::ScanLaws::unbeaten_passed))]
fn weigh(s: Scan, r: Rectangle, q: Query) -> Scan
    requires { (r.x0 ≤ r.x1) × (r.y0 ≤ r.y1) × (s.at < s.len) × Open s q }
    ensures { result ≡ weighed s r q }
{
    let shifted = shifted_score(r, q);
    // For the machine: where the least wins, few fit, and that is asked by itself.
    if !q.worst && shifted < SHIFT {
        return Scan { at: s.at + 1, ..s };
    }
    if shifted == SHIFT {
        return Scan {
            at: s.len,
            best: Best::Found,
            place: s.at,
            score: 0,
            ..s
        };
    }
    if beats(s.score, shifted, q.worst) {
        return Scan {
            at: s.at + 1,
            best: Best::Found,
            place: s.at,
            score: shifted - SHIFT,
            ..s
        };
    }
    Scan { at: s.at + 1, ..s }
}

// Looks at the entry at the scan's place. One whose slot isn't Free is swap-removed, and the place is looked at again.
#[tactic(auto, unfolding(crate::specs::Scans::look))]
fn look_at(words: &[u32], list: &mut [u32], s: Scan, q: Query) -> Scan
    requires { Ready words.now (bag list.old s.len) × (s.at < s.len) × Open s q }
    ensures { scanned result list.new ≡ look words.now q (scanned s list.old) }
{
    let node = table::node_at(words, AllocIndex(list[s.at]));
    if node.kind == NodeKind::Free {
        return weigh(s, node.rect, q);
    }
    Scan {
        len: lists::swap_remove(list, s.len, s.at),
        ..s
    }
}

// Scans one list.
#[tactic(auto, using(crate::proofs::ScanLaws::looking_past))]
pub fn scan_list(words: &[u32], list: &mut [u32], len: usize, q: Query) -> Scan
    requires { Ready words.now (bag list.old len) }
    ensures { scanned result list.new ≡ scan_all words.now q list.old len }
{
    let mut s = Scan {
        len,
        at: 0,
        best: Best::Nothing,
        place: 0,
        score: opening(q.worst),
    };
    while s.at < s.len {
        s = look_at(words, list, s, q);
    }
    s
}

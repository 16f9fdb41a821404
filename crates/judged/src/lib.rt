// Rules 4 to 7, where rule 3 holds: the lowest-numbered one that is broken, and where.
#![tactic(auto)]

ghost use Rattle.std.specs.Prelude.{◌≡◌, true};
ghost use Rattle.judged.specs.Verdicts.{rule_number, rule_of, place_of};
ghost use Rattle.judged.specs.Judged.{is_whole, is_filled, whole, Prepared, Walked, Judged};

use geometry::{Rectangle, Setup};
use joins::Placed;
use slots::AllocIndex;

// The rules of sound tables, by their numbers.
#[derive(Clone, Copy, Debug, PartialEq, Eq)]
pub enum Rule {
    // Count, setup, list lengths, root and list entries are in range.
    Numbers = 1,
    // The spare chain is the Unused slots.
    SpareChain = 2,
    // The live slots' links agree and join them to the root.
    Links = 3,
    // No Free slot is beside a Free one, or alone under a parent.
    Merging = 4,
    // The places adjoin and fill the sheet.
    Places = 5,
    // Each Free slot has an entry in its list.
    Lists = 6,
    // The last slot of the top chain has its place stored.
    Last = 7,
}

// The number of a rule.
pub fn number_of(rule: Rule) -> u32
    ensures { result ≡ rule_number rule }
{
    rule as u32
}

// What the check found: the lowest-numbered rule that is broken, and the lowest place that breaks it, 0 where no single place does.
#[derive(Clone, Copy, Debug, PartialEq, Eq)]
pub struct Broken {
    pub rule: Rule,
    pub place: u32,
}

// Whether a walk from the root came to its end with nothing of the count left.
#[tactic(auto, unfolding(crate::specs::Judged::is_whole))]
pub fn is_whole(p: Placed) -> bool
    ensures { result ≡ is_whole p }
{
    p.ended && p.left == 0
}

// Whether what a walk saw fits together and fills the sheet.
#[tactic(auto, unfolding(crate::specs::Judged::is_filled, joins::specs::Joins::same_rect))]
pub fn is_filled(p: Placed, setup: Setup) -> bool
    ensures { result ≡ is_filled p (whole setup) }
{
    p.fits && p.at == Rectangle::from(setup.sheet)
}

// Rules 4 to 7, where rule 3 holds and it is known whether the top chain fills the sheet, and if so whether its last slot obeys rule 7.
pub fn audit_linked(
    words: &[u32],
    firsts: &[u32],
    marks: &[u8],
    n: u32,
    root: AllocIndex,
    setup: Setup,
    filled: bool,
    stored: bool,
) -> Result<(), Broken>
    requires { Prepared words.now firsts.now marks.now n root.0 × Walked words.now n root.0 (whole setup) filled stored }
    ensures { Judged words.now firsts.now marks.now n root.0 setup (rule_of result) (place_of result) }
{
    if let Some(place) = scans::lowest(n, |i| scans::merged_at(words, n, i)) {
        return Err(Broken {
            rule: Rule::Merging,
            place,
        });
    }
    if !filled {
        let empty = scans::lowest(n, |i| scans::filled_at(words, i));
        return Err(Broken {
            rule: Rule::Places,
            place: empty.unwrap_or(0),
        });
    }
    if let Some(place) = scans::lowest(n, |i| scans::listed_at(words, marks, setup, i)) {
        return Err(Broken {
            rule: Rule::Lists,
            place,
        });
    }
    if stored {
        return Ok(());
    }
    let last = scans::lowest(n, |i| scans::not_last_at(words, n, i));
    Err(Broken {
        rule: Rule::Last,
        place: last.unwrap_or(0),
    })
}

// Whether rules 4 to 7 hold, where rule 3 does. This asks rules 4 and 6 of each slot at once, and finds no place.
pub fn all_hold(
    words: &[u32],
    firsts: &[u32],
    marks: &[u8],
    n: u32,
    root: AllocIndex,
    setup: Setup,
    filled: bool,
    stored: bool,
) -> bool
    requires { Prepared words.now firsts.now marks.now n root.0 × Walked words.now n root.0 (whole setup) filled stored }
    ensures { result ≡ true → Judged words.now firsts.now marks.now n root.0 setup 0 0 }
{
    filled && stored && scans::lowest(n, |i| scans::settled_at(words, marks, n, setup, i)).is_none()
}

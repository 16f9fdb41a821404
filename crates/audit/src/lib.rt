// The check of the tables: the lowest-numbered rule of soundness that is broken, and where.
#![tactic(auto)]

ghost use Rattle.std.specs.Prelude.{length};
ghost use Rattle.steps.specs.State.{state};
ghost use Rattle.lent.specs.Lent.{Lent};
ghost use Rattle.judged.specs.Verdicts.{rule_of, place_of};
ghost use Rattle.refusals.specs.Refusals.{answer_of};
ghost use Rattle.audit.specs.Audited.{Audited, Checked};

use judged::{Broken, Rule};
use refusals::Refusal;
use steps::Head;

// The audit: the lowest-numbered rule of soundness that is broken, and the lowest place that breaks it. It changes nothing.
pub fn audit(
    words: &[u32],
    generations: &[u8],
    small: &[u32],
    medium: &[u32],
    large: &[u32],
    head: Head,
) -> Result<(), Broken>
    requires { Lent (length words.now) (length generations.now) (length small.now) (length medium.now) (length large.now) }
    ensures { Audited (state head words.now generations.now small.now medium.now large.now)
        (rule_of result) (place_of result) }
{
    if !counted::numbers_hold(
        generations.len(),
        small.len(),
        medium.len(),
        large.len(),
        head,
    ) {
        return Err(Broken {
            rule: Rule::Numbers,
            place: 0,
        });
    }
    let n = head.count;
    counted::entries_found(small, medium, large, head.lengths, n)?;
    let unused = counts::unused_below(words, n);
    if !merged::spare_walk(words, n, head.spare, unused) {
        return Err(Broken {
            rule: Rule::SpareChain,
            place: 0,
        });
    }
    walked::audit_tree(words, small, medium, large, head, n - unused)
}

// The check of the tables, whatever they hold: refused where a table length is out of range or the tables are not sound.
pub fn check(
    words: &[u32],
    generations: &[u8],
    small: &[u32],
    medium: &[u32],
    large: &[u32],
    head: Head,
) -> Result<(), Refusal>
    ensures { Checked (state head words.now generations.now small.now medium.now large.now) (answer_of result) }
{
    if !lent::is_lent(
        words.len(),
        generations.len(),
        small.len(),
        medium.len(),
        large.len(),
    ) {
        return Err(Refusal::TableLength);
    }
    match audit(words, generations, small, medium, large, head) {
        Ok(()) => Ok(()),
        Err(_) => Err(Refusal::NotSound),
    }
}

// Rules 3 to 7, by the walk from the root: the lowest-numbered one that is broken, and where.
#![tactic(auto)]

ghost use Rattle.std.specs.Prelude.{◌≡◌, ◌-◌};
ghost use Rattle.buckets.specs.FreeLists.{lists};
ghost use Rattle.geometry.specs.Sides.{setup_of};
ghost use Rattle.steps.specs.Spares.{unused_below};
ghost use Rattle.marks.specs.Marks.{marks_of};
ghost use Rattle.walked.specs.Trees.{firsts_of, TreeReady};
ghost use Rattle.judged.specs.Verdicts.{rule_of, place_of};
ghost use Rattle.judged.specs.Judged.{Prepared, Judged};

use geometry::Setup;
use judged::{Broken, Rule};
use slots::AllocIndex;
use steps::Head;

// Rules 3 to 7, with the table of first children and the marks made.
fn audit_marked(
    words: &[u32],
    firsts: &[u32],
    marks: &[u8],
    n: u32,
    root: AllocIndex,
    setup: Setup,
    live: u32,
) -> Result<(), Broken>
    requires { Prepared words.now firsts.now marks.now n root.0 × (live ≡ n - unused_below words.now n) }
    ensures { Judged words.now firsts.now marks.now n root.0 setup (rule_of result) (place_of result) }
{
    let top = table::node_at(words, root);
    let p = places::place_of_chain(words, firsts, root, slots::NONE, top.orientation, live);
    if !judged::is_whole(p) {
        let astray = scans::lowest(n, |i| scans::links_at(words, firsts, n, root, i));
        return Err(Broken {
            rule: Rule::Links,
            place: astray.unwrap_or(0),
        });
    }
    let filled = judged::is_filled(p, setup);
    if judged::all_hold(words, firsts, marks, n, root, setup, filled, p.stored) {
        return Ok(());
    }
    judged::audit_linked(words, firsts, marks, n, root, setup, filled, p.stored)
}

// Rules 3 to 7. Makes the table of first children and the marks.
pub fn audit_tree(
    words: &[u32],
    small: &[u32],
    medium: &[u32],
    large: &[u32],
    head: Head,
    live: u32,
) -> Result<(), Broken>
    requires { TreeReady words.now (lists head.lengths small.now medium.now large.now) head.count head.root.0 live }
    ensures { Judged words.now (firsts_of words.now head.count)
        (marks_of (lists head.lengths small.now medium.now large.now))
        head.count head.root.0 (setup_of head.sheet head.options) (rule_of result) (place_of result) }
{
    let n = head.count;
    let setup = geometry::setup_of(head.sheet, head.options);
    let mut firsts = [4294967295u32; 4096];
    let mut marks = [0u8; 12288];
    firsts::enter_firsts(words, &mut firsts, n);
    marks::mark_lists(&mut marks, small, medium, large, head.lengths);
    audit_marked(
        words,
        &firsts[..n as usize],
        &marks,
        n,
        head.root,
        setup,
        live,
    )
}

// Deallocate on sound tables: mark Free, climb, push.
#![tactic(auto)]

ghost use Rattle.std.specs.Prelude.{◌≡◌, List, ℕ};
ghost use Rattle.steps.specs.State.{state};
ghost use Rattle.frees.specs.Frees.{released};
ghost use Rattle.releasing.specs.Releasable.{Releasable};

use slots::{AllocIndex, NodeKind};
use steps::Head;

// Frees slot i, which is Alloc, on sound tables, whatever the generations. One push, at the end of the climb.
pub fn release(
    words: &mut [u32],
    small: &mut [u32],
    medium: &mut [u32],
    large: &mut [u32],
    head: Head,
    i: AllocIndex,
) -> Head
    requires { Releasable head words.old small.old medium.old large.old i }
    ensures { (g : List ℕ) → state result words.new g small.new medium.new large.new
        ≡ released (state head words.old g small.old medium.old large.old) i }
{
    let setup = geometry::setup_of(head.sheet, head.options);
    stores::set_kind(words, i, NodeKind::Free);
    let end = climbs::climb(words, head.spare, i, head.count);
    let node = table::node_at(words, end.at);
    let lengths = entries::add_free_rect(
        words,
        small,
        medium,
        large,
        head.lengths,
        setup,
        end.at,
        node.rect,
    );
    Head {
        spare: end.spare,
        lengths,
        ..head
    }
}

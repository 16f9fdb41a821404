// The pieces of a cut, entered into the free lists: split, then leftover.
#![tactic(auto)]

ghost use Rattle.std.specs.Prelude.{◌≡◌};
ghost use Rattle.buckets.specs.FreeLists.{lists};
ghost use Rattle.pieces.specs.Pieces.{has_split, has_left, pieces_of, PiecesReady};

use buckets::Lengths;
use cuts::Cut;
use geometry::Setup;
use grants::Shape;
use slots::AllocIndex;

// Whether a shape has a split, and whether it has a leftover.
fn has_split(shape: Shape) -> bool
    ensures { result ≡ has_split shape }
{
    shape != Shape::Exact
}

fn has_left(shape: Shape) -> bool
    ensures { result ≡ has_left shape }
{
    matches!(shape, Shape::AlongLeft | Shape::AcrossLeft)
}

// Pushes split, then leftover: the pieces that the shape has.
#[tactic(auto, unfolding(crate::specs::Pieces::pieces_of))]
pub fn enter_pieces(
    shape: Shape,
    words: &[u32],
    small: &mut [u32],
    medium: &mut [u32],
    large: &mut [u32],
    lengths: Lengths,
    setup: Setup,
    split: AllocIndex,
    left: AllocIndex,
    cut: Cut,
) -> Lengths
    requires { PiecesReady shape words.now (lists lengths small.old medium.old large.old) split left cut }
    ensures { lists result small.new medium.new large.new
        ≡ pieces_of shape words.now setup split left cut (lists lengths small.old medium.old large.old) }
{
    if !has_split(shape) {
        return lengths;
    }
    let between = entries::add_free_rect(
        words, small, medium, large, lengths, setup, split, cut.split,
    );
    if !has_left(shape) {
        return between;
    }
    entries::add_free_rect(
        words,
        small,
        medium,
        large,
        between,
        setup,
        left,
        cut.leftover,
    )
}

// A new sheet: one Free slot, whatever the tables held.
#![tactic(auto)]

ghost use Rattle.std.specs.Prelude.{◌≡◌, length};
ghost use Rattle.steps.specs.State.{state};
ghost use Rattle.lent.specs.Lent.{Lent};
ghost use Rattle.sheets.specs.Sheets.{whole_sheet, started};

use buckets::Lengths;
use geometry::{AllocatorOptions, Orientation, Rectangle, Setup, Size};
use slots::{AllocIndex, Node, NodeKind};
use steps::Head;

// The slot of a whole sheet.
fn whole_sheet(setup: Setup) -> Node
    ensures { result ≡ whole_sheet setup }
{
    Node {
        parent: slots::NONE,
        next: slots::NONE,
        prev: slots::NONE,
        kind: NodeKind::Free,
        orientation: Orientation::Vertical,
        rect: Rectangle::from(setup.sheet),
    }
}

// Writes slot 0, its generation and its entry, and answers the head.
pub fn begin(
    words: &mut [u32],
    generations: &mut [u8],
    small: &mut [u32],
    medium: &mut [u32],
    large: &mut [u32],
    sheet: Size,
    options: AllocatorOptions,
) -> Head
    requires { Lent (length words.old) (length generations.old) (length small.old) (length medium.old) (length large.old) }
    ensures { state result words.new generations.new small.new medium.new large.new
        ≡ started sheet options words.old generations.old small.old medium.old large.old }
{
    let setup = geometry::setup_of(sheet, options);
    let bucket = geometry::free_list_for_size(
        setup.small,
        setup.large,
        setup.sheet.width,
        setup.sheet.height,
    );
    stores::put_node(words, AllocIndex(0), whole_sheet(setup));
    generations[0] = 0;
    let none = Lengths {
        small: 0,
        medium: 0,
        large: 0,
    };
    let lengths = buckets::push_to(words, small, medium, large, none, bucket, 0);
    Head {
        sheet,
        options,
        root: AllocIndex(0),
        spare: slots::NONE,
        count: 1,
        lengths,
    }
}

// The head as twelve words, and what a call hands over as a few.
#![tactic(auto)]

ghost use Rattle.std.specs.Prelude.{◌≡◌, ◌≤◌, ◌<◌, ◌^◌, eqb};
ghost use Rattle.heads.specs.Words.{size_of, options_of, signed_of, size_at, head_at, with_changes, ticket_at, rect_at, ShortLists};

use buckets::Lengths;
use geometry::{AllocatorOptions, Rectangle, Size};
use slots::AllocIndex;
use steps::Head;
use tickets::AllocId;

// The signed number whose bits a word has.
#[tactic(auto, using(crate::specs::SignedLaws::signed_read), unfolding(crate::specs::Words::signed_of))]
fn signed_of(word: u32) -> i32
    ensures { result ≡ signed_of word }
{
    word.cast_signed()
}

// The word with the bits of a signed number.
#[tactic(auto, using(crate::specs::SignedLaws::read_back), unfolding(crate::specs::Words::signed_of))]
fn word_of(number: i32) -> u32
    ensures { signed_of result ≡ number }
{
    number.cast_unsigned()
}

// A size and options by their numbers.
pub fn size_of(width: i32, height: i32) -> Size
    ensures { result ≡ size_of width height }
{
    Size { width, height }
}

pub fn options_of(
    alignment_width: i32,
    alignment_height: i32,
    small: i32,
    large: i32,
) -> AllocatorOptions
    ensures { result ≡ options_of alignment_width alignment_height small large }
{
    AllocatorOptions {
        alignment: Size {
            width: alignment_width,
            height: alignment_height,
        },
        small,
        large,
    }
}

// A word as a length, and a length that fits one as a word.
fn length_of(word: u32) -> usize
    ensures { (result ≡ word) × (result < 2 ^ 32) }
{
    word as usize
}

fn word_of_length(length: usize) -> u32
    requires { length < 2 ^ 32 }
    ensures { result ≡ length }
{
    length as u32
}

// The head that twelve words hold.
#[tactic(auto, using(crate::specs::SignedLaws::signed_read), unfolding(crate::specs::Words::head_at))]
pub fn head_of(words: &[u32; 12]) -> Head
    ensures { (result ≡ head_at words.now) × ShortLists result }
{
    Head {
        sheet: Size {
            width: signed_of(words[0]),
            height: signed_of(words[1]),
        },
        options: AllocatorOptions {
            alignment: Size {
                width: signed_of(words[2]),
                height: signed_of(words[3]),
            },
            small: signed_of(words[4]),
            large: signed_of(words[5]),
        },
        root: AllocIndex(words[6]),
        spare: AllocIndex(words[7]),
        count: words[8],
        lengths: Lengths {
            small: length_of(words[9]),
            medium: length_of(words[10]),
            large: length_of(words[11]),
        },
    }
}

// Writes a head over twelve words, from which it can be read again.
#[tactic(auto, using(crate::specs::SignedLaws::read_back), unfolding(crate::specs::Words::head_at))]
pub fn put_head(words: &mut [u32; 12], head: Head)
    requires { ShortLists head }
    ensures { head_at words.new ≡ head }
{
    *words = [
        word_of(head.sheet.width),
        word_of(head.sheet.height),
        word_of(head.options.alignment.width),
        word_of(head.options.alignment.height),
        word_of(head.options.small),
        word_of(head.options.large),
        head.root.0,
        head.spare.0,
        head.count,
        word_of_length(head.lengths.small),
        word_of_length(head.lengths.medium),
        word_of_length(head.lengths.large),
    ];
}

// Writes what allocate and deallocate change of a head, the spare_chain head, the slot count and the list lengths, over twelve words; the
// others stay.
#[tactic(auto, unfolding(crate::specs::Words::head_at))]
pub fn put_changes(words: &mut [u32; 12], head: Head)
    requires { ShortLists head }
    ensures { head_at words.new ≡ with_changes (head_at words.old) head }
{
    let Head {
        spare,
        count,
        lengths,
        ..
    } = head;
    *words = [
        words[0],
        words[1],
        words[2],
        words[3],
        words[4],
        words[5],
        words[6],
        spare.0,
        count,
        word_of_length(lengths.small),
        word_of_length(lengths.medium),
        word_of_length(lengths.large),
    ];
}

// Writes a ticket and its rectangle over five words.
#[tactic(auto, unfolding(crate::specs::Words::ticket_at, crate::specs::Words::rect_at))]
pub fn put_crop(words: &mut [u32; 5], id: AllocId, rect: Rectangle)
    ensures { (ticket_at words.new ≡ id) × (rect_at 1 words.new ≡ rect) }
{
    *words = [id.0, rect.x0, rect.y0, rect.x1, rect.y1];
}

// Writes a rectangle over four words.
#[tactic(auto, unfolding(crate::specs::Words::rect_at))]
pub fn put_rect(words: &mut [u32; 4], rect: Rectangle)
    ensures { rect_at 0 words.new ≡ rect }
{
    *words = [rect.x0, rect.y0, rect.x1, rect.y1];
}

// Writes a width and a height over two words.
pub fn put_size(words: &mut [u32; 2], size: Size)
    ensures { size_at 0 words.new ≡ size }
{
    *words = [word_of(size.width), word_of(size.height)];
}

// 1 for yes and 0 for no.
pub fn flag_of(yes: bool) -> u32
    ensures { (result ≤ 1) × (eqb result 1 ≡ yes) }
{
    u32::from(yes)
}

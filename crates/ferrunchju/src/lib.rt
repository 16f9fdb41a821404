// The library for C and Rust: each public call, over pointers, lengths and numbers. The head is twelve words; what is handed over goes to
// lent words too. Each contract is the call's own, of the head that the words hold.
#![tactic(auto)]

ghost use Rattle.std.specs.Prelude.{◌≡◌, ◌≤◌, eqb};
ghost use Rattle.slots.specs.declared.NodeKind.TheVariants.{Alloc, Free};
ghost use Rattle.audit.specs.Audited.{Checked};
ghost use Rattle.outcomes.specs.Given.{nothing, given};
ghost use Rattle.heads.specs.Words.{head_at, size_at, size_of, options_of, ticket_of, rect_at};
ghost use Rattle.starts.specs.Starts.{start_call, clear_call};
ghost use Rattle.allocate.specs.Allocate.{AllocateCall};
ghost use Rattle.deallocate.specs.Deallocate.{DeallocateCall};
ghost use Rattle.grow.specs.Grow.{GrowCall};
ghost use Rattle.lookup.specs.Lookup.{IndexCall};
ghost use Rattle.listings.specs.Listings.{filled};
ghost use Rattle.views.specs.Views.{ListCall};
ghost use Rattle.empty.specs.Empty.{EmptyCall};
ghost use Rattle.ferrunchju.specs.Tables.{state_at, crop_at};

use tickets::AllocId;

// A new sheet, whatever the tables held: 0, 1 or 3.
#[unsafe(no_mangle)]
pub extern "C" fn ferrunchju_start(
    words: &mut [u32],
    generations: &mut [u8],
    small: &mut [u32],
    medium: &mut [u32],
    large: &mut [u32],
    head: &mut [u32; 12],
    width: i32,
    height: i32,
    alignment_width: i32,
    alignment_height: i32,
    small_threshold: i32,
    large_threshold: i32,
) -> u32
    ensures { given result nothing (state_at head.new words.new generations.new small.new medium.new large.new)
        ≡ start_call (size_of width height) (options_of alignment_width alignment_height small_threshold large_threshold)
        (state_at head.old words.old generations.old small.old medium.old large.old) }
{
    let mut after = heads::head_of(head);
    let sheet = heads::size_of(width, height);
    let options = heads::options_of(
        alignment_width,
        alignment_height,
        small_threshold,
        large_threshold,
    );
    let begun = starts::start(
        words,
        generations,
        small,
        medium,
        large,
        &mut after,
        sheet,
        options,
    );
    heads::put_head(head, after);
    refusals::answer_of(begun)
}

// The same sheet again, empty, with the size and the options given: 0, 1 or 3.
#[unsafe(no_mangle)]
pub extern "C" fn ferrunchju_reset(
    words: &mut [u32],
    generations: &mut [u8],
    small: &mut [u32],
    medium: &mut [u32],
    large: &mut [u32],
    head: &mut [u32; 12],
    width: i32,
    height: i32,
    alignment_width: i32,
    alignment_height: i32,
    small_threshold: i32,
    large_threshold: i32,
) -> u32
    ensures { given result nothing (state_at head.new words.new generations.new small.new medium.new large.new)
        ≡ start_call (size_of width height) (options_of alignment_width alignment_height small_threshold large_threshold)
        (state_at head.old words.old generations.old small.old medium.old large.old) }
{
    ferrunchju_start(
        words,
        generations,
        small,
        medium,
        large,
        head,
        width,
        height,
        alignment_width,
        alignment_height,
        small_threshold,
        large_threshold,
    )
}

// The same sheet again, empty: 0, 1 or 3.
#[unsafe(no_mangle)]
pub extern "C" fn ferrunchju_clear(
    words: &mut [u32],
    generations: &mut [u8],
    small: &mut [u32],
    medium: &mut [u32],
    large: &mut [u32],
    head: &mut [u32; 12],
) -> u32
    ensures { given result nothing (state_at head.new words.new generations.new small.new medium.new large.new)
        ≡ clear_call (state_at head.old words.old generations.old small.old medium.old large.old) }
{
    let mut after = heads::head_of(head);
    let begun = starts::clear(words, generations, small, medium, large, &mut after);
    heads::put_head(head, after);
    refusals::answer_of(begun)
}

// A rectangle for a requested size, with its ticket: 0, 1, 2, 4, 5, 6 or 7.
#[unsafe(no_mangle)]
pub extern "C" fn ferrunchju_allocate(
    words: &mut [u32],
    generations: &mut [u8],
    small: &mut [u32],
    medium: &mut [u32],
    large: &mut [u32],
    head: &mut [u32; 12],
    width: i32,
    height: i32,
    out: &mut [u32; 5],
) -> u32
    ensures { AllocateCall (size_of width height) (state_at head.old words.old generations.old small.old medium.old large.old)
        (given result (crop_at out.new) (state_at head.new words.new generations.new small.new medium.new large.new)) }
{
    let mut changed = heads::head_of(head);
    let size = heads::size_of(width, height);
    let got = allocate::allocate(words, generations, small, medium, large, &mut changed, size);
    heads::put_changes(head, changed);
    let crop = taking::handed_over(got);
    heads::put_crop(out, crop.id, crop.rectangle);
    refusals::answer_of(got)
}

// Frees a live ticket: 0, 1, 2, 8, 9 or 10.
#[unsafe(no_mangle)]
pub extern "C" fn ferrunchju_deallocate(
    words: &mut [u32],
    generations: &[u8],
    small: &mut [u32],
    medium: &mut [u32],
    large: &mut [u32],
    head: &mut [u32; 12],
    ticket: u32,
) -> u32
    ensures { DeallocateCall (state_at head.old words.old generations.now small.old medium.old large.old) (ticket_of ticket)
        (given result nothing (state_at head.new words.new generations.now small.new medium.new large.new)) }
{
    let mut after = heads::head_of(head);
    let freed = deallocate::deallocate(
        words,
        generations,
        small,
        medium,
        large,
        &mut after,
        AllocId(ticket),
    );
    heads::put_changes(head, after);
    refusals::answer_of(freed)
}

// Grows the sheet to another size: 0, 1, 2, 11, 3 or 7.
#[unsafe(no_mangle)]
pub extern "C" fn ferrunchju_grow(
    words: &mut [u32],
    generations: &mut [u8],
    small: &mut [u32],
    medium: &mut [u32],
    large: &mut [u32],
    head: &mut [u32; 12],
    width: i32,
    height: i32,
) -> u32
    ensures { GrowCall (state_at head.old words.old generations.old small.old medium.old large.old) (size_of width height)
        (given result nothing (state_at head.new words.new generations.new small.new medium.new large.new)) }
{
    let mut after = heads::head_of(head);
    let size = heads::size_of(width, height);
    let grown = grow::grow(words, generations, small, medium, large, &mut after, size);
    heads::put_head(head, after);
    refusals::answer_of(grown)
}

// A live ticket's rectangle: 0, 1, 2, 8, 9 or 10.
#[unsafe(no_mangle)]
pub extern "C" fn ferrunchju_lookup(
    words: &[u32],
    generations: &[u8],
    small: &[u32],
    medium: &[u32],
    large: &[u32],
    head: &[u32; 12],
    ticket: u32,
    out: &mut [u32; 4],
) -> u32
    ensures { IndexCall (state_at head.now words.now generations.now small.now medium.now large.now) (ticket_of ticket)
        (given result (rect_at 0 out.new) (state_at head.now words.now generations.now small.now medium.now large.now)) }
{
    let looked = lookup::index(
        words,
        generations,
        small,
        medium,
        large,
        heads::head_of(head),
        AllocId(ticket),
    );
    heads::put_rect(out, looked.unwrap_or(geometry::no_rect()));
    refusals::answer_of(looked)
}

// The Alloc slots in slot order, five words to an entry, the ticket and the corners: 0, 1, 2 or 12.
#[unsafe(no_mangle)]
pub extern "C" fn ferrunchju_list_allocated(
    words: &[u32],
    generations: &[u8],
    small: &[u32],
    medium: &[u32],
    large: &[u32],
    head: &[u32; 12],
    list: &mut [u32],
    count: &mut u32,
) -> u32
    ensures { ListCall Alloc (state_at head.now words.now generations.now small.now medium.now large.now) list.old
        (given result (filled count.new list.new) (state_at head.now words.now generations.now small.now medium.now large.now)) }
{
    let listed = views::for_each_allocated_rectangle(
        words,
        generations,
        small,
        medium,
        large,
        heads::head_of(head),
        list,
    );
    *count = listed.unwrap_or(0);
    refusals::answer_of(listed)
}

// The Free slots in slot order, four words to an entry, the corners: 0, 1, 2 or 12.
#[unsafe(no_mangle)]
pub extern "C" fn ferrunchju_list_free(
    words: &[u32],
    generations: &[u8],
    small: &[u32],
    medium: &[u32],
    large: &[u32],
    head: &[u32; 12],
    list: &mut [u32],
    count: &mut u32,
) -> u32
    ensures { ListCall Free (state_at head.now words.now generations.now small.now medium.now large.now) list.old
        (given result (filled count.new list.new) (state_at head.now words.now generations.now small.now medium.now large.now)) }
{
    let listed = views::for_each_free_rectangle(
        words,
        generations,
        small,
        medium,
        large,
        heads::head_of(head),
        list,
    );
    *count = listed.unwrap_or(0);
    refusals::answer_of(listed)
}

// Whether one Free slot is the whole sheet, 1 or 0: 0, 1 or 2.
#[unsafe(no_mangle)]
pub extern "C" fn ferrunchju_is_empty(
    words: &[u32],
    generations: &[u8],
    small: &[u32],
    medium: &[u32],
    large: &[u32],
    head: &[u32; 12],
    empty: &mut u32,
) -> u32
    ensures { (empty.new ≤ 1)
        × EmptyCall (state_at head.now words.now generations.now small.now medium.now large.now) (given result (eqb empty.new 1) (state_at head.now words.now generations.now small.now medium.now large.now)) }
{
    let seen = empty::is_empty(
        words,
        generations,
        small,
        medium,
        large,
        heads::head_of(head),
    );
    *empty = heads::flag_of(seen.unwrap_or(false));
    refusals::answer_of(seen)
}

// The sheet's size, as the head has it.
#[unsafe(no_mangle)]
pub extern "C" fn ferrunchju_size(head: &[u32; 12], out: &mut [u32; 2])
    ensures { size_at 0 out.new ≡ (head_at head.now).sheet }
{
    heads::put_size(out, views::size(heads::head_of(head)));
}

// The check of the tables, whatever they hold: 0 sound, 1 a table length is out of range, 2 not sound.
#[unsafe(no_mangle)]
pub extern "C" fn ferrunchju_check(
    words: &[u32],
    generations: &[u8],
    small: &[u32],
    medium: &[u32],
    large: &[u32],
    head: &[u32; 12],
) -> u32
    ensures { Checked (state_at head.now words.now generations.now small.now medium.now large.now) result }
{
    refusals::answer_of(audit::check(
        words,
        generations,
        small,
        medium,
        large,
        heads::head_of(head),
    ))
}

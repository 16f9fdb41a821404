// Tables that a day is played on.
use crate::order::Order;
use crate::show::{Corners, Link, Links, Sides};
use buckets::Lengths;
use geometry::{AllocatorOptions, Size};
use refusals::Refusal;
use slots::AllocIndex;
use std::{fmt, io};
use steps::Head;
use taking::Allocation;
use tickets::AllocId;

// Tables of so many slots, eight times as many words, and as many entries of each list, and the head beside them.
#[derive(Clone, Copy)]
pub struct Tables<const SLOTS: usize, const WORDS: usize> {
    words: [u32; WORDS],
    generations: [u8; SLOTS],
    small: [u32; SLOTS],
    medium: [u32; SLOTS],
    large: [u32; SLOTS],
    head: Head,
}

impl<const SLOTS: usize, const WORDS: usize> Tables<SLOTS, WORDS> {
    // Tables of sevens, and a head of no sheet.
    pub fn new() -> Self {
        let none = Size {
            width: 0,
            height: 0,
        };
        Tables {
            words: [7; WORDS],
            generations: [7; SLOTS],
            small: [7; SLOTS],
            medium: [7; SLOTS],
            large: [7; SLOTS],
            head: Head {
                sheet: none,
                options: AllocatorOptions {
                    alignment: none,
                    small: 0,
                    large: 0,
                },
                root: AllocIndex(0),
                spare: AllocIndex(0),
                count: 0,
                lengths: Lengths {
                    small: 0,
                    medium: 0,
                    large: 0,
                },
            },
        }
    }

    fn start(&mut self, sheet: Size, options: AllocatorOptions) -> u32 {
        let outcome = starts::start(
            &mut self.words,
            &mut self.generations,
            &mut self.small,
            &mut self.medium,
            &mut self.large,
            &mut self.head,
            sheet,
            options,
        );
        refusals::answer_of(outcome)
    }

    fn take(&mut self, size: Size) -> Result<Allocation, Refusal> {
        allocate::allocate(
            &mut self.words,
            &mut self.generations,
            &mut self.small,
            &mut self.medium,
            &mut self.large,
            &mut self.head,
            size,
        )
    }

    fn free(&mut self, ticket: u32) -> u32 {
        let outcome = deallocate::deallocate(
            &mut self.words,
            &self.generations,
            &mut self.small,
            &mut self.medium,
            &mut self.large,
            &mut self.head,
            AllocId(ticket),
        );
        refusals::answer_of(outcome)
    }

    fn grow(&mut self, size: Size) -> u32 {
        let outcome = grow::grow(
            &mut self.words,
            &mut self.generations,
            &mut self.small,
            &mut self.medium,
            &mut self.large,
            &mut self.head,
            size,
        );
        refusals::answer_of(outcome)
    }

    // Makes a call, and writes it with its answer; of an allocate also the ticket and the rectangle. Or writes the tables.
    pub fn act(&mut self, rt: &impl Print, order: Order) -> io::Result<()> {
        match order {
            Order::Start(sheet, options) => {
                let answer = self.start(sheet, options);
                println!(rt; "start {}: {answer}", Sides(sheet))
            }
            Order::Take(width, height) => {
                let size = Size { width, height };
                let outcome = self.take(size);
                let answer = refusals::answer_of(outcome);
                let Allocation { id, rectangle } = taking::handed_over(outcome);
                println!(rt;
                    "allocate {}: {answer}, ticket {}, {}",
                    Sides(size),
                    id.0,
                    Corners(rectangle)
                )
            }
            Order::Free(ticket) => {
                let answer = self.free(ticket);
                println!(rt; "free {ticket}: {answer}")
            }
            Order::Grow(size) => {
                let answer = self.grow(size);
                println!(rt; "grow {}: {answer}", Sides(size))
            }
            Order::Look => print!(rt; "{self}"),
        }
    }
}

// The first entries of a list.
fn entries(list: &[u32], length: usize) -> Links<'_> {
    Links(&list[..length.min(list.len())])
}

// The head, the words of the slots below n, eight to a line (parent, next, prev, code, which is kind + 4 times orientation, and
// corners), and the lists.
impl<const SLOTS: usize, const WORDS: usize> fmt::Display for Tables<SLOTS, WORDS> {
    fn fmt<W: fmt::Write>(&self, f: &mut fmt::Formatter<W>) -> fmt::Result {
        let Head {
            root,
            spare,
            count,
            lengths,
            ..
        } = self.head;
        writeln!(
            f,
            "  root {}, spare {}, slots {count}",
            Link(root.0),
            Link(spare.0)
        )?;
        for (slot, words) in self.words.chunks(8).take(count as usize).enumerate() {
            let words = Links(words);
            writeln!(f, "  slot {slot}:{words}")?;
        }
        writeln!(f, "  small list{}", entries(&self.small, lengths.small))?;
        writeln!(f, "  medium list{}", entries(&self.medium, lengths.medium))?;
        writeln!(f, "  large list{}", entries(&self.large, lengths.large))
    }
}

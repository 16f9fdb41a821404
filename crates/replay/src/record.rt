// The lines of the list, as docs/ORACLE.md gives them.
use calls::Call;
use geometry::{AllocatorOptions, Rectangle, Size};
use leaves::{Leaf, orientation_of};
use reading::Line;
use tally::Kind;
use tickets::AllocId;
use told::{Change, bucket_of};

// What a line says.
#[derive(Clone, Copy)]
pub enum Record {
    // A call.
    Open(Call),
    // What the call that is open changed.
    Change(Change),
    // The end of the call that is open, and whether the sheet is empty then.
    Close(u32),
    // What a leaf answers.
    Leaf(Leaf),
    // A line that is not replayed.
    Other,
}

fn size(width: u32, height: u32) -> Size {
    Size {
        width: width.cast_signed(),
        height: height.cast_signed(),
    }
}

fn options(width: u32, height: u32, small: u32, large: u32) -> AllocatorOptions {
    AllocatorOptions {
        alignment: size(width, height),
        small: small.cast_signed(),
        large: large.cast_signed(),
    }
}

impl Record {
    // The kind of a line and what it says, unless it is out of form.
    pub fn of(line: &Line) -> Option<(Kind, Record)> {
        let (number, numbers) = line.numbers()?.split_first()?;
        let kind = Kind::try_from(*number).ok()?;
        Some((kind, Record::read(kind, numbers)?))
    }

    // What the numbers behind the kind say. They are none where they are too few or too many, or such as no line of the kind has.
    fn read(kind: Kind, numbers: &[u32]) -> Option<Record> {
        match (kind, numbers) {
            (Kind::Start, &[w, h, aw, ah, small, large]) => Some(Record::Open(Call::Start(
                size(w, h),
                options(aw, ah, small, large),
            ))),
            (Kind::Allocate, &[w, h, answer, ticket, x0, y0, x1, y1]) => {
                Some(Record::Open(Call::Allocate {
                    size: size(w, h),
                    answer,
                    id: AllocId(ticket),
                    rectangle: Rectangle { x0, y0, x1, y1 },
                }))
            }
            (Kind::Deallocate, &[ticket]) => Some(Record::Open(Call::Deallocate(AllocId(ticket)))),
            (Kind::Grow, &[w, h]) => Some(Record::Open(Call::Grow(size(w, h)))),
            (Kind::Clear, &[]) => Some(Record::Open(Call::Clear)),
            (Kind::Reset, &[w, h, aw, ah, small, large]) => Some(Record::Open(Call::Reset(
                size(w, h),
                options(aw, ah, small, large),
            ))),
            (Kind::List, &[_, length, ..]) if numbers.len() == 2 + length as usize => {
                Some(Record::Other)
            }
            (Kind::Search, &[_, _, _]) => Some(Record::Other),
            (Kind::Close, &[empty]) => Some(Record::Close(empty)),
            (Kind::Slot, &[slot, a, b, c, d, e, f, g, h]) => Some(Record::Change(Change::Slot {
                slot,
                words: [a, b, c, d, e, f, g, h],
            })),
            (Kind::Generation, &[slot, generation]) => {
                Some(Record::Change(Change::Generation { slot, generation }))
            }
            (Kind::Length, &[bucket, length]) => Some(Record::Change(Change::Length {
                bucket: bucket_of(bucket)?,
                length,
            })),
            (Kind::Entry, &[bucket, place, entry]) => Some(Record::Change(Change::Entry {
                bucket: bucket_of(bucket)?,
                place,
                entry,
            })),
            (Kind::Links, &[count, root, spare]) => {
                Some(Record::Change(Change::Links { count, root, spare }))
            }
            (Kind::Bucket, &[small, large, width, height, bucket]) => {
                Some(Record::Leaf(Leaf::Bucket {
                    small: small.cast_signed(),
                    large: large.cast_signed(),
                    width,
                    height,
                    bucket,
                }))
            }
            (Kind::Rounding, &[alignment, side, rounded]) => Some(Record::Leaf(Leaf::Rounding {
                alignment: alignment.cast_signed(),
                side,
                rounded,
            })),
            (
                Kind::Cut,
                &[
                    x0,
                    y0,
                    x1,
                    y1,
                    width,
                    height,
                    kept,
                    sx0,
                    sy0,
                    sx1,
                    sy1,
                    lx0,
                    ly0,
                    lx1,
                    ly1,
                    after,
                ],
            ) => Some(Record::Leaf(Leaf::Cut {
                chosen: Rectangle { x0, y0, x1, y1 },
                width,
                height,
                kept: orientation_of(kept)?,
                split: Rectangle {
                    x0: sx0,
                    y0: sy0,
                    x1: sx1,
                    y1: sy1,
                },
                leftover: Rectangle {
                    x0: lx0,
                    y0: ly0,
                    x1: lx1,
                    y1: ly1,
                },
                orientation: orientation_of(after)?,
            })),
            _ => None,
        }
    }
}

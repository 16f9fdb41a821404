// The state that the list tells of, for 256 slots and 2,048 entries a list, and the changes of it.
#![tactic(auto)]

use buckets::Lengths;
use geometry::{AllocatorOptions, Bucket, Size};
use slots::AllocIndex;
use steps::Head;

// The tables, and the head beside them.
#[derive(Clone, Copy)]
pub struct State {
    pub words: [u32; 2048],
    pub generations: [u8; 256],
    pub small: [u32; 2048],
    pub medium: [u32; 2048],
    pub large: [u32; 2048],
    pub head: Head,
}

// What a call changed.
#[derive(Clone, Copy)]
pub enum Change {
    Slot {
        slot: u32,
        words: [u32; 8],
    },
    Generation {
        slot: u32,
        generation: u32,
    },
    Length {
        bucket: Bucket,
        length: u32,
    },
    Entry {
        bucket: Bucket,
        place: u32,
        entry: u32,
    },
    Links {
        count: u32,
        root: u32,
        spare: u32,
    },
}

// A bucket by its number.
pub fn bucket_of(number: u32) -> Option<Bucket> {
    match number {
        0 => Some(Bucket::Small),
        1 => Some(Bucket::Medium),
        2 => Some(Bucket::Large),
        _ => None,
    }
}

impl State {
    // Tables of one word and one byte throughout, and a head of which the list has told nothing but the sheet and the options: the
    // count and the lengths are such as no tables here have, and the links such as no start gives.
    pub fn filled(word: u32, byte: u8, sheet: Size, options: AllocatorOptions) -> State {
        State {
            words: [word; 2048],
            generations: [byte; 256],
            small: [word; 2048],
            medium: [word; 2048],
            large: [word; 2048],
            head: Head {
                sheet,
                options,
                root: slots::NONE,
                spare: AllocIndex(0),
                count: 257,
                lengths: Lengths {
                    small: 2049,
                    medium: 2049,
                    large: 2049,
                },
            },
        }
    }

    fn list_mut(&mut self, bucket: Bucket) -> &mut [u32; 2048] {
        match bucket {
            Bucket::Small => &mut self.small,
            Bucket::Medium => &mut self.medium,
            Bucket::Large => &mut self.large,
        }
    }

    fn length_mut(&mut self, bucket: Bucket) -> &mut usize {
        match bucket {
            Bucket::Small => &mut self.head.lengths.small,
            Bucket::Medium => &mut self.head.lengths.medium,
            Bucket::Large => &mut self.head.lengths.large,
        }
    }

    // Makes a change, unless it is at a place that the tables don't have, or to a number that they can't have: whether it was made.
    pub fn make(&mut self, change: Change) -> bool {
        match change {
            Change::Slot { slot, words } if slot < 256 => {
                let from = slot as usize * 8;
                self.words[from..from + 8].copy_from_slice(&words);
                true
            }
            Change::Generation { slot, generation } if slot < 256 && generation < 256 => {
                self.generations[slot as usize] = generation as u8;
                true
            }
            Change::Length { bucket, length } if length <= 2048 => {
                *self.length_mut(bucket) = length as usize;
                true
            }
            Change::Entry {
                bucket,
                place,
                entry,
            } if place < 2048 => {
                self.list_mut(bucket)[place as usize] = entry;
                true
            }
            Change::Links { count, root, spare } if count <= 256 => {
                self.head = Head {
                    count,
                    root: AllocIndex(root),
                    spare: AllocIndex(spare),
                    ..self.head
                };
                true
            }
            _ => false,
        }
    }
}

// The tables that the list tells of, and the changes of them.
use crate::score::Found;
use buckets::Lengths;
use geometry::{AllocatorOptions, Size};
use slots::AllocIndex;
use steps::Head;

// The tables, of which the first slots and the first entries are told of, and the head beside them.
#[derive(Clone, Copy)]
pub struct Tables {
    pub slots: usize,
    pub entries: usize,
    pub words: [u32; 512],
    pub generations: [u8; 64],
    pub lists: [[u32; 128]; 3],
    pub head: Head,
}

// A change of the tables.
#[derive(Clone, Copy)]
pub enum Edit {
    Word { place: u32, value: u32 },
    Generation { place: u32, value: u32 },
    Entry { bucket: u32, place: u32, value: u32 },
    Field { field: u32, value: u32 },
}

impl Tables {
    // Tables of so many slots and entries, all zeros.
    pub fn new(slots: u32, entries: u32) -> Tables {
        let none = Size {
            width: 0,
            height: 0,
        };
        Tables {
            slots: slots as usize,
            entries: entries as usize,
            words: [0; 512],
            generations: [0; 64],
            lists: [[0; 128]; 3],
            head: Head {
                sheet: none,
                options: AllocatorOptions {
                    alignment: none,
                    small: 0,
                    large: 0,
                },
                root: AllocIndex(0),
                spare: AllocIndex(0),
                count: 0,
                lengths: Lengths {
                    small: 0,
                    medium: 0,
                    large: 0,
                },
            },
        }
    }

    // Changes one field of the head, if there is such a one.
    fn set_field(&mut self, field: u32, bits: u32) -> bool {
        let head = &mut self.head;
        let side = bits.cast_signed();
        match field {
            0 => head.sheet.width = side,
            1 => head.sheet.height = side,
            2 => head.options.alignment.width = side,
            3 => head.options.alignment.height = side,
            4 => head.options.small = side,
            5 => head.options.large = side,
            6 => head.root = AllocIndex(bits),
            7 => head.spare = AllocIndex(bits),
            8 => head.count = bits,
            9 => head.lengths.small = bits as usize,
            10 => head.lengths.medium = bits as usize,
            11 => head.lengths.large = bits as usize,
            _ => return false,
        }
        true
    }

    // Makes a change, unless it is at a place that the tables don't have, or to a number that they can't have: whether it was made.
    pub fn make(&mut self, edit: Edit) -> bool {
        match edit {
            Edit::Word { place, value } => {
                let at = place as usize;
                if at >= 512 || at / 8 >= self.slots {
                    return false;
                }
                self.words[at] = value;
            }
            Edit::Generation { place, value } => {
                let at = place as usize;
                if at >= 64 || at >= self.slots || value > 255 {
                    return false;
                }
                self.generations[at] = value as u8;
            }
            Edit::Entry {
                bucket,
                place,
                value,
            } => {
                let at = place as usize;
                if bucket >= 3 || at >= 128 || at >= self.entries {
                    return false;
                }
                self.lists[bucket as usize][at] = value;
            }
            Edit::Field { field, value } => return self.set_field(field, value),
        }
        true
    }

    // What the check finds in the first slots and entries, unless there are so few or so many that the lengths are out of range.
    #[tactic(auto, using(lent::specs::LentLaws::lent_yes))]
    pub fn check(&self) -> Option<Found> {
        let slots = self.slots;
        let entries = self.entries;
        if slots > 64 || entries > 128 {
            return None;
        }
        let words = &self.words[..slots * 8];
        let generations = &self.generations[..slots];
        let small = &self.lists[0][..entries];
        let medium = &self.lists[1][..entries];
        let large = &self.lists[2][..entries];
        if !lent::is_lent(
            words.len(),
            generations.len(),
            small.len(),
            medium.len(),
            large.len(),
        ) {
            return None;
        }
        let audit = audit::audit(words, generations, small, medium, large, self.head);
        let check = audit::check(words, generations, small, medium, large, self.head);
        Some(Found::new(audit, check))
    }
}

// Lines of decimal numbers of an input, taken a byte at a time.
ghost use Rattle.std.specs.Prelude.{◌≡◌, ◌≤◌, OnErr};
ghost use Rattle.std.specs.Io.KnownBytes.{Keeps};
ghost use Rattle.reading.specs.Inputs.{ReadsOn};

use std::io::{self, Read};

// A line as far as it is read: the numbers that are closed, the one that is open, and whether anything on it was out of form.
#[derive(Clone, Copy)]
pub struct Line {
    numbers: [u32; 128],
    count: usize,
    open: Option<u32>,
    bad: bool,
    ghost within: { count ≤ 128 },
}

// A number with one more digit. It has no leading zero and fits a u32.
fn with_digit(number: u32, digit: u32) -> Option<u32> {
    if number == 0 {
        return None;
    }
    number.checked_mul(10)?.checked_add(digit)
}

impl Line {
    pub fn new() -> Line {
        Line {
            numbers: [0; 128],
            count: 0,
            open: None,
            bad: false,
        }
    }

    // The numbers on it, unless it is out of form.
    pub fn numbers(&self) -> Option<&[u32]> {
        if self.bad {
            return None;
        }
        Some(&self.numbers[..self.count])
    }

    // Whether nothing of it was read.
    fn is_blank(&self) -> bool {
        self.count == 0 && self.open.is_none() && !self.bad
    }

    // Forgets what was read of it.
    fn clear(&mut self) {
        self.count = 0;
        self.open = None;
        self.bad = false;
    }

    // Closes the open number: it goes behind the others.
    fn close(&mut self) {
        match self.open.take() {
            Some(number) if self.count < 128 => {
                self.numbers[self.count] = number;
                self.count += 1;
            }
            _ => self.bad = true,
        }
    }

    fn push_digit(&mut self, digit: u32) {
        self.open = match self.open {
            Some(number) => with_digit(number, digit),
            None => Some(digit),
        };
        self.bad = self.bad || self.open.is_none();
    }

    // One more byte, which does not end it.
    fn push(&mut self, byte: u8) {
        match byte {
            b' ' => self.close(),
            b'0'..=b'9' => self.push_digit(u32::from(byte - b'0')),
            _ => self.bad = true,
        }
    }

    // At the end of the input a line without its newline is out of form.
    fn cut_off(&mut self) {
        self.bad = !self.is_blank();
    }
}

// The bytes of the buffer that were read from a source and not taken yet, from at up to end, and whether the source came to its
// end. The source is lent to each call, and is to be the same at all of them.
#[derive(Clone, Copy)]
pub struct ReadAhead {
    buffer: [u8; 65536],
    at: usize,
    end: usize,
    ended: bool,
    ghost within: { end ≤ 65536 },
}

impl ReadAhead {
    // Of a source of which nothing was read yet.
    pub fn new() -> ReadAhead {
        ReadAhead {
            buffer: [0; 65536],
            at: 0,
            end: 0,
            ended: false,
        }
    }

    // Reads on where every byte that was read is taken. An error is one read's: there was nothing left to take, and no byte of the
    // source is lost.
    fn fill<R: Read>(&mut self, source: &mut R) -> io::Result<()>
        ensures source { ReadsOn (R.remaining source.old) (R.remaining source.new) }
        ensures err { OnErr result ((self.old.end ≤ self.old.at) × Keeps (R.remaining source.old) (R.remaining source.new)) }
    {
        if self.ended || self.at < self.end {
            return Ok(());
        }
        self.end = source.read(&mut self.buffer)?;
        self.at = 0;
        self.ended = self.end == 0;
        Ok(())
    }

    // Takes the bytes that were read onto a line, up to one that ends it: whether the line goes on.
    fn take_bytes(&mut self, line: &mut Line) -> bool {
        for at in self.at..self.end {
            self.at = at + 1;
            let byte = self.buffer[at];
            if byte == b'\n' {
                line.close();
                return false;
            }
            line.push(byte);
        }
        true
    }

    // Takes bytes onto a line, or sees that none is left: whether the line goes on. An error is one read's, as in fill, and leaves the
    // line.
    fn read_on<R: Read>(&mut self, source: &mut R, line: &mut Line) -> io::Result<bool>
        ensures source { ReadsOn (R.remaining source.old) (R.remaining source.new) }
        ensures err { OnErr result ((self.old.end ≤ self.old.at) × (line.new ≡ line.old)
            × Keeps (R.remaining source.old) (R.remaining source.new)) }
    {
        self.fill(source)?;
        if self.at >= self.end {
            line.cut_off();
            return Ok(false);
        }
        Ok(self.take_bytes(line))
    }

    // Reads the next line of a source: whether there was one. Nothing says that a line ends, so the loop has more turns than any run
    // takes. An error is one read's; the numbers that the line had before it are on the line, and what the source has left goes on
    // behind the bytes that were read.
    pub fn next_line<R: Read>(&mut self, source: &mut R, line: &mut Line) -> io::Result<bool>
        ensures { ReadsOn (R.remaining source.old) (R.remaining source.new) }
    {
        line.clear();
        for _ in 0..u64::MAX {
            if !self.read_on(source, line)? {
                return Ok(!line.is_blank());
            }
        }
        Ok(true)
    }
}

// A source that is kept together with what was read of it and not taken: it is read by lines alone.
#[derive(Drop)]
pub struct Input<R: Read + Drop> {
    source: R,
    ahead: ReadAhead,
}

impl<R: Read + Drop> Input<R> {
    // An input of which nothing was read yet.
    pub fn new(source: R) -> Input<R>
        ensures { result.source ≡ source }
    {
        Input {
            source,
            ahead: ReadAhead::new(),
        }
    }

    // Reads the next line: whether there was one. An error is one read's, as for a source that is lent.
    pub fn next_line(&mut self, line: &mut Line) -> io::Result<bool>
        ensures { ReadsOn (R.remaining self.old.source) (R.remaining self.new.source) }
    {
        self.ahead.next_line(&mut self.source, line)
    }
}

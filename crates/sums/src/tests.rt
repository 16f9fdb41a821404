use crate::Sums;
use reading::{Input, Line, take_all, take_lent};
use std::io::{self, ErrorKind, Read};
use std::test::Fail;

// Gives what is left of a list, two bytes at a time at most, and then fails.
#[derive(Clone, Copy)]
struct Failing<'a> {
    left: &'a [u8],
}

impl<'a> Read for Failing<'a> {
    fn read(&mut self, buf: &mut [u8]) -> io::Result<usize> {
        if self.left.is_empty() {
            return Err(io::Error::from(ErrorKind::TimedOut));
        }
        let room = buf.len().min(2);
        self.left.read(&mut buf[..room])
    }
}

#[test]
fn an_input_reads_what_a_lent_source_reads(rt: HostRuntime) -> Result<(), Fail> {
    for (list, lines, faults, sum) in [
        (b"".as_slice(), 0, 0, 0),
        (b"1 2\n30\n", 2, 0, 33),
        (b"1 2\n30", 2, 1, 3),
        (b"4294967295\n4294967296\n", 2, 1, 4294967295),
        (b"x\n\n5\n", 3, 2, 5),
    ] {
        let want = Sums { lines, faults, sum };
        let mut kept = Sums::new();
        take_all(list, &mut kept)?;
        assert_eq!(rt; kept, want);
        let mut left = list;
        let mut lent = Sums::new();
        take_lent(&mut left, &mut lent)?;
        assert_eq!(rt; lent, want);
    }
    Ok(())
}

#[test]
fn a_failed_read_leaves_what_was_taken(rt: HostRuntime) -> Result<(), Fail> {
    let source = Failing {
        left: b"1 2\n30\n7",
    };
    let mut sums = Sums::new();
    let taken = take_all(source, &mut sums);
    assert!(rt; matches!(taken, Err(e) if e.kind() == ErrorKind::TimedOut));
    assert_eq!(rt;
        sums,
        Sums {
            lines: 2,
            faults: 0,
            sum: 33
        }
    );

    let mut input = Input::new(source);
    let mut line = Line::new();
    assert!(rt; input.next_line(&mut line)?);
    assert!(rt; line.numbers() == Some(&[1, 2]));
    assert!(rt; input.next_line(&mut line)?);
    assert!(rt; line.numbers() == Some(&[30]));
    assert!(rt; input.next_line(&mut line).is_err());
    Ok(())
}

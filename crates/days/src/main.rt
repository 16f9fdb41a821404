// The paper's ledger of known days, run through the public calls. What it writes is held against the stored file. Thresholds are 32 and 256.
#![tactic(auto)]

mod order;
mod show;
mod tables;

use geometry::{AllocatorOptions, Size};
use order::Order;
use std::io;
use tables::Tables;

// Thresholds 32 and 256.
fn aligned(width: i32, height: i32) -> AllocatorOptions {
    AllocatorOptions {
        alignment: Size { width, height },
        small: 32,
        large: 256,
    }
}

fn square(side: i32) -> Size {
    Size {
        width: side,
        height: side,
    }
}

// Gives orders one after another.
fn play<const SLOTS: usize, const WORDS: usize>(
    rt: &impl Print,
    tables: &mut Tables<SLOTS, WORDS>,
    orders: &[Order],
) -> io::Result<()> {
    for order in orders {
        tables.act(rt, *order)?;
    }
    Ok(())
}

// 100x1000, 900x200 and 300x200.
fn morning(rt: &impl Print) -> io::Result<Tables<8, 64>> {
    let mut tables = Tables::new();
    let orders = [
        Order::Start(square(1000), aligned(1, 1)),
        Order::Take(100, 1000),
        Order::Take(900, 200),
        Order::Take(300, 200),
    ];
    play(rt, &mut tables, &orders)?;
    Ok(tables)
}

// Then 1000x1, which has no space.
fn full(rt: &impl Print) -> io::Result<()> {
    let mut tables = morning(rt)?;
    let orders = [Order::Look, Order::Take(1000, 1), Order::Look];
    play(rt, &mut tables, &orders)
}

// Then two tickets freed, and 500x200.
fn freed(rt: &impl Print, first: u32, second: u32) -> io::Result<()> {
    let mut tables = morning(rt)?;
    let orders = [
        Order::Free(first),
        Order::Free(second),
        Order::Look,
        Order::Take(500, 200),
        Order::Look,
    ];
    play(rt, &mut tables, &orders)
}

// The whole sheet, freed, and taken again.
fn whole(rt: &impl Print) -> io::Result<()> {
    let orders = [
        Order::Start(square(1000), aligned(1, 1)),
        Order::Take(1000, 1000),
        Order::Free(0),
        Order::Take(1000, 1000),
        Order::Look,
    ];
    play(rt, &mut Tables::<8, 64>::new(), &orders)
}

// 100x100, a grow to 3000x3000, then 1000x2900; and a grow to a smaller size and to the largest.
fn larger(rt: &impl Print) -> io::Result<()> {
    let orders = [
        Order::Start(square(1000), aligned(1, 1)),
        Order::Take(100, 100),
        Order::Grow(square(3000)),
        Order::Look,
        Order::Take(1000, 2900),
        Order::Grow(square(2999)),
        Order::Grow(square(2147483647)),
        Order::Look,
    ];
    play(rt, &mut Tables::<8, 64>::new(), &orders)
}

// A sheet with options, and one request on it.
fn request_on<const SLOTS: usize, const WORDS: usize>(
    rt: &impl Print,
    tables: &mut Tables<SLOTS, WORDS>,
    sheet: Size,
    options: AllocatorOptions,
    width: i32,
    height: i32,
) -> io::Result<()> {
    let orders = [
        Order::Start(sheet, options),
        Order::Take(width, height),
        Order::Look,
    ];
    play(rt, tables, &orders)
}

// The same with eight slots.
fn one(
    rt: &impl Print,
    sheet: Size,
    options: AllocatorOptions,
    width: i32,
    height: i32,
) -> io::Result<()> {
    let mut tables = Tables::<8, 64>::new();
    request_on(rt, &mut tables, sheet, options, width, height)
}

// A request on a sheet of side 10, with as many slots as the tables have.
fn request_in<const SLOTS: usize, const WORDS: usize>(
    rt: &impl Print,
    mut tables: Tables<SLOTS, WORDS>,
    width: i32,
    height: i32,
) -> io::Result<()> {
    print!(rt; "N = {SLOTS}: ")?;
    request_on(rt, &mut tables, square(10), aligned(1, 1), width, height)
}

// Each needs one slot more than the one before.
fn tight(rt: &impl Print) -> io::Result<()> {
    request_in(rt, Tables::<1, 8>::new(), 10, 10)?;
    request_in(rt, Tables::<1, 8>::new(), 10, 4)?;
    request_in(rt, Tables::<2, 16>::new(), 10, 4)?;
    request_in(rt, Tables::<2, 16>::new(), 5, 10)?;
    request_in(rt, Tables::<3, 24>::new(), 5, 10)?;
    request_in(rt, Tables::<3, 24>::new(), 4, 4)?;
    request_in(rt, Tables::<4, 32>::new(), 4, 4)?;
    request_in(rt, Tables::<4, 32>::new(), 3, 6)?;
    request_in(rt, Tables::<5, 40>::new(), 3, 6)
}

// Requests that are rounded, too large, without space, and not positive.
fn requests(rt: &impl Print) -> io::Result<()> {
    one(rt, square(1000), aligned(5, 2), 7, 3)?;
    one(rt, square(1000), aligned(2, 1), 2147483647, 1)?;
    one(rt, square(1000), aligned(1, 1), 2147483647, 1)?;
    one(rt, square(1000), aligned(1, 1), 0, 1)?;
    one(rt, square(1000), aligned(1, 1), 1, 0)?;
    one(rt, square(1000), aligned(1, 1), -2147483648, 1)
}

// Sides at both ends, of buckets and of sheets. A request of 0x0 changes nothing: the sheet's one entry stands in its bucket's list.
fn sides(rt: &impl Print) -> io::Result<()> {
    for side in [31, 32, 255, 256, 1, 65536, 65537, 2147483647, 0, -1] {
        one(rt, square(side), aligned(1, 1), 0, 0)?;
    }
    Ok(())
}

// Thresholds and alignments at both ends.
fn thresholds(rt: &impl Print) -> io::Result<()> {
    let thresholds = [
        (-2147483648, 2147483647),
        (2147483647, 2147483647),
        (-2147483648, -2147483648),
        (33, 32),
    ];
    for (small, large) in thresholds {
        let options = AllocatorOptions {
            small,
            large,
            ..aligned(1, 1)
        };
        one(rt, square(100), options, 0, 0)?;
    }
    for (width, height) in [(2147483647, 2147483647), (0, 1), (1, -1)] {
        one(rt, square(100), aligned(width, height), 1, 1)?;
    }
    Ok(())
}

fn main(rt: HostRuntime) -> io::Result<()> {
    full(&rt)?;
    freed(&rt, 4, 6)?;
    freed(&rt, 6, 4)?;
    whole(&rt)?;
    larger(&rt)?;
    tight(&rt)?;
    requests(&rt)?;
    sides(&rt)?;
    thresholds(&rt)
}

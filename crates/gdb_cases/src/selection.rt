// The selection of a cut: read from a row, and printed.
use crate::table;
use gdb_select::{Range, Selection};
use std::io;

// A range, 0..0 where none is stated, and what stands behind its numbers.
fn range_at(t: &[u8]) -> (Range, &[u8]) {
    let (low, rest) = table::number(t);
    let (high, rest) = table::number(rest);
    let range = Range {
        low: (low.unwrap_or(0) % 65536) as u16,
        high: (high.unwrap_or(0) % 65536) as u16,
    };
    (range, rest)
}

// The selection that `t` states after a space: keep COUNT LOW..HIGH .., or drop likewise; a range that is not stated is 0..0.
pub(crate) fn stated(t: &[u8]) -> Selection {
    let (count, mut rest) = table::number(t);
    let mut ranges = [Range { low: 0, high: 0 }; 8];
    for r in &mut ranges {
        (*r, rest) = range_at(rest);
    }
    Selection {
        ranges,
        count: count.unwrap_or(0) as usize,
        keep: table::byte(t, 1) == b'k',
    }
}

fn range(rt: &impl Print, r: Range) -> io::Result<()> {
    print!(rt; " {}..{}", r.low, r.high)
}

fn counted(rt: &impl Print, keep: bool, count: usize) -> io::Result<()> {
    if keep {
        print!(rt; " keep {count}")
    } else {
        print!(rt; " drop {count}")
    }
}

// All eight ranges, stated or not.
pub(crate) fn shown(rt: &impl Print, selection: Selection) -> io::Result<()> {
    counted(rt, selection.keep, selection.count)?;
    for r in &selection.ranges {
        range(rt, *r)?;
    }
    Ok(())
}

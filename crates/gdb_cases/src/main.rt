// Runs the rows of a table of cases, in both byte orders, and writes the table with the answers. The R line is read in base 16 where a row
// says nothing of the base.
//
// Refusal 1 is tried in paper_cases/specs/Limit.antt: 67,108,864 bytes fit no array of a program, and there is no heap.
//
// A row gives a file, asks a question about the first one, calls a function over both, or is a note.
//   = PIECES      the first file: H the head, n 0A, "text", xAA a byte, w1 d1 q1 a number of 2, 4 or 8 bytes in the byte
//                 order of the run, c9 cut to 9 bytes
//   !2 PIECES     the same, asked with the byte order 2
//   + PIECES      the same, and what its reading answers
//   %10 PIECES    the same with the base 10
//   ? PIECES      the same, and its kind as a line
//   & PIECES      the second file
//   * CALL        a cut of the first file, a join of both, or a question about the pair: edit.rt and pair.rt
//   # NOTE
// The questions stand in ask.rt and steps.rt. Marks between a row's numbers are for the reader.
#![tactic(auto)]

ghost use Rattle.std.specs.Prelude.{◌≡◌, length};

mod ask;
mod edit;
mod file;
mod large;
mod pair;
mod row;
mod selection;
mod show;
mod steps;
mod table;

use file::File;
use gdb_format::Settings;
use std::io;

// What a row asks.
fn asked<'a>(
    rt: &impl Print,
    settings: Settings,
    a: &'a [u8],
    b: &'a [u8],
    t: &[u8],
) -> io::Result<()> {
    match table::byte(t, 0) {
        b'#' | b'=' | b'!' | b'&' => Ok(()),
        b'*' => {
            print!(rt; ":")?;
            edit::called(rt, settings, a, b, table::part(t, 2, t.len()))
        }
        _ => {
            print!(rt; ":")?;
            ask::question(rt, settings, a, t)
        }
    }
}

// A row's answer about the files that stand now.
fn answered(
    rt: &impl Print,
    first: File,
    second: File,
    settings: Settings,
    t: &[u8],
) -> io::Result<()> {
    asked(rt, settings, first.bytes(), second.bytes(), t)
}

fn run(rt: &impl Print, order: u8, t: &[u8]) -> io::Result<()> {
    let mut first = File::empty();
    let mut second = File::empty();
    let mut given = gdb_format::default_settings(order);
    for line in t.split_inclusive(|b| *b == b'\n') {
        let row = line.strip_suffix(b"\n").unwrap_or(line);
        show::text(rt, row)?;
        first = row::first(rt, first, order, row)?;
        second = row::second(rt, second, order, row)?;
        given = row::given(given, order, row);
        answered(rt, first, second, given, row)?;
        println!(rt)?;
    }
    Ok(())
}

// The table in one byte order.
fn tried(rt: &impl Print, order: u8, t: &[u8]) -> io::Result<()> {
    println!(rt; "order {order}")?;
    run(rt, order, t)?;
    large::memories(rt, order)
}

// Room for the table.
fn input_room() -> [u8; 65536]
    ensures { 65536 ≡ length result }
{
    input::room()
}

fn main(rt: HostRuntime) -> io::Result<()> {
    let mut buf = input_room();
    let n = input::read_full(&mut rt.stdin(), &mut buf)?;
    tried(&rt, 0, &buf[..n])?;
    tried(&rt, 1, &buf[..n])
}

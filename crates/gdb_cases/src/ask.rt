// The questions, each with its answer.
use crate::{show, steps, table};
use gdb_format::Settings;
use std::io;

fn count(rt: &impl Print, settings: Settings, file: &[u8]) -> io::Result<()> {
    match gdb_frames::frame_count(settings, file) {
        Ok(n) => print!(rt; " {n}"),
        Err(e) => show::refused(rt, e),
    }
}

fn end(rt: &impl Print, settings: Settings, file: &[u8]) -> io::Result<()> {
    match gdb_frames::end_mark(settings, file) {
        Ok(true) => print!(rt; " marked"),
        Ok(false) => print!(rt; " no mark"),
        Err(e) => show::refused(rt, e),
    }
}

fn line(rt: &impl Print, settings: Settings, file: &[u8], j: usize) -> io::Result<()> {
    match gdb_frames::line_place(settings, file, j) {
        Ok(line) => {
            print!(rt; " {}", line.kind)?;
            show::part(rt, line.part)?;
        }
        Err(e) => show::refused(rt, e)?,
    }
    print!(rt; " \"")?;
    show::text(rt, gdb_frames::line(settings, file, j))?;
    print!(rt; "\"")
}

// The number in frame n's head.
fn tracepoint(rt: &impl Print, settings: Settings, file: &[u8], n: usize) -> io::Result<()> {
    match gdb_frames::locate(settings, file, n) {
        Ok(found) => print!(rt; " {}", found.head.tracepoint),
        Err(e) => show::refused(rt, e),
    }
}

// Frame n's data, and how many heads were read for it.
fn frame(rt: &impl Print, settings: Settings, file: &[u8], n: usize) -> io::Result<()> {
    match gdb_seek::frame_place(settings, file, n) {
        Ok(found) => {
            show::part(rt, found.part)?;
            print!(rt; " heads {}", found.heads)?;
        }
        Err(e) => show::refused(rt, e)?,
    }
    show::bytes(rt, gdb_seek::frame_data(settings, file, n))
}

fn block(rt: &impl Print, settings: Settings, file: &[u8], n: usize, k: usize) -> io::Result<()> {
    match gdb_blocks::block_record(settings, file, n, k) {
        Ok(found) => show::block(rt, found),
        Err(e) => show::refused(rt, e),
    }
}

fn registers(rt: &impl Print, settings: Settings, file: &[u8], n: usize) -> io::Result<()> {
    show::place(rt, gdb_blocks::registers_place(settings, file, n))?;
    show::bytes(rt, gdb_blocks::registers(settings, file, n))
}

fn memory(
    rt: &impl Print,
    settings: Settings,
    file: &[u8],
    n: usize,
    address: u64,
) -> io::Result<()> {
    show::place(rt, gdb_blocks::memory_place(settings, file, n, address))?;
    show::bytes(rt, gdb_blocks::memory(settings, file, n, address))
}

fn variable(
    rt: &impl Print,
    settings: Settings,
    file: &[u8],
    n: usize,
    number: u64,
) -> io::Result<()> {
    let id = (number % 4294967296) as u32;
    show::value(rt, gdb_blocks::variable(settings, file, n, id))
}

// The question that `t` asks, by its first letter and one or two numbers:
// count, end, line J, frame N, tracepoint N, block N K, registers N, memory N ADDRESS, variable N NUMBER.
pub(crate) fn question(
    rt: &impl Print,
    settings: Settings,
    file: &[u8],
    t: &[u8],
) -> io::Result<()> {
    let (first, rest) = table::number(t);
    let (second, _) = table::number(rest);
    let n = first.unwrap_or(0) as usize;
    let x = second.unwrap_or(0);
    match table::byte(t, 0) {
        b'c' => count(rt, settings, file),
        b'e' => end(rt, settings, file),
        b'l' => line(rt, settings, file, n),
        b'f' => frame(rt, settings, file, n),
        b't' => tracepoint(rt, settings, file, n),
        b'b' => block(rt, settings, file, n, x as usize),
        b'r' => registers(rt, settings, file, n),
        b'm' => memory(rt, settings, file, n, x),
        b'v' => variable(rt, settings, file, n, x),
        _ => steps::question(rt, settings, file, t),
    }
}

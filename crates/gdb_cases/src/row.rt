// What a row gives: the first file, the second, and the settings of the calls. `order` is the run's.
use crate::file::File;
use crate::table;
use gdb_format::Settings;
use std::io;

// The file of the row's pieces. One that finds no room is told at once.
fn built(rt: &impl Print, order: u8, t: &[u8]) -> io::Result<File> {
    let f = File::of(order, t);
    if !f.has_room() {
        print!(rt; " no room")?;
    }
    Ok(f)
}

// The first file after the row, which was `f` before.
pub(crate) fn first(rt: &impl Print, f: File, order: u8, t: &[u8]) -> io::Result<File> {
    match table::byte(t, 0) {
        b'=' | b'!' | b'+' | b'%' | b'?' => built(rt, order, t),
        _ => Ok(f),
    }
}

// The second file, likewise.
pub(crate) fn second(rt: &impl Print, f: File, order: u8, t: &[u8]) -> io::Result<File> {
    if table::byte(t, 0) == b'&' {
        return built(rt, order, t);
    }
    Ok(f)
}

// The settings that are given: each first file states them anew.
pub(crate) fn given(before: Settings, order: u8, t: &[u8]) -> Settings {
    let (stated, _) = table::number(t);
    let number = (stated.unwrap_or(0) % 256) as u8;
    match table::byte(t, 0) {
        b'=' | b'+' | b'?' => gdb_format::default_settings(order),
        b'!' => gdb_format::default_settings(number),
        b'%' => Settings {
            order,
            base: number,
        },
        _ => before,
    }
}

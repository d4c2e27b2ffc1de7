// Memory of the largest length, 65,535, in a file of 65,561 bytes: too long for the table.
use crate::file::File;
use crate::{show, steps, table};
use std::io;

// A file's bytes with 0s behind them.
fn extended(bytes: &[u8]) -> [u8; 65561] {
    let mut all = [0; 65561];
    let n = bytes.len().min(all.len());
    all[..n].copy_from_slice(&bytes[..n]);
    all
}

// The file's first `len` bytes, all 0 behind the pieces.
fn memory(rt: &impl Print, order: u8, pieces: &[u8], len: usize) -> io::Result<()> {
    let all = extended(File::of(order, pieces).bytes());
    show::text(rt, pieces)?;
    print!(rt; " and 0s up to byte {len}:")?;
    let settings = gdb_format::default_settings(order);
    steps::summary(rt, settings, table::part(&all, 0, len))?;
    println!(rt)
}

// The block ends with the frame's data and the file; then the data, and last the file, is one byte shorter.
pub(crate) fn memories(rt: &impl Print, order: u8) -> io::Result<()> {
    memory(rt, order, b"+ H n w1 d65546 \"M\" q16 w65535", 65561)?;
    memory(rt, order, b"+ H n w1 d65545 \"M\" q16 w65535", 65560)?;
    memory(rt, order, b"+ H n w1 d65546 \"M\" q16 w65535", 65560)
}

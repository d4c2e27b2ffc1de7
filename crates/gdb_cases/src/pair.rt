// The questions about a pair of files.
use crate::{show, table};
use gdb_format::Settings;
use gdb_pair::PairPlace;
use refusals::Refusal;
use std::io;

fn place(rt: &impl Print, answer: Result<PairPlace, Refusal>) -> io::Result<()> {
    match answer {
        Ok(PairPlace::First(part)) => {
            print!(rt; " first")?;
            show::part(rt, part)
        }
        Ok(PairPlace::Second(part)) => {
            print!(rt; " second")?;
            show::part(rt, part)
        }
        Err(e) => show::refused(rt, e),
    }
}

fn frame<'a>(
    rt: &impl Print,
    settings: Settings,
    a: &'a [u8],
    b: &'a [u8],
    n: usize,
) -> io::Result<()> {
    place(rt, gdb_pair::pair_place(settings, a, b, n))?;
    show::bytes(rt, gdb_pair::pair_frame(settings, a, b, n))
}

// pair N, variable N NUMBER.
pub(crate) fn asked<'a>(
    rt: &impl Print,
    settings: Settings,
    a: &'a [u8],
    b: &'a [u8],
    t: &[u8],
) -> io::Result<()> {
    let (first, rest) = table::number(t);
    let (second, _) = table::number(rest);
    let n = first.unwrap_or(0) as usize;
    let number = (second.unwrap_or(0) % 4294967296) as u32;
    match table::byte(t, 0) {
        b'p' => frame(rt, settings, a, b, n),
        b'v' => show::value(rt, gdb_pair::pair_variable(settings, a, b, n, number)),
        _ => print!(rt; " no such call"),
    }
}

// The calls over both files, each with its answer.
use crate::{pair, selection, show, table};
use gdb_format::Settings;
use refusals::Refusal;
use std::io;

// The join of both files, or a cut of the first, into `out`. What is kept stands in `kept`.
fn written(
    settings: Settings,
    a: &[u8],
    b: &[u8],
    kept: &[u8],
    out: &mut [u8],
) -> Result<usize, Refusal> {
    if kept.is_empty() {
        return gdb_join::join(settings, a, b, out);
    }
    gdb_cut::cut(settings, a, selection::stated(kept), out)
}

// The answer, and the whole output, all A5 before.
fn edited(rt: &impl Print, settings: Settings, a: &[u8], b: &[u8], t: &[u8]) -> io::Result<()> {
    let (n, kept) = table::number(t);
    let mut all = [165; 256];
    let Some(out) = all.get_mut(..n.unwrap_or(0) as usize) else {
        print!(rt; " refused 255")?;
        return show::bytes(rt, &[]);
    };
    match written(settings, a, b, kept, out) {
        Ok(len) => print!(rt; " written {len}")?,
        Err(e) => show::refused(rt, e)?,
    }
    show::bytes(rt, out)
}

// cut ROOM SELECTION, join ROOM, opposite SELECTION, and the questions about the pair.
pub(crate) fn called<'a>(
    rt: &impl Print,
    settings: Settings,
    a: &'a [u8],
    b: &'a [u8],
    t: &[u8],
) -> io::Result<()> {
    match table::byte(t, 0) {
        b'c' | b'j' => edited(rt, settings, a, b, t),
        b'o' => {
            let stated = selection::stated(table::part(t, 8, t.len()));
            selection::shown(rt, gdb_select::opposite(stated))
        }
        _ => pair::asked(rt, settings, a, b, t),
    }
}

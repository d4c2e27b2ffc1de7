// The reading of a whole file, and what it finds at single places.
use crate::{show, table};
use gdb_data::{BlockStep, FrameLayout};
use gdb_format::{Format, Settings};
use gdb_read::{FrameStep, Opened};
use refusals::Refusal;
use std::io;

fn opened(rt: &impl Print, o: Opened) -> io::Result<()> {
    print!(rt; " start {}", o.start)?;
    match o.layout.size {
        Some(n) => print!(rt; " size {n}")?,
        None => print!(rt; " no size")?,
    }
    print!(rt; " frames {}", o.frames)?;
    if o.marked {
        print!(rt; " marked")?;
    }
    Ok(())
}

pub(crate) fn summary(rt: &impl Print, settings: Settings, file: &[u8]) -> io::Result<()> {
    match gdb_read::read(settings, file) {
        Ok(o) => opened(rt, o),
        Err(e) => show::refused(rt, e),
    }
}

fn block(rt: &impl Print, step: Result<Option<BlockStep>, Refusal>) -> io::Result<()> {
    match step {
        Ok(None) => print!(rt; " end"),
        Ok(Some(step)) => {
            show::block(rt, step.record)?;
            print!(rt; " next {}", step.next)
        }
        Err(e) => show::refused(rt, e),
    }
}

fn frame(rt: &impl Print, step: Result<Option<FrameStep>, Refusal>) -> io::Result<()> {
    match step {
        Ok(None) => print!(rt; " end"),
        Ok(Some(FrameStep { head, next })) => print!(rt;
            " tracepoint {} place {} size {} next {next}",
            head.tracepoint, head.place, head.size
        ),
        Err(e) => show::refused(rt, e),
    }
}

// What stands at a place: data AT SIZE, head AT, whole AT SIZE; without SIZE there is no R line.
fn at(rt: &impl Print, format: Format, s: &[u8], t: &[u8]) -> io::Result<()> {
    let (place, rest) = table::number(t);
    let (size, _) = table::number(rest);
    let size = size.map(|n| (n % 65536) as usize);
    let layout = FrameLayout { format, size };
    let k = place.unwrap_or(0) as usize;
    match table::byte(t, 0) {
        b'd' => block(rt, gdb_data::block_at(layout, s, k)),
        b'h' => frame(rt, gdb_read::head_at(format, s, k)),
        b'w' => frame(rt, gdb_read::frame_at(layout, s, k)),
        _ => print!(rt; " no such question"),
    }
}

// The questions: summary or +, of the whole file; ?, of the file as a line; and those about a place.
pub(crate) fn question(rt: &impl Print, settings: Settings, s: &[u8], t: &[u8]) -> io::Result<()> {
    match table::byte(t, 0) {
        b'+' | b'%' | b's' => summary(rt, settings, s),
        b'?' => print!(rt; " {}", gdb_format::line_kind(s)),
        _ => match Format::try_from(settings) {
            Ok(format) => at(rt, format, s, t),
            Err(e) => show::refused(rt, e),
        },
    }
}

// What the answers are printed as.
use gdb_data::BlockRecord;
use gdb_frames::Part;
use refusals::Refusal;
use std::io;

// Bytes of the table or of a file, as they are.
pub(crate) fn text(rt: &impl Print, t: &[u8]) -> io::Result<()> {
    rt.write_all(t)
}

pub(crate) fn refused(rt: &impl Print, e: Refusal) -> io::Result<()> {
    print!(rt; " refused {e}")
}

pub(crate) fn value(rt: &impl Print, answer: Result<i64, Refusal>) -> io::Result<()> {
    match answer {
        Ok(v) => print!(rt; " value {v}"),
        Err(e) => refused(rt, e),
    }
}

// Bytes of a file, in brackets, so that an empty part shows.
pub(crate) fn bytes(rt: &impl Print, part: &[u8]) -> io::Result<()> {
    print!(rt; " [")?;
    for b in part {
        print!(rt; " {b:02x}")?;
    }
    print!(rt; " ]")
}

pub(crate) fn part(rt: &impl Print, part: Part) -> io::Result<()> {
    print!(rt; " place {} length {}", part.place, part.length)
}

pub(crate) fn place(rt: &impl Print, answer: Result<Part, Refusal>) -> io::Result<()> {
    match answer {
        Ok(found) => part(rt, found),
        Err(e) => refused(rt, e),
    }
}

pub(crate) fn block(rt: &impl Print, block: BlockRecord) -> io::Result<()> {
    print!(rt; " place {} {}", block.place, block.kind)
}

// Questions about the lines and frames of a GDB trace. Each takes any file and any arguments, and reads the whole file first. (The data of frame n: gdb_seek.)
#![tactic(auto)]

ghost use Rattle.std.specs.Prelude.{◌≡◌};
ghost use Rattle.fields.specs.Answer.{accepted};
ghost use Rattle.fields.specs.Meaning.{answer_of};
ghost use Rattle.gdb_frames.specs.Places.{part_named};
ghost use Rattle.gdb_frames.specs.Questions.{asked, frame_count, end_mark, line_at, line_place, Handed};
ghost use Rattle.gdb_frames.specs.Questions.{part_given, place_meaning, line_meaning};
ghost use Rattle.gdb_frames.specs.Nth.{nth_head, nth_line};
ghost use Rattle.gdb_frames.specs.Located.{located_meaning, frame_located};
ghost use Rattle.gdb_read.specs.Steps.{frame_meaning};

use gdb_data::FrameLayout;
use gdb_format::{Format, LineKind, Settings};
use gdb_read::{FrameHead, FrameStep};
use refusals::Refusal;

// The number of frames.
pub fn frame_count(settings: Settings, file: &[u8]) -> Result<usize, Refusal>
    ensures { answer_of result ≡ asked settings file.now frame_count }
{
    Ok(gdb_read::read(settings, file)?.frames)
}

// Whether the end mark is there.
pub fn end_mark(settings: Settings, file: &[u8]) -> Result<bool, Refusal>
    ensures { answer_of result ≡ asked settings file.now end_mark }
{
    Ok(gdb_read::read(settings, file)?.marked)
}

// A part of the file, by its place and length.
#[derive(Clone, Copy, Debug, PartialEq, Eq)]
pub struct Part {
    pub place: usize,
    pub length: usize,
}

impl Part {
    // The bytes there; none where they are not all in the file.
    pub fn bytes(self, file: &[u8]) -> &[u8]
        ensures { result.now ≡ part_named file.now (accepted (self.place, self.length)) }
    {
        if file.len() < self.place || file.len() - self.place < self.length {
            return &file[..0];
        }
        &file[self.place..self.place + self.length]
    }
}

// The part of the file that an answer names; empty where it refuses, whatever the refusal is, and where it names none of the file.
pub fn part_of<E: Drop>(file: &[u8], answer: Result<Part, E>) -> &[u8]
    ensures { result.now ≡ part_given file.now answer }
{
    match answer {
        Ok(part) => part.bytes(file),
        Err(_) => &file[..0],
    }
}

// The frame that n further heads lead to from `from`; blocks are not looked at.
pub fn nth_head(
    format: Format,
    s: &[u8],
    from: usize,
    n: usize,
) -> Result<Option<FrameStep>, Refusal>
    ensures { frame_meaning result ≡ nth_head format s.now n from }
{
    let mut at = from;
    for _ in 0..n {
        match gdb_read::head_at(format, s, at)? {
            Some(step) => at = step.next,
            None => return Ok(None),
        }
    }
    gdb_read::head_at(format, s, at)
}

// A frame of an accepted file: how the file's frames are laid out, and the frame's head.
#[derive(Clone, Copy, Debug, PartialEq, Eq)]
pub struct Located {
    pub layout: FrameLayout,
    pub head: FrameHead,
}

// Frame n, found after the whole file was read.
pub fn locate(settings: Settings, file: &[u8], n: usize) -> Result<Located, Refusal>
    ensures { located_meaning result ≡ asked settings file.now (frame_located n) }
{
    let opened = gdb_read::read(settings, file)?;
    let frames = gdb_read::front(file, opened.end);
    let Some(step) = nth_head(opened.layout.format, frames, opened.start, n)? else {
        return Err(Refusal::NotFound);
    };
    Ok(Located {
        layout: opened.layout,
        head: step.head,
    })
}

// The line that j further lines lead to from `from`; refused where the description ends first.
fn nth_line(s: &[u8], from: usize, j: usize) -> Result<Part, Refusal>
    ensures { place_meaning result ≡ nth_line s.now j from }
{
    let mut at = from;
    for _ in 0..j {
        let end = gdb_format::line_end(s, at);
        if end <= at || s.len() <= end {
            return Err(Refusal::NotFound);
        }
        at = end + 1;
    }
    let end = gdb_format::line_end(s, at);
    if end <= at {
        return Err(Refusal::NotFound);
    }
    Ok(Part {
        place: at,
        length: end - at,
    })
}

// A description line: its kind, and where it stands, without its 0A.
#[derive(Clone, Copy, Debug, PartialEq, Eq)]
pub struct DescriptionLine {
    pub kind: LineKind,
    pub part: Part,
}

// Line j of the description, the closing empty one not counted.
pub fn line_place(settings: Settings, file: &[u8], j: usize) -> Result<DescriptionLine, Refusal>
    ensures { line_meaning result ≡ asked settings file.now (line_at j) }
{
    gdb_read::read(settings, file)?;
    let part = nth_line(file, 8, j)?;
    let kind = gdb_format::line_kind(part.bytes(file));
    Ok(DescriptionLine { kind, part })
}

pub fn line(settings: Settings, file: &[u8], j: usize) -> &[u8]
    ensures { Handed file.now (asked settings file.now (line_place j)) result.now }
{
    let Ok(line) = line_place(settings, file, j) else {
        return &file[..0];
    };
    line.part.bytes(file)
}

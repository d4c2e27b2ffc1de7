// Reading a GDB trace: what frame stands at a place, and the whole file.
#![tactic(auto)]

ghost use Rattle.std.specs.Prelude.{◌≡◌, ◌-◌, ◌<◌, ◌≤◌, length, take, drop};
ghost use Rattle.refusals.specs.Number.{number};
ghost use Rattle.fields.specs.Answer.{refused};
ghost use Rattle.fields.specs.Word.{same_bytes};
ghost use Rattle.fields.specs.Reader.{step_at};
ghost use Rattle.gdb_format.specs.Trace.{mark, put_mark};
ghost use Rattle.gdb_format.specs.Opening.{size_meaning};
ghost use Rattle.gdb_format.specs.declared.Format.{Format};
ghost use Rattle.gdb_format.specs.Decode.{frame_head, frame, decode};
ghost use Rattle.gdb_format.specs.Decode.{read as file_read};
ghost use Rattle.gdb_read.specs.Steps.{frame_meaning, head_seen, frame_seen, frames_meaning, frames_counted, reading_meaning, summary_in, read_seen};

use fields::Order;
use gdb_data::FrameLayout;
use gdb_format::{Format, Settings};
use refusals::{LIMIT, Refusal};

// A frame's head: its tracepoint number, and the place and size of its data.
#[derive(Clone, Copy, Debug, PartialEq, Eq)]
pub struct FrameHead {
    pub tracepoint: u16,
    pub place: usize,
    pub size: usize,
}

// A step of a walk over frames: the head of the frame that stands there, and the place after the frame.
#[derive(Clone, Copy, Debug, PartialEq, Eq)]
pub struct FrameStep {
    pub head: FrameHead,
    pub next: usize,
}

// Why the 1 to 5 bytes from `at` on begin no frame, in either order: two bytes of 0 begin the end mark.
fn short_head(s: &[u8], at: usize) -> Refusal
    requires { (at < length s.now) × (length s.now - at < 6) }
    ensures { (f : Format) → refused (number result) ≡ step_at head_seen (frame_head f) s.now at }
{
    if s.len() - at < 2 {
        return Refusal::ShortHead;
    }
    if fields::u16_at(s, Order::Little, at) == 0 {
        return Refusal::BadMark;
    }
    Refusal::ShortHead
}

// The frame at `at`, none at the end of the file; its blocks are not looked at. The end mark is no frame: 18 here. So a walk is given the file up to where
// its frames end (`front`), goes by their number, or asks for the mark first (`frames_from`, and `gdb_seek` for one frame).
// Two bytes are 0 in both orders or in neither, so they are tested without a look at the order: the whole reading asks for no number.
pub fn head_at(format: Format, s: &[u8], at: usize) -> Result<Option<FrameStep>, Refusal>
    ensures { frame_meaning result ≡ step_at head_seen (frame_head format) s.now at }
{
    if s.len() <= at {
        return Ok(None);
    }
    if s.len() - at < 6 {
        return Err(short_head(s, at));
    }
    if fields::u16_at(s, Order::Little, at) == 0 {
        return Err(Refusal::BadMark);
    }
    let tracepoint = fields::u16_at(s, format.order, at);
    let size = fields::u32_at(s, format.order, at + 2) as usize;
    let place = at + 6;
    if s.len() - place < size {
        return Err(Refusal::DataPastFile);
    }
    let head = FrameHead {
        tracepoint,
        place,
        size,
    };
    Ok(Some(FrameStep {
        head,
        next: place + size,
    }))
}

// The frame at `at` with all its blocks; none at the end of the file.
pub fn frame_at(layout: FrameLayout, s: &[u8], at: usize) -> Result<Option<FrameStep>, Refusal>
    ensures { frame_meaning result ≡ step_at (frame_seen layout.format) (frame layout.format (size_meaning layout.size)) s.now at }
{
    let Some(step) = head_at(layout.format, s, at)? else {
        return Ok(None);
    };
    gdb_data::blocks_from(layout, &s[..step.next], step.head.place)?;
    Ok(Some(step))
}

// Whether the end mark stands at a place that is not behind the end: exactly four bytes to the end, all 0.
fn mark_here(s: &[u8], at: usize) -> bool
    requires { at ≤ length s.now }
    ensures { result ≡ same_bytes (drop at s.now) mark }
{
    if s.len() - at != 4 {
        return false;
    }
    fields::u32_at(s, Order::Little, at) == 0
}

// Whether the end mark stands at `at`.
pub fn mark_at(s: &[u8], at: usize) -> bool
    ensures { result ≡ same_bytes (drop at s.now) mark }
{
    at <= s.len() && mark_here(s, at)
}

// How many bytes the end mark takes, where there is one.
pub fn mark_length(marked: bool) -> usize
    ensures { result ≡ length (put_mark marked) }
{
    if marked { 4 } else { 0 }
}

// So many frames, and whether the end mark stands behind them.
#[derive(Clone, Copy, Debug, PartialEq, Eq)]
pub struct FrameCount {
    pub count: usize,
    pub marked: bool,
}

// How many frames stand in `s` from `from` on, up to its end or to the end mark; or the refusal of the first that does not fit. Behind the end stand none:
// tested once, and no turn tests it.
pub fn frames_from(layout: FrameLayout, s: &[u8], from: usize) -> Result<FrameCount, Refusal>
    ensures { frames_meaning result ≡ frames_counted layout.format (size_meaning layout.size) (drop from s.now) }
{
    if s.len() < from {
        return Ok(FrameCount {
            count: 0,
            marked: false,
        });
    }
    let mut at = from;
    let mut count: usize = 0;
    loop {
        if mark_here(s, at) {
            return Ok(FrameCount {
                count,
                marked: true,
            });
        }
        let Some(step) = frame_at(layout, s, at)? else {
            return Ok(FrameCount {
                count,
                marked: false,
            });
        };
        at = step.next;
        count += 1;
    }
}

// A file that was read whole: how its frames are laid out, where its frames start and end, how many it has, and whether the mark
// stands behind them.
#[derive(Clone, Copy, Debug, PartialEq, Eq)]
pub struct Opened {
    pub layout: FrameLayout,
    pub start: usize,
    pub end: usize,
    pub frames: usize,
    pub marked: bool,
}

// The bytes up to `end`, all of them where there are fewer. A walk over heads is given the file up to where its frames end.
pub fn front(s: &[u8], end: usize) -> &[u8]
    ensures { result.now ≡ take end s.now }
{
    &s[..end.min(s.len())]
}

// A call of its own, so that what it needs of the stack is given back before a question walks to its answer.
#[inline(never)]
fn read_as(format: Format, file: &[u8]) -> Result<Opened, Refusal>
    ensures { reading_meaning result ≡ summary_in format (decode format file.now) }
{
    if LIMIT < file.len() {
        return Err(Refusal::TooLong);
    }
    let opening = gdb_format::opening_of(format, file)?;
    let layout = FrameLayout {
        format,
        size: opening.size,
    };
    let frames = frames_from(layout, file, opening.end)?;
    Ok(Opened {
        layout,
        start: opening.end,
        end: file.len() - mark_length(frames.marked),
        frames: frames.count,
        marked: frames.marked,
    })
}

// The whole file, read under the caller's settings.
pub fn read(settings: Settings, file: &[u8]) -> Result<Opened, Refusal>
    ensures { reading_meaning result ≡ read_seen (file_read settings file.now) }
{
    read_as(Format::try_from(settings)?, file)
}

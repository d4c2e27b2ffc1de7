// Frame n of a GDB trace by the parts of the file that show it: the opening, the heads of frames 0 to n, and the blocks of frame n. What stands
// elsewhere is not read: such a frame costs what these parts cost, and is found in a file, too, that is at fault behind it or in an earlier frame's blocks.
#![tactic(auto)]

ghost use Rattle.std.specs.Prelude.{◌≡◌};
ghost use Rattle.gdb_format.specs.Opening.{size_meaning};
ghost use Rattle.gdb_frames.specs.Questions.{Handed};
ghost use Rattle.gdb_seek.specs.Walk.{walk_to};
ghost use Rattle.gdb_seek.specs.Found.{judged, found_in, frame_found, data_found, found_meaning};
ghost use Rattle.gdb_seek.specs.Turns.{step_meaning, frame_there, reached_meaning, arrived};

use gdb_data::FrameLayout;
use gdb_format::{Format, Settings};
use gdb_frames::Part;
use gdb_read::{FrameHead, FrameStep};
use refusals::{LIMIT, Refusal};

// The frame whose head stands at `at`, its blocks not looked at; the end mark counts as the end, and so as no frame.
// Put into the walk: a call would cost some 16 instructions a head.
#[inline(always)]
fn frame_there(format: Format, s: &[u8], at: usize) -> Result<FrameStep, Refusal>
    ensures { step_meaning result ≡ frame_there format s.now at }
{
    if gdb_read::mark_at(s, at) {
        return Err(Refusal::NotFound);
    }
    gdb_read::head_at(format, s, at)?.ok_or(Refusal::NotFound)
}

// The head that a walk was to reach, and how many it has read.
#[derive(Clone, Copy, Debug, PartialEq, Eq)]
struct Reached {
    head: FrameHead,
    heads: usize,
}

// The head of frame n of those that start at `from`.
fn walk_to(format: Format, s: &[u8], from: usize, n: usize) -> Result<Reached, Refusal>
    ensures { reached_meaning result ≡ arrived (walk_to format s.now n from) }
{
    let mut at = from;
    for _ in 0..n {
        at = frame_there(format, s, at)?.next;
    }
    let head = frame_there(format, s, at)?.head;
    Ok(Reached { head, heads: n + 1 })
}

// The data of a frame, and how many frame heads were read for it.
#[derive(Clone, Copy, Debug, PartialEq, Eq)]
pub struct FoundFrame {
    pub part: Part,
    pub heads: usize,
}

// The frame that a walk from `from` reaches. It is judged as the one frame of the file up to its end, by the whole reading's own walk: a second caller
// of the walk over blocks would keep that from being inlined there, and cost the whole reading half as much again for short frames.
fn frame_behind(
    layout: FrameLayout,
    file: &[u8],
    from: usize,
    n: usize,
) -> Result<FoundFrame, Refusal>
    ensures { found_meaning result ≡ judged layout.format (size_meaning layout.size) file.now (walk_to layout.format file.now n from) }
{
    let Reached { head, heads } = walk_to(layout.format, file, from, n)?;
    let end = head.place + head.size;
    gdb_read::frames_from(layout, &file[..end], head.place - 6)?;
    let part = Part {
        place: head.place,
        length: head.size,
    };
    Ok(FoundFrame { part, heads })
}

fn frame_in(format: Format, file: &[u8], n: usize) -> Result<FoundFrame, Refusal>
    ensures { found_meaning result ≡ found_in format file.now n }
{
    if LIMIT < file.len() {
        return Err(Refusal::TooLong);
    }
    let opening = gdb_format::opening_of(format, file)?;
    let layout = FrameLayout {
        format,
        size: opening.size,
    };
    frame_behind(layout, file, opening.end, n)
}

// The data of frame n.
pub fn frame_place(settings: Settings, file: &[u8], n: usize) -> Result<FoundFrame, Refusal>
    ensures { found_meaning result ≡ frame_found settings file.now n }
{
    frame_in(Format::try_from(settings)?, file, n)
}

pub fn frame_data(settings: Settings, file: &[u8], n: usize) -> &[u8]
    ensures { Handed file.now (data_found settings file.now n) result.now }
{
    gdb_frames::part_of(file, frame_place(settings, file, n).map(|found| found.part))
}

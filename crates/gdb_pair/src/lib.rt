// Two GDB traces read as if they were joined, with no copy made.
#![tactic(auto)]

ghost use Rattle.std.specs.Prelude.{◌≡◌, take};
ghost use Rattle.fields.specs.Meaning.{answer_of};
ghost use Rattle.gdb_frames.specs.Nth.{nth_head};
ghost use Rattle.gdb_frames.specs.Questions.{place_meaning};
ghost use Rattle.gdb_pair.specs.Pair.{found_place, pair_place, pair_place_meaning, HandedPair, pair_variable};

use gdb_format::Settings;
use gdb_frames::Part;
use gdb_read::Opened;
use refusals::Refusal;

// The data of frame n of a file that was read.
fn frame_in(opened: Opened, file: &[u8], n: usize) -> Result<Part, Refusal>
    ensures { place_meaning result ≡ found_place (nth_head opened.layout.format (take opened.end file.now) n opened.start) }
{
    let frames = gdb_read::front(file, opened.end);
    let Some(step) = gdb_frames::nth_head(opened.layout.format, frames, opened.start, n)? else {
        return Err(Refusal::NotFound);
    };
    Ok(Part {
        place: step.head.place,
        length: step.head.size,
    })
}

// Which trace a frame's data stand in, and where.
#[derive(Clone, Copy, Debug, PartialEq, Eq)]
pub enum PairPlace {
    First(Part),
    Second(Part),
}

// Frame n of the two traces, read as if joined.
pub fn pair_place(
    settings: Settings,
    first: &[u8],
    second: &[u8],
    n: usize,
) -> Result<PairPlace, Refusal>
    ensures { pair_place_meaning result ≡ pair_place settings first.now second.now n }
{
    let pair = gdb_join::joinable(settings, first, second)?;
    let frames = pair.first.frames;
    if n < frames {
        return Ok(PairPlace::First(frame_in(pair.first, first, n)?));
    }
    Ok(PairPlace::Second(frame_in(pair.second, second, n - frames)?))
}

// The data of frame n of the two traces, as that part of the first or of the second.
pub fn pair_frame<'a>(settings: Settings, first: &'a [u8], second: &'a [u8], n: usize) -> &'a [u8]
    ensures { HandedPair first.now second.now (pair_place settings first.now second.now n) result.now }
{
    match pair_place(settings, first, second, n) {
        Ok(PairPlace::First(part)) => part.bytes(first),
        Ok(PairPlace::Second(part)) => part.bytes(second),
        Err(_) => &first[..0],
    }
}

// The value of a variable in frame n of the two traces.
pub fn pair_variable(
    settings: Settings,
    first: &[u8],
    second: &[u8],
    n: usize,
    number: u32,
) -> Result<i64, Refusal>
    ensures { answer_of result ≡ pair_variable settings first.now second.now n number }
{
    let count = gdb_join::joinable(settings, first, second)?.first.frames;
    if n < count {
        return gdb_blocks::variable(settings, first, n, number);
    }
    gdb_blocks::variable(settings, second, n - count, number)
}

// The frame table of a GDB trace: one record per frame, in a list of records that the caller lends.
#![tactic(auto)]

ghost use Rattle.std.specs.Prelude.{◌≡◌, length};
ghost use Rattle.gdb_read.specs.Steps.{head_meaning};
ghost use Rattle.fields.specs.Meaning.{answer_of};
ghost use Rattle.fields.specs.Output.{Lent};
ghost use Rattle.gdb_frames.specs.Questions.{asked, place_meaning};
ghost use Rattle.gdb_table.specs.Records.{record_of, frame_table};
ghost use Rattle.gdb_table.specs.Walk.{no_frame, registers_shown, step_from, records_from};

use gdb_data::FrameLayout;
use gdb_format::Settings;
use gdb_frames::Part;
use gdb_read::FrameHead;
use refusals::Refusal;

// A frame's record: its tracepoint number, the place of its data, and their size; whether it has a register block, 1 or 0, and the place of the earliest
// one's bytes, 0 if not. The yes or no is a byte, since a lent record may hold any byte there.
#[repr(C)]
#[derive(Clone, Copy, Debug, PartialEq, Eq)]
pub struct FrameRecord {
    pub tracepoint: u16,
    pub has_registers: u8,
    pub place: usize,
    pub size: usize,
    pub registers_place: usize,
}

// The one place where a record is made: of a frame's head, and of where its registers are.
fn record_of(head: FrameHead, registers: Result<Part, Refusal>) -> FrameRecord
    ensures { result ≡ record_of (head_meaning head) (place_meaning registers) }
{
    FrameRecord {
        tracepoint: head.tracepoint,
        has_registers: registers.is_ok() as u8,
        place: head.place,
        size: head.size,
        registers_place: registers.map_or(0, |part| part.place),
    }
}

// The registers of a frame. Without an R line there are none, and its blocks are not looked at.
fn registers_of(layout: FrameLayout, file: &[u8], head: FrameHead) -> Result<Part, Refusal>
    ensures { place_meaning result ≡ registers_shown layout file.now (head_meaning head) }
{
    match layout.size {
        Some(_) => gdb_blocks::frame_registers(layout, file, head),
        None => Err(Refusal::NotFound),
    }
}

// A frame's record, and the place after the frame.
#[derive(Clone, Copy, Debug, PartialEq, Eq)]
struct Step {
    found: FrameRecord,
    next: usize,
}

// Where no frame stands: zeros.
fn nothing() -> Step
    ensures { result ≡ no_frame }
{
    let head = FrameHead {
        tracepoint: 0,
        place: 0,
        size: 0,
    };
    Step {
        found: record_of(head, Err(Refusal::NotFound)),
        next: 0,
    }
}

// The frame at `at`. It answers for every place, so that a walk has nothing to show first.
fn step_at(layout: FrameLayout, file: &[u8], at: usize) -> Step
    ensures { result ≡ step_from layout file.now at }
{
    match gdb_read::head_at(layout.format, file, at) {
        Ok(Some(step)) => Step {
            found: record_of(step.head, registers_of(layout, file, step.head)),
            next: step.next,
        },
        _ => nothing(),
    }
}

// Writes the records of the frames from `start` on, as many as `out` has.
fn fill(layout: FrameLayout, file: &[u8], start: usize, out: &mut [FrameRecord])
    ensures { out.new ≡ records_from layout file.now (length out.old) start }
{
    let mut at = start;
    for record in out.iter_mut() {
        let step = step_at(layout, file, at);
        *record = step.found;
        at = step.next;
    }
}

// The records of the frames, written to the start of `out`, and their number; nothing is written on a refusal.
pub fn table(settings: Settings, file: &[u8], out: &mut [FrameRecord]) -> Result<usize, Refusal>
    ensures { Lent (asked settings file.now frame_table) out.old (answer_of result) out.new }
{
    let opened = gdb_read::read(settings, file)?;
    if out.len() < opened.frames {
        return Err(Refusal::NoRoom);
    }
    fill(opened.layout, file, opened.start, &mut out[..opened.frames]);
    Ok(opened.frames)
}

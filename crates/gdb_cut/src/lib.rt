// Cutting GDB traces into an output that the caller lends.
#![tactic(auto)]

ghost use Rattle.std.specs.Prelude.{◌≡◌, ◌+◌, ◌≤◌, leb, length};
ghost use Rattle.fields.specs.Copies.{Overwritten};
ghost use Rattle.fields.specs.Meaning.{answer_of};
ghost use Rattle.fields.specs.Output.{Lent};
ghost use Rattle.gdb_cut.specs.Cut.{cut_of};
ghost use Rattle.gdb_cut.specs.Kept.{HeadsFrom};

use gdb_format::{Format, Settings};
use gdb_select::Selection;
use refusals::Refusal;

// A walk over the frames that a selection keeps, each with its head, from `at` on. The file ends where its frames do.
#[derive(Clone, Copy)]
struct KeptFrames<'a> {
    format: Format,
    file: &'a [u8],
    selection: Selection,
    at: usize,
    ghost whole: { HeadsFrom format file.now at },
}

impl<'a> Iterator for KeptFrames<'a> {
    ghost use Rattle.std.specs.Iterator.{YieldsFirstRef, item_count};
    ghost use Rattle.gdb_cut.specs.Left.{frames_left};

    type Item = &'a [u8];

    ghost next_gives = { YieldsFirstRef frames_left };

    ghost remaining = { item_count frames_left };

    // Put into both loops: a call would cost some 30 instructions a frame.
    #[inline(always)]
    fn next(&mut self) -> Option<&'a [u8]> {
        // None of these heads is refused. (An unwrap would leave a trap in the library.)
        while let Ok(Some(step)) = gdb_read::head_at(self.format, self.file, self.at) {
            let from = self.at;
            self.at = step.next;
            if gdb_select::is_selected(self.selection, step.head.tracepoint) {
                return Some(&self.file[from..step.next]);
            }
        }
        None
    }
}

impl<'a> KeptFrames<'a> {
    ghost use Rattle.gdb_cut.specs.Left.{cut_bytes};

    // How long the cut is: the opening, which ends at `at`, and the frames.
    fn cut_length(self) -> usize
        ensures { result ≡ length (cut_bytes self.entry) }
    {
        let mut len = self.at;
        for frame in self {
            len += frame.len();
        }
        len
    }

    // Whether the cut with a mark of `mark` bytes fits into `room` bytes. It is no longer than the file, so that where the file fits the frames need no walk.
    fn has_room(self, mark: usize, room: usize) -> bool
        ensures { result ≡ leb (length (cut_bytes self.entry) + mark) room }
    {
        if room < mark {
            return false;
        }
        let left = room - mark;
        if self.file.len() <= left {
            return true;
        }
        self.cut_length() <= left
    }

    // Writes the opening and the frames; the caller has seen that there is room.
    fn write_cut(self, out: &mut [u8]) -> usize
        requires { length (cut_bytes self) ≤ length out.old }
        ensures { Overwritten (cut_bytes self.entry) out.old result out.new }
    {
        byte_runs::copy(&self.file[..self.at], out);
        let mut len = self.at;
        for frame in self {
            byte_runs::copy(frame, &mut out[len..]);
            len += frame.len();
        }
        len
    }
}

// The opening of `file`, its frames that the selection selects, and its end mark, if it has one.
pub fn cut(
    settings: Settings,
    file: &[u8],
    selection: Selection,
    out: &mut [u8],
) -> Result<usize, Refusal>
    ensures { Lent (cut_of settings selection file.now) out.old (answer_of result) out.new }
{
    if !gdb_select::is_valid(selection) {
        return Err(Refusal::BadArgument);
    }
    let opened = gdb_read::read(settings, file)?;
    let kept = KeptFrames {
        format: opened.layout.format,
        file: gdb_read::front(file, opened.end),
        selection,
        at: opened.start,
    };
    let mark = &file[opened.end..];
    if !kept.has_room(mark.len(), out.len()) {
        return Err(Refusal::NoRoom);
    }
    let len = kept.write_cut(out);
    Ok(len + byte_runs::copy(mark, &mut out[len..]))
}

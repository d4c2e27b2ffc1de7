// Joining GDB traces into an output that the caller lends.
#![tactic(auto)]

ghost use Rattle.std.specs.Prelude.{◌≡◌, ◌||◌, ◌++◌, ◌+◌, ◌≤◌, length};
ghost use Rattle.fields.specs.Copies.{Overwritten};
ghost use Rattle.fields.specs.Meaning.{answer_of};
ghost use Rattle.fields.specs.Output.{Lent};
ghost use Rattle.gdb_format.specs.Trace.{put_mark};
ghost use Rattle.gdb_join.specs.Join.{join_of};
ghost use Rattle.gdb_join.specs.JoinLaws.{joined_length, Countable};
ghost use Rattle.gdb_join.specs.Joined.{pair_meaning, pair_seen};
ghost use Rattle.gdb_read.specs.Steps.{opened_meaning};

use gdb_format::Settings;
use gdb_read::Opened;
use refusals::{LIMIT, Refusal};

// Two traces that can be joined, each as it was read.
#[derive(Clone, Copy, Debug, PartialEq, Eq)]
pub struct Pair {
    pub first: Opened,
    pub second: Opened,
}

impl Pair {
    // Whether the join has the end mark: if either trace has.
    fn is_marked(self) -> bool
        ensures { result ≡ self.first.marked || self.second.marked }
    {
        self.first.marked || self.second.marked
    }

    // How long the join is: the mark counts once.
    fn joined_length(self) -> usize
        requires { Countable (opened_meaning self.first) (opened_meaning self.second) }
        ensures { result ≡ joined_length (opened_meaning self.first) (opened_meaning self.second) }
    {
        let frames = self.second.end - self.second.start;
        self.first.end + frames + gdb_read::mark_length(self.is_marked())
    }
}

// The two as they were read, or the join's refusal.
pub fn joinable(settings: Settings, first: &[u8], second: &[u8]) -> Result<Pair, Refusal>
    ensures { pair_meaning result ≡ pair_seen settings first.now second.now }
{
    let a = gdb_read::read(settings, first)?;
    let b = gdb_read::read(settings, second)?;
    if !byte_runs::same(&first[..a.start], &second[..b.start]) {
        return Err(Refusal::OpeningsDiffer);
    }
    let pair = Pair {
        first: a,
        second: b,
    };
    if LIMIT < pair.joined_length() {
        return Err(Refusal::TooLong);
    }
    Ok(pair)
}

// Writes the end mark, if there is to be one.
fn put_mark(marked: bool, out: &mut [u8]) -> usize
    requires { length (put_mark marked) ≤ length out.old }
    ensures { Overwritten (put_mark marked) out.old result out.new }
{
    if marked {
        return byte_runs::copy(&[0, 0, 0, 0], out);
    }
    0
}

// Writes the opening with the first trace's frames, the second's frames and the mark; the caller has seen that there is room.
fn write_join(first: &[u8], second: &[u8], marked: bool, out: &mut [u8]) -> usize
    requires { length first.now + length second.now + length (put_mark marked) ≤ length out.old }
    ensures { Overwritten ((first.now ++ second.now) ++ put_mark marked) out.old result out.new }
{
    let one = byte_runs::copy(first, out);
    let both = one + byte_runs::copy(second, &mut out[one..]);
    both + put_mark(marked, &mut out[both..])
}

// The common opening, the first trace's frames and the second's, and one end mark if either has one.
pub fn join(
    settings: Settings,
    first: &[u8],
    second: &[u8],
    out: &mut [u8],
) -> Result<usize, Refusal>
    ensures { Lent (join_of settings first.now second.now) out.old (answer_of result) out.new }
{
    let pair = joinable(settings, first, second)?;
    if out.len() < pair.joined_length() {
        return Err(Refusal::NoRoom);
    }
    let body = &first[..pair.first.end];
    let frames = &second[pair.second.start..pair.second.end];
    let marked = pair.is_marked();
    Ok(write_join(body, frames, marked, out))
}

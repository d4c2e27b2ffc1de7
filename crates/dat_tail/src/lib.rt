// The tail of a header: options, if there are any, and the ending with its CPU entries.
#![tactic(auto)]

ghost use Rattle.std.specs.Prelude.{◌≡◌, ◌≤◌, length};
ghost use Rattle.fields.specs.Reader.{seen_at, pass_at};
ghost use Rattle.fields.specs.declared.Order.{Order};
ghost use Rattle.fields.specs.Meaning.{answer_by, answer_of};
ghost use Rattle.dat_format.specs.Pieces.{times};
ghost use Rattle.dat_format.specs.Decode.{word, options, range, ending, tail_after, tail};
ghost use Rattle.dat_format.specs.Header.{options_word};
ghost use Rattle.dat_read.specs.Steps.{step_meaning};
ghost use Rattle.dat_read.specs.Summary.{ending_parts, tail_parts, tail_parts_after};
ghost use Rattle.dat_tail.specs.Steps.{word_meaning, word_told, word_step_meaning, word_seen};

use dat_read::pieces::Width;
use dat_read::summary::{EndingKind, Part, TailParts};
use dat_read::{pieces, summary};
use fields::Order;
use refusals::Refusal;

// The 10-byte words.
#[derive(Clone, Copy, Debug, PartialEq, Eq)]
pub(crate) enum Word {
    Options,
    Latency,
    Flyrecord,
}

// The word that ten bytes are. (By `begins`: of a `match` on the three strings 31 goals were left, one for each byte and each word.)
fn word_of(found: &[u8]) -> Result<Word, Refusal>
    ensures { answer_by word_meaning result ≡ word_told found.now }
{
    if fields::begins(found, b"options  \0") {
        Ok(Word::Options)
    } else if fields::begins(found, b"latency  \0") {
        Ok(Word::Latency)
    } else if fields::begins(found, b"flyrecord\0") {
        Ok(Word::Flyrecord)
    } else {
        Err(Refusal::BadConstant)
    }
}

// The word at `at`, and the place after it.
fn word_at(s: &[u8], at: usize) -> Result<(Word, usize), Refusal>
    ensures { word_step_meaning result ≡ seen_at word_seen word s.now at }
{
    let next = pieces::bytes_at(s, at, 10)?;
    let word = word_of(&s[at..next])?;
    Ok((word, next))
}

// Options at `at`, through the closing type 0, and the place after them.
fn options_at(s: &[u8], order: Order, at: usize) -> Result<usize, Refusal>
    ensures { step_meaning result ≡ pass_at (options order) s.now at }
{
    let mut next = at;
    loop {
        let body = pieces::bytes_at(s, next, 2)?;
        if fields::u16_at(s, order, next) == 0 {
            return Ok(body);
        }
        next = pieces::sized_at(s, order, Width::Four, body)?;
    }
}

// The entries of n CPUs at `at`, each an offset and a size of 8 bytes, and the place after them.
fn entries_at(s: &[u8], n: u32, at: usize) -> Result<usize, Refusal>
    ensures { (order : Order) → step_meaning result ≡ pass_at (times n (range order)) s.now at }
{
    pieces::bytes_at(s, at, 16 * (n as usize))
}

// What follows the last word, which ends at `at`; after options never `options` again.
fn ending_at(
    s: &[u8],
    cpus: u32,
    word: Word,
    options: Part,
    at: usize,
) -> Result<(TailParts, usize), Refusal>
    requires { at ≤ length s.now }
    ensures { (order : Order) → answer_of result ≡ seen_at (ending_parts options) (ending order cpus (word_meaning word)) s.now at }
{
    let (ending, end) = match word {
        Word::Options => return Err(Refusal::BadConstant),
        Word::Latency => (EndingKind::Latency, at),
        Word::Flyrecord => (EndingKind::Flyrecord, entries_at(s, cpus, at)?),
    };
    let parts = TailParts {
        options,
        ending,
        place: at,
    };
    Ok((parts, end))
}

// Options at `at`, and the ending behind them.
fn options_tail_at(
    s: &[u8],
    order: Order,
    cpus: u32,
    at: usize,
) -> Result<(TailParts, usize), Refusal>
    ensures { answer_of result ≡ seen_at (tail_parts_after order) (tail_after order cpus options_word) s.now at }
{
    let end = options_at(s, order, at)?;
    let (word, next) = word_at(s, end)?;
    ending_at(s, cpus, word, summary::span(at, end), next)
}

// The tail, whose first word stands at `at`, and the place after it.
pub fn tail_at(s: &[u8], order: Order, cpus: u32, at: usize) -> Result<(TailParts, usize), Refusal>
    ensures { answer_of result ≡ seen_at (tail_parts order) (tail order cpus) s.now at }
{
    let (word, next) = word_at(s, at)?;
    match word {
        Word::Options => options_tail_at(s, order, cpus, next),
        _ => ending_at(s, cpus, word, Part { place: 0, size: 0 }, next),
    }
}

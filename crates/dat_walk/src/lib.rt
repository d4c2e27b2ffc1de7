// Walking a trace.dat header front to back, without a look at its CPU ranges.
#![tactic(auto)]

mod opening;

ghost use Rattle.std.specs.Prelude.{◌≡◌, length};
ghost use Rattle.fields.specs.Reader.{seen_at};
ghost use Rattle.fields.specs.Meaning.{answer_of};
ghost use Rattle.dat_format.specs.Decode.{header};
ghost use Rattle.dat_read.specs.Summary.{body_of, summary_seen};

use dat_read::summary;
use dat_read::summary::{EndingKind, Part, Summary};
use refusals::Refusal;

// The entries from `place` to the header's end, or the text from there to the file's end.
fn body_of(ending: EndingKind, place: usize, end: usize, total: usize) -> Part
    ensures { result ≡ body_of ending place end total }
{
    match ending {
        EndingKind::Latency => summary::span(end, total),
        EndingKind::Flyrecord => summary::span(place, end),
    }
}

// A header's summary, and its end.
pub fn walk(s: &[u8]) -> Result<(Summary, usize), Refusal>
    ensures { answer_of result ≡ seen_at (summary_seen (length s.now)) header s.now 0 }
{
    let (flags, at) = opening::opening_of(s)?;
    let (sections, at) = dat_sections::sections_at(s, flags.order, at)?;
    let (texts, at) = dat_texts::texts_at(s, flags.order, at)?;
    let (tail, end) = dat_tail::tail_at(s, flags.order, texts.cpus, at)?;
    let summary = Summary {
        flags,
        sections,
        texts,
        options: tail.options,
        ending: tail.ending,
        body: body_of(tail.ending, tail.place, end, s.len()),
    };
    Ok((summary, end))
}

// The sections of a header: header page and header event, the ftrace formats, the event systems.
#![tactic(auto)]

ghost use Rattle.std.specs.Prelude.{◌≡◌};
ghost use Rattle.fields.specs.Reader.{seen_at, pass_at};
ghost use Rattle.fields.specs.Meaning.{answer_of};
ghost use Rattle.dat_format.specs.Pieces.{after, sized, counted, name};
ghost use Rattle.dat_format.specs.Decode.{system, sections};
ghost use Rattle.dat_read.specs.Steps.{step_meaning};
ghost use Rattle.dat_read.specs.Summary.{section_parts};
ghost use Rattle.dat_sections.specs.Steps.{StepsAs, counted_by};

use dat_read::pieces::Width;
use dat_read::summary::SectionParts;
use dat_read::{pieces, summary};
use fields::Order;
use refusals::Refusal;

// Each step but the last answers the place after what it read.
// File, byte order and place stay three arguments, as the public steps have them: a struct of them would be built in each of those, and is no plainer.

// A fixed string at `at`, an 8-byte size, and that many bytes. Put into both calls, so that the library stores neither word.
#[inline(always)]
fn piece_at<'a>(s: &'a [u8], order: Order, word: &'a [u8], at: usize) -> Result<usize, Refusal>
    ensures { step_meaning result ≡ pass_at (after word.now (sized order 8)) s.now at }
{
    let size = pieces::fixed_at(s, word, at)?;
    pieces::sized_at(s, order, Width::Eight, size)
}

// A count at `at`, and that many elements, each read by `element`.
fn counted_at<F: Fn(usize) -> Result<usize, Refusal>>(
    s: &[u8],
    order: Order,
    at: usize,
    element: F,
) -> Result<usize, Refusal>
    requires { F.IsAlwaysCallable element }
    ensures { (g : _) → StepsAs g (F.post element) → step_meaning result ≡ counted_by order g s.now at }
{
    let mut next = pieces::bytes_at(s, at, 4)?;
    for _ in 0..fields::u32_at(s, order, at) {
        next = element(next)?;
    }
    Ok(next)
}

// A count at `at`, and that many formats. Put into both calls: as a call it would take most of the time of systems with few formats.
#[inline(always)]
fn formats_at(s: &[u8], order: Order, at: usize) -> Result<usize, Refusal>
    ensures { step_meaning result ≡ pass_at (counted order (sized order 8)) s.now at }
{
    let format_at = |at| pieces::sized_at(s, order, Width::Eight, at);
    counted_at(s, order, at, format_at)
}

// A name at `at`, and its NUL.
#[tactic(auto, using(crate::proofs::ElementLaws::name_none, crate::proofs::ElementLaws::name_here, crate::proofs::ElementLaws::name_more))]
fn name_at(s: &[u8], at: usize) -> Result<usize, Refusal>
    ensures { step_meaning result ≡ pass_at name s.now at }
{
    for i in at..s.len() {
        if s[i] == 0 {
            return Ok(i + 1);
        }
    }
    Err(Refusal::FieldPastFile)
}

// A system at `at`: its name and its formats.
fn system_at(s: &[u8], order: Order, at: usize) -> Result<usize, Refusal>
    ensures { step_meaning result ≡ pass_at (system order) s.now at }
{
    let formats = name_at(s, at)?;
    formats_at(s, order, formats)
}

// A count at `at`, and that many systems. A call of its own, so that the walk over names and formats has the registers to itself.
#[inline(never)]
fn systems_at(s: &[u8], order: Order, at: usize) -> Result<usize, Refusal>
    ensures { step_meaning result ≡ pass_at (counted order (system order)) s.now at }
{
    counted_at(s, order, at, |at| system_at(s, order, at))
}

// The sections from `header_page` through the systems, and the place after them.
pub fn sections_at(s: &[u8], order: Order, at: usize) -> Result<(SectionParts, usize), Refusal>
    ensures { answer_of result ≡ seen_at (section_parts order) (sections order) s.now at }
{
    let event = piece_at(s, order, b"header_page\0", at)?;
    let formats = piece_at(s, order, b"header_event\0", event)?;
    let systems = formats_at(s, order, formats)?;
    let end = systems_at(s, order, systems)?;
    let sections = SectionParts {
        header_page: summary::span(at + 20, event),
        header_event: summary::span(event + 21, formats),
        formats: summary::span(formats + 4, systems),
        systems: summary::span(systems + 4, end),
        format_count: fields::u32_at(s, order, formats),
        system_count: fields::u32_at(s, order, systems),
    };
    Ok((sections, end))
}

// The pieces that a header is made of: fixed strings and data behind their size.
ghost use Rattle.std.specs.Prelude.{◌≡◌};
ghost use Rattle.refusals.specs.Refusal.{field_past_file};
ghost use Rattle.fields.specs.Number.{word_at};
ghost use Rattle.fields.specs.Reader.{bytes, pass_at};
ghost use Rattle.dat_format.specs.Pieces.{fixed, sized};
ghost use Rattle.dat_read.specs.Steps.{step_meaning, width_meaning};

use fields::Order;
use refusals::Refusal;

// Each step here answers the place after what it read.

// n bytes at `at`; behind the file's end stands what stands at its end. By a test of its own: a walk's next step would wait for the smaller of both.
pub fn bytes_at(s: &[u8], at: usize, n: usize) -> Result<usize, Refusal>
    ensures { step_meaning result ≡ pass_at (bytes n field_past_file) s.now at }
{
    if s.len() < at {
        return if n == 0 {
            Ok(s.len())
        } else {
            Err(Refusal::FieldPastFile)
        };
    }
    if s.len() - at < n {
        return Err(Refusal::FieldPastFile);
    }
    Ok(at + n)
}

// A fixed string at `at`.
#[tactic(auto, using(crate::proofs::PieceLaws::fixed_begins, crate::proofs::PieceLaws::fixed_other))]
pub fn fixed_at<'a>(s: &'a [u8], word: &'a [u8], at: usize) -> Result<usize, Refusal>
    ensures { step_meaning result ≡ pass_at (fixed word.now) s.now at }
{
    let end = bytes_at(s, at, word.len())?;
    if !fields::begins(&s[end - word.len()..end], word) {
        return Err(Refusal::BadConstant);
    }
    Ok(end)
}

// How many bytes a size field has.
#[derive(Clone, Copy, Debug, PartialEq, Eq)]
pub enum Width {
    Four = 4,
    Eight = 8,
}

impl Width {
    fn bytes(self) -> usize
        ensures { result ≡ width_meaning self }
    {
        self as usize
    }
}

fn size_at(s: &[u8], order: Order, width: Width, at: usize) -> u64
    ensures { result ≡ word_at order (width_meaning width) s.now at }
{
    match width {
        Width::Four => fields::u32_at(s, order, at) as u64,
        Width::Eight => fields::u64_at(s, order, at),
    }
}

// A size at `at`, and that many bytes.
pub fn sized_at(s: &[u8], order: Order, width: Width, at: usize) -> Result<usize, Refusal>
    ensures { step_meaning result ≡ pass_at (sized order (width_meaning width)) s.now at }
{
    let body = bytes_at(s, at, width.bytes())?;
    bytes_at(s, body, size_at(s, order, width, at) as usize)
}

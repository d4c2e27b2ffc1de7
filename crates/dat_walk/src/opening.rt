// The opening of a header: three fixed strings, then byte order, long size and page size.
ghost use Rattle.std.specs.Prelude.{◌≡◌};
ghost use Rattle.fields.specs.Reader.{seen_at};
ghost use Rattle.fields.specs.Meaning.{answer_of};
ghost use Rattle.dat_format.specs.Decode.{sizes, flags, opening};
ghost use Rattle.dat_read.specs.Summary.{flags_seen};

use dat_read::pieces;
use dat_read::summary::Flags;
use fields::Order;
use refusals::Refusal;

// Each step here answers the flags, and the place after what it read.

// Long size and page size at `at`, behind a byte order.
fn sizes_at(s: &[u8], order: Order, at: usize) -> Result<(Flags, usize), Refusal>
    ensures { answer_of result ≡ seen_at flags_seen (sizes order) s.now at }
{
    let place = pieces::bytes_at(s, at, 1)?;
    let long = s[at];
    if !dat_format::is_long(long) {
        return Err(Refusal::BadConstant);
    }
    let end = pieces::bytes_at(s, place, 4)?;
    let page = fields::u32_at(s, order, place);
    if !dat_format::is_page(page) {
        return Err(Refusal::BadConstant);
    }
    Ok((Flags { order, long, page }, end))
}

// Byte order, long size and page size at `at`.
fn flags_at(s: &[u8], at: usize) -> Result<(Flags, usize), Refusal>
    ensures { answer_of result ≡ seen_at flags_seen flags s.now at }
{
    let sizes = pieces::bytes_at(s, at, 1)?;
    let order = Order::try_from(s[at]).map_err(|_| Refusal::BadConstant)?;
    sizes_at(s, order, sizes)
}

// The opening of a file: its three fixed strings, and the flags.
pub(crate) fn opening_of(s: &[u8]) -> Result<(Flags, usize), Refusal>
    ensures { answer_of result ≡ seen_at flags_seen opening s.now 0 }
{
    let name = pieces::fixed_at(s, b"\x17\x08\x44", 0)?;
    let version = pieces::fixed_at(s, b"tracing", name)?;
    let flags = pieces::fixed_at(s, b"6\0", version)?;
    flags_at(s, flags)
}

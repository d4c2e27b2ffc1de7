// What a trace.dat file asks of its CPU ranges.
#![tactic(auto)]

ghost use Rattle.std.specs.Prelude.{◌≡◌, ◌+◌, ◌*◌, ◌%◌, true, ◌↔◌, length, replicate, nat_le};
ghost use Rattle.dat_format.specs.Layout.{PageFits, Multiple};
ghost use Rattle.dat_format.specs.Tests.{all, all_apart};
ghost use Rattle.fields.specs.Lists.{Each};
ghost use Rattle.dat_format.specs.Units.{OnUnits};
ghost use Rattle.dat_format.specs.Entries.{entry_at};
ghost use Rattle.dat_ranges.specs.Ranges.{stored, entries_in, test_meaning, possible, judgement, judged, refusal_of};

use fields::Order;
use refusals::{LIMIT, Refusal};

mod units;

// A CPU's range, as its entry has it.
#[derive(Clone, Copy, Debug, PartialEq, Eq)]
pub struct CpuRange {
    pub offset: u64,
    pub size: u64,
}

// What each of several ranges is held to: the file's page size, its header's end and its length.
#[derive(Clone, Copy, Debug, PartialEq, Eq)]
pub struct Test {
    pub page: u32,
    pub end: u64,
    pub total: u64,
}

// What is wrong with a file's ranges.
#[derive(Clone, Copy, Debug, PartialEq, Eq)]
pub enum Fault {
    Misplaced,
    Overlap,
}

impl From<Fault> for Refusal {
    ghost from_gives = { λ f r. r ≡ refusal_of f };

    fn from(fault: Fault) -> Refusal {
        match fault {
            Fault::Misplaced => Refusal::BadRange,
            Fault::Overlap => Refusal::RangesOverlap,
        }
    }
}

// Whether an offset is a multiple of the page size. That is a power of two, so the bits below it tell, and nothing is divided.
fn is_aligned(page: u32, offset: u64) -> bool
    requires { PageFits page }
    ensures { (result ≡ true) ↔ Multiple page offset }
{
    offset & (page as u64 - 1) == 0
}

// Whether a range ends within a file of length `total`, offset and size added as whole numbers: a sum that wraps is past every file.
fn ends_within(total: u64, range: CpuRange) -> bool
    ensures { result ≡ nat_le (range.offset + range.size) total }
{
    range
        .offset
        .checked_add(range.size)
        .is_some_and(|end| end <= total)
}

// Whether a CPU's range lies in the file, behind its header.
fn in_file(test: Test, range: CpuRange) -> bool
    requires { PageFits test.page }
    ensures { result ≡ test_meaning test (stored range) }
{
    range.size == 0
        || is_aligned(test.page, range.offset)
            && test.end <= range.offset
            && ends_within(test.total, range)
}

// The range in an entry. It is read as a part of 16 bytes, whose length the compiler knows.
fn range_in(entry: &[u8], order: Order) -> CpuRange
    requires { length entry.now ≡ 16 }
    ensures { stored result ≡ entry_at order entry.now 0 }
{
    let entry = &entry[..16];
    CpuRange {
        offset: fields::u64_at(entry, order, 0),
        size: fields::u64_at(entry, order, 8),
    }
}

// Whether each entry passes.
fn all_pass(entries: &[u8], order: Order, test: Test) -> bool
    requires { possible test ≡ true }
    ensures { result ≡ all (test_meaning test) (entries_in order entries.now) }
{
    for entry in entries.chunks_exact(16) {
        if !in_file(test, range_in(entry, order)) {
            return false;
        }
    }
    true
}

// Whether no two entries overlap. From the last to the first each claims its units: each is held to those behind it, as the definition has it. Put into both
// of its calls, where the order is a written one: so each order has a loop of its own, and an entry's numbers are not read for both.
#[inline(always)]
fn claim_all(map: &mut [u64; 1024], entries: &[u8], order: Order) -> bool
    requires empty { map.old ≡ replicate 1024 0 }
    requires whole { length entries.now % 16 ≡ 0 }
    requires each { Each OnUnits (entries_in order entries.now) }
    ensures { result ≡ all_apart (entries_in order entries.now) }
{
    for entry in entries.rchunks_exact(16) {
        if !units::claim_range(map, range_in(entry, order)) {
            return false;
        }
    }
    true
}

// The same, with the map that it takes.
fn all_apart(entries: &[u8], order: Order) -> bool
    requires whole { length entries.now % 16 ≡ 0 }
    requires each { Each OnUnits (entries_in order entries.now) }
    ensures { result ≡ all_apart (entries_in order entries.now) }
{
    let mut map = [0; 1024];
    match order {
        Order::Little => claim_all(&mut map, entries, Order::Little),
        Order::Big => claim_all(&mut map, entries, Order::Big),
    }
}

// Whether each entry passes, and only then whether two overlap.
fn judge_in(entries: &[u8], order: Order, test: Test) -> Result<(), Fault>
    requires { (possible test ≡ true) × (length entries.now % 16 ≡ 0) }
    ensures { result ≡ judgement (test_meaning test) (entries_in order entries.now) }
{
    if !all_pass(entries, order, test) {
        Err(Fault::Misplaced)
    } else if !all_apart(entries, order) {
        Err(Fault::Overlap)
    } else {
        Ok(())
    }
}

// Whether a test can be made: alignment is told for page sizes only, and the map of units is as long as the longest file.
fn is_possible(test: Test) -> bool
    ensures { result ≡ possible test }
{
    test.total <= LIMIT as u64 && dat_format::is_page(test.page)
}

// Whether n entries from `from` on are all there.
fn are_there(total: usize, n: u32, from: usize) -> bool
    ensures { result ≡ nat_le (from + 16 * n) total }
{
    from <= total && 16 * n as usize <= total - from
}

// The judgement on n entries from `from` on; misplaced where they are not all there, or the test cannot be made.
pub fn judge(s: &[u8], order: Order, test: Test, n: u32, from: usize) -> Result<(), Fault>
    ensures { result ≡ judged test order s.now n from }
{
    if !is_possible(test) || !are_there(s.len(), n, from) {
        return Err(Fault::Misplaced);
    }
    judge_in(&s[from..from + 16 * n as usize], order, test)
}

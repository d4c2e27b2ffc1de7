// The map of a file's units of 1,024 bytes, 64 to a word: which of them a CPU range has claimed. Where a claim finds one taken it answers no,
// and the map is of no use any more.
ghost use Rattle.std.specs.Prelude.{◌≡◌, ◌+◌, ◌<◌, ◌≤◌, length, ◌==◌, bit_and, bit_or, slice_index, slice_set};
ghost use Rattle.dat_format.specs.Units.{InUnit, OnUnits};
ghost use Rattle.dat_ranges.specs.Map.{Bits, ClaimSays, From};
ghost use Rattle.dat_ranges.specs.Ranges.{stored};

use crate::CpuRange;

// The bits of a word from `low` on.
fn bits_from(low: usize) -> u64
    requires { low < 64 }
    ensures { Bits 0 low 64 result }
{
    u64::MAX << low
}

// The bits of a word up to `high`, itself among them.
fn bits_to(high: usize) -> u64
    requires { high < 64 }
    ensures { Bits 0 0 (high + 1) result }
{
    u64::MAX >> (63 - high)
}

// Claims these units of a word; whether they were free.
fn claim_bits(map: &mut [u64; 1024], word: usize, bits: u64) -> bool
    requires { word < 1024 }
    ensures value { result ≡ (bit_and (slice_index map.old word) bits == 0) }
    ensures map_after { map.new ≡ slice_set map.old word (bit_or (slice_index map.old word) bits) }
{
    let taken = map[word];
    map[word] = taken | bits;
    taken & bits == 0
}

// Claims the units from `first` to `last`, both among them; whether they were free.
fn claim(map: &mut [u64; 1024], first: usize, last: usize) -> bool
    requires { (length map.old ≡ 1024) × (first ≤ last) × (last < 65536) }
    ensures { ClaimSays result (From first (last + 1)) map.old map.new }
{
    let stop = last / 64;
    let mut bits = bits_from(first % 64);
    for word in first / 64..stop {
        if !claim_bits(map, word, bits) {
            return false;
        }
        bits = bits_from(0);
    }
    claim_bits(map, stop, bits & bits_to(last % 64))
}

// Claims the units of a range, none where it is of size 0; whether they were free.
pub(crate) fn claim_range(map: &mut [u64; 1024], range: CpuRange) -> bool
    requires { (length map.old ≡ 1024) × OnUnits (stored range) }
    ensures { ClaimSays result (λ u. InUnit u (stored range)) map.old map.new }
{
    if range.size == 0 {
        return true;
    }
    let first = range.offset / 1024;
    let last = (range.offset + range.size - 1) / 1024;
    claim(map, first as usize, last as usize)
}

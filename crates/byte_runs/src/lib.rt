// Runs of bytes: copied to the front of an output, and compared.
#![tactic(auto)]

ghost use Rattle.std.specs.Prelude.{◌≡◌, ◌++◌, ◌↔◌, IsTrue, length, take, drop, min};

// Copies `src` to the front of `dst`, as much of it as there is room for, and answers how much.
pub fn copy(src: &[u8], dst: &mut [u8]) -> usize
    ensures count { result ≡ min (length src.now) (length dst.old) }
    ensures written { dst.new ≡ take result src.now ++ drop result dst.old }
{
    let n = src.len().min(dst.len());
    for i in 0..n {
        dst[i] = src[i];
    }
    n
}

// Whether two runs hold the same bytes. By `==` of std, which goes by wide registers, the handset's library would be a twentieth longer.
pub fn same<'a>(a: &'a [u8], b: &'a [u8]) -> bool
    ensures { IsTrue result ↔ a.now ≡ b.now }
{
    if a.len() != b.len() {
        return false;
    }
    for i in 0..a.len() {
        if a[i] != b[i] {
            return false;
        }
    }
    true
}

// Which long sizes and page sizes a trace.dat header may state.
#![tactic(auto)]

ghost use Rattle.std.specs.Prelude.{◌≡◌};
ghost use Rattle.dat_format.specs.Tests.{is_long, is_page};

pub fn is_long(n: u8) -> bool
    ensures { result ≡ is_long n }
{
    matches!(n, 4 | 8)
}

// A power of two from 1,024 to 65,536.
pub fn is_page(n: u32) -> bool
    ensures { result ≡ is_page n }
{
    matches!(n, 1024 | 2048 | 4096 | 8192 | 16384 | 32768 | 65536)
}

// Lists the frames of a little-endian GDB trace from standard input on standard output.
#![tactic(auto)]

ghost use Rattle.std.specs.Prelude.{◌≡◌, ◌≤◌, length, take};
ghost use Rattle.gdb_listing.specs.Text.{text, listed};

use std::io;

// The longest file that is listed, and one byte more, which tells that input goes on.
fn input_room() -> [u8; 65537]
    ensures { 65537 ≡ length result }
{
    input::room()
}

// Room for every listing: 18 bytes, and 3 for each of the 65,536.
fn output_room() -> [u8; 196626]
    ensures { 196626 ≡ length result }
{
    input::room()
}

// The listing of `file` at the front of `output`, and its length: there is room for it, so it is not refused.
fn put_listing(file: &[u8], output: &mut [u8]) -> usize
    requires { 196626 ≤ length output.old }
    ensures { (result ≤ length output.new) × (take result output.new ≡ text (listed file.now)) }
{
    gdb_listing::listing(file, output).unwrap()
}

fn main(rt: HostRuntime) -> io::Result<()> {
    let mut input = input_room();
    let n = input::read_full(&mut rt.stdin(), &mut input)?;
    let mut output = output_room();
    let k = put_listing(&input[..n], &mut output);
    rt.write_all(&output[..k])
}

// A trace listed as text: the number of frames, and a line for each frame; or the refusal.
#![tactic(auto)]

ghost use Rattle.std.specs.Prelude.{◌≡◌, [], ◌∷◌, ◌≤◌, length};
ghost use Rattle.refusals.specs.Number.{number};
ghost use Rattle.fields.specs.Lists.{concat_map};
ghost use Rattle.fields.specs.Answer.{accepted, refused};
ghost use Rattle.fields.specs.Meaning.{answer_of};
ghost use Rattle.fields.specs.Output.{Lent};
ghost use Rattle.gdb_read.specs.Steps.{head_meaning};
ghost use Rattle.gdb_listing.specs.Text.{decimal, ended, line_of, listing_of};
ghost use Rattle.gdb_listing.specs.Written.{HasRoom, Wrote};
ghost use Rattle.gdb_listing.specs.Rows.{heads_left, Listable};
ghost use Rattle.gdb_listing.specs.Outcome.{Lists};

use gdb_format::Format;
use gdb_read::FrameHead;
use refusals::Refusal;

// The longest file that is listed.
const LIMIT: usize = 65536;

// The heads of frames, one behind the other: the first stands at `at`, and `left` are asked for.
#[derive(Clone, Copy)]
struct Heads<'a> {
    format: Format,
    file: &'a [u8],
    at: usize,
    left: usize,
}

impl<'a> Iterator for Heads<'a> {
    ghost use Rattle.std.specs.Iterator.{YieldsFirstBy, item_count};
    ghost use Rattle.gdb_read.specs.Steps.{head_meaning};
    ghost use Rattle.gdb_listing.specs.Rows.{heads_left};

    type Item = FrameHead;

    ghost next_gives = { YieldsFirstBy head_meaning heads_left };

    ghost remaining = { item_count heads_left };

    fn next(&mut self) -> Option<FrameHead> {
        if self.left == 0 {
            return None;
        }
        let Ok(Some(step)) = gdb_read::head_at(self.format, self.file, self.at) else {
            return None;
        };
        self.at = step.next;
        self.left -= 1;
        Some(step.head)
    }
}

// An output, and how much of it is written.
#[derive(Drop)]
struct Writer<'a> {
    out: &'a mut [u8],
    at: usize,
}

impl Writer<'_> {
    fn put_byte(&mut self, b: u8)
        requires { HasRoom self.old (b ∷ []) }
        ensures { Wrote self.old (b ∷ []) self.new }
    {
        self.out[self.at] = b;
        self.at += 1;
    }

    fn put_word(&mut self, word: &[u8])
        requires { HasRoom self.old word.now }
        ensures { Wrote self.old word.now self.new }
    {
        let end = self.at + word.len();
        self.out[self.at..end].copy_from_slice(word);
        self.at = end;
    }

    fn put_number(&mut self, n: usize)
        requires { HasRoom self.old (decimal n) }
        ensures { Wrote self.old (decimal n) self.new }
    {
        if 10 <= n {
            self.put_number(n / 10);
        }
        self.put_byte(b'0' + (n % 10) as u8);
    }

    // A number, and the byte that ends it.
    fn put_ended(&mut self, n: usize, end: u8)
        requires { HasRoom self.old (ended n end) }
        ensures { Wrote self.old (ended n end) self.new }
    {
        self.put_number(n);
        self.put_byte(end);
    }

    // A frame's line: number, place, size.
    fn put_line(&mut self, head: FrameHead)
        requires { HasRoom self.old (line_of (head_meaning head)) }
        ensures { Wrote self.old (line_of (head_meaning head)) self.new }
    {
        self.put_ended(head.tracepoint as usize, b' ');
        self.put_ended(head.place, b' ');
        self.put_ended(head.size, b'\n');
    }

    fn put_lines(&mut self, heads: Heads)
        requires { HasRoom self.old (concat_map line_of (heads_left heads)) }
        ensures { Wrote self.old (concat_map line_of (heads_left heads.entry)) self.new }
    {
        for head in heads {
            self.put_line(head);
        }
    }
}

// How many digits a number has.
fn digit_count(n: usize) -> usize
    ensures { (result ≡ length (decimal n)) × (result ≤ 20) }
{
    n.max(1).ilog10() as usize + 1
}

// How long a frame's line is: three numbers, each with the byte that ends it.
fn line_length(head: FrameHead) -> usize
    ensures { result ≡ length (line_of (head_meaning head)) }
{
    digit_count(head.tracepoint as usize) + digit_count(head.place) + digit_count(head.size) + 3
}

fn lines_length(heads: Heads) -> usize
    requires { Listable (heads_left heads) heads.left }
    ensures { result ≡ length (concat_map line_of (heads_left heads.entry)) }
{
    let mut len = 0;
    for head in heads {
        len += line_length(head);
    }
    len
}

fn put_refusal(e: Refusal, out: &mut [u8]) -> Result<usize, Refusal>
    ensures { Lists (refused (number e)) out.old result out.new }
{
    let n = e.number() as usize;
    if out.len() < 8 + digit_count(n) + 1 {
        return Err(Refusal::NoRoom);
    }
    let mut text = Writer { out, at: 0 };
    text.put_word(b"refused ");
    text.put_ended(n, b'\n');
    Ok(text.at)
}

fn put_table(heads: Heads, out: &mut [u8]) -> Result<usize, Refusal>
    requires { Listable (heads_left heads) heads.left }
    ensures { Lists (accepted (heads_left heads.entry)) out.old result out.new }
{
    if out.len() < 7 + digit_count(heads.left) + 1 + lines_length(heads) {
        return Err(Refusal::NoRoom);
    }
    let mut text = Writer { out, at: 0 };
    text.put_word(b"frames ");
    text.put_ended(heads.left, b'\n');
    text.put_lines(heads);
    Ok(text.at)
}

// Writes the listing of a little-endian file to the front of `out`, and tells its length.
pub fn listing(file: &[u8], out: &mut [u8]) -> Result<usize, Refusal>
    ensures { Lent (listing_of file.now) out.old (answer_of result) out.new }
{
    if LIMIT < file.len() {
        return put_refusal(Refusal::TooLong, out);
    }
    match gdb_read::read(gdb_format::default_settings(0), file) {
        Err(e) => put_refusal(e, out),
        Ok(opened) => {
            let heads = Heads {
                format: opened.layout.format,
                file,
                at: opened.start,
                left: opened.frames,
            };
            put_table(heads, out)
        }
    }
}

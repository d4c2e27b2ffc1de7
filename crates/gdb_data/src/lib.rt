// The data of a frame: what block stands at a place, and whether blocks fill the data.
#![tactic(auto)]

ghost use Rattle.std.specs.Prelude.{◌≡◌, ◌+◌, ◌<◌, false, length, drop};
ghost use Rattle.refusals.specs.Refusal.{block_past_data};
ghost use Rattle.fields.specs.Reader.{bytes, step_at, pass_at};
ghost use Rattle.fields.specs.Meaning.{answer_of};
ghost use Rattle.gdb_format.specs.Trace.{is_registers};
ghost use Rattle.gdb_format.specs.Opening.{size_meaning};
ghost use Rattle.gdb_format.specs.Decode.{memory_block, block_after, block};
ghost use Rattle.gdb_format.specs.declared.Format.{Format};
ghost use Rattle.gdb_data.specs.Blocks.{kind_meaning, kind_at, block_step_meaning, block_seen, end_meaning, blocks_fill};
ghost use Rattle.gdb_data.specs.Blocks.{has_number, search_meaning, number_at, NoOther, OtherAt, StopsAt};

use gdb_format::Format;
use refusals::Refusal;
use std::fmt;

// How the frames of a file are laid out: its format, and the size of a register block, where the description states one.
#[derive(Clone, Copy, Debug, PartialEq, Eq)]
pub struct FrameLayout {
    pub format: Format,
    pub size: Option<usize>,
}

// The memory that a block holds: where it starts, and how many bytes.
#[derive(Clone, Copy, Debug, PartialEq, Eq)]
pub struct MemorySpan {
    pub address: u64,
    pub length: usize,
}

// A block's kind, with what that kind carries.
#[derive(Clone, Copy, Debug, PartialEq, Eq)]
pub enum BlockKind {
    Registers,
    Memory(MemorySpan),
    Variable { number: u32, value: i64 },
}

// By its word, with what it carries.
impl fmt::Display for BlockKind {
    fn fmt<W: fmt::Write>(&self, f: &mut fmt::Formatter<W>) -> fmt::Result {
        match self {
            BlockKind::Registers => write!(f, "registers"),
            BlockKind::Memory(span) => write!(
                f,
                "memory address {} length {}",
                span.address, span.length
            ),
            BlockKind::Variable { number, value } => write!(f, "variable {number} value {value}"),
        }
    }
}

// A block: the place of its letter, and its kind.
#[derive(Clone, Copy, Debug, PartialEq, Eq)]
pub struct BlockRecord {
    pub place: usize,
    pub kind: BlockKind,
}

// A step of a walk over blocks: the block that stands there, and the place after it.
#[derive(Clone, Copy, Debug, PartialEq, Eq)]
pub struct BlockStep {
    pub record: BlockRecord,
    pub next: usize,
}

// A place in the data of a frame where a block's letter stands.
#[derive(Clone, Copy)]
struct Letter<'a> {
    d: &'a [u8],
    at: usize,
    ghost inside: { at < length d.now },
}

impl<'a> Letter<'a> {
    // Where n bytes behind the letter end. They are counted from the letter's place, so that no sum stands between a walk's tests of the letter.
    fn bytes_end(self, n: usize) -> Result<usize, Refusal>
        ensures { end_meaning result ≡ pass_at (bytes n block_past_data) self.entry.d.now (self.entry.at + 1) }
    {
        if self.d.len() - self.at <= n {
            return Err(Refusal::BlockPastData);
        }
        Ok(self.at + 1 + n)
    }

    // The end of a memory block: behind its letter address and length, 10 bytes, and as many as the length says.
    fn memory_end(self, format: Format) -> Result<usize, Refusal>
        ensures { end_meaning result ≡ pass_at (memory_block format) self.entry.d.now (self.entry.at + 1) }
    {
        if self.d.len() - self.at < 11 {
            return Err(Refusal::BlockPastData);
        }
        let length = fields::u16_at(self.d, format.order, self.at + 9) as usize;
        self.bytes_end(10 + length)
    }

    // The end of a block that is neither memory nor a variable: the first register block of its frame, or a refusal, in the order 8, 24, 10, 9.
    fn registers_end(self, size: Option<usize>, seen: bool) -> Result<usize, Refusal>
        requires { NoOther self.d.now self.at }
        ensures { (f : Format) → end_meaning result ≡ pass_at (block_after f (size_meaning size) seen) self.entry.d.now self.entry.at }
    {
        if self.d[self.at] != b'R' {
            return Err(Refusal::BadLetter);
        }
        if seen {
            return Err(Refusal::SecondRegisters);
        }
        let Some(n) = size else {
            return Err(Refusal::NoRegisterSize);
        };
        self.bytes_end(n)
    }

    // The end of a memory or variable block, if it is one. Registers that were seen before it change nothing of it.
    fn other_end(self, format: Format) -> Result<Option<usize>, Refusal>
        ensures { OtherAt format self.entry.d.now self.entry.at result }
    {
        match self.d[self.at] {
            b'M' => Ok(Some(self.memory_end(format)?)),
            b'V' => Ok(Some(self.bytes_end(12)?)),
            _ => Ok(None),
        }
    }

    // The end of a block, as the first of its frame.
    fn block_end(self, layout: FrameLayout) -> Result<usize, Refusal>
        ensures { end_meaning result ≡ pass_at (block layout.format (size_meaning layout.size)) self.entry.d.now self.entry.at }
    {
        match self.other_end(layout.format)? {
            Some(end) => Ok(end),
            None => self.registers_end(layout.size, false),
        }
    }

    // The block's kind, with what it carries.
    fn kind(self, format: Format) -> BlockKind
        ensures { kind_meaning result ≡ kind_at format self.entry.d.now self.entry.at }
    {
        let Letter { d, at } = self;
        let order = format.order;
        match d[at] {
            b'R' => BlockKind::Registers,
            b'M' => BlockKind::Memory(MemorySpan {
                address: fields::u64_at(d, order, at + 1),
                length: fields::u16_at(d, order, at + 9) as usize,
            }),
            _ => BlockKind::Variable {
                number: fields::u32_at(d, order, at + 1),
                value: fields::signed(fields::u64_at(d, order, at + 5)),
            },
        }
    }

    // Whether the letter is `V`, and the number behind it this one.
    fn has_number(self, format: Format, number: u32) -> bool
        ensures { result ≡ number_at format self.entry.d.now self.entry.at number }
    {
        self.d[self.at] == b'V' && fields::u32_at(self.d, format.order, self.at + 1) == number
    }
}

// The block at `at`, in data that ends where `d` does; none at the end. What stands before it does not count: a second register block is told like a first.
pub fn block_at(layout: FrameLayout, d: &[u8], at: usize) -> Result<Option<BlockStep>, Refusal>
    ensures { block_step_meaning result ≡ step_at block_seen (block layout.format (size_meaning layout.size)) d.now at }
{
    if d.len() <= at {
        return Ok(None);
    }
    let letter = Letter { d, at };
    let next = letter.block_end(layout)?;
    let kind = letter.kind(layout.format);
    let record = BlockRecord { place: at, kind };
    Ok(Some(BlockStep { record, next }))
}

// A step of a search: whether the block there is sought, and the place after it. A walk over many blocks asks for no more than it needs.
#[derive(Clone, Copy, Debug, PartialEq, Eq)]
pub struct SearchStep {
    pub sought: bool,
    pub next: usize,
}

// What stands at `at`, as `block_at` has it, told by whether it is a register block.
pub fn registers_at(layout: FrameLayout, d: &[u8], at: usize) -> Result<Option<SearchStep>, Refusal>
    ensures { search_meaning result ≡ step_at (λ i b. is_registers b) (block layout.format (size_meaning layout.size)) d.now at }
{
    if d.len() <= at {
        return Ok(None);
    }
    let letter = Letter { d, at };
    let next = letter.block_end(layout)?;
    let sought = d[at] == b'R';
    Ok(Some(SearchStep { sought, next }))
}

// What stands at `at`, as `block_at` has it, told by whether it is a block of variable `number`.
pub fn variable_at(
    layout: FrameLayout,
    d: &[u8],
    at: usize,
    number: u32,
) -> Result<Option<SearchStep>, Refusal>
    ensures { search_meaning result ≡ step_at (λ i b. has_number number b) (block layout.format (size_meaning layout.size)) d.now at }
{
    if d.len() <= at {
        return Ok(None);
    }
    let letter = Letter { d, at };
    let next = letter.block_end(layout)?;
    let sought = letter.has_number(layout.format, number);
    Ok(Some(SearchStep { sought, next }))
}

// Over the memory and variable blocks from `from` on, with no look at what was seen of registers: the place of another letter, or none up to the end.
fn others_end(format: Format, d: &[u8], from: usize) -> Result<Option<usize>, Refusal>
    ensures { StopsAt format d.now from result }
{
    let mut at = from;
    while at < d.len() {
        match (Letter { d, at }).other_end(format)? {
            Some(next) => at = next,
            None => return Ok(Some(at)),
        }
    }
    Ok(None)
}

// Whether blocks fill `d` from `from` on exactly, at most one of them a register block; else the refusal of the first that does not fit.
pub fn blocks_from(layout: FrameLayout, d: &[u8], from: usize) -> Result<(), Refusal>
    ensures { answer_of result ≡ blocks_fill layout.format (size_meaning layout.size) false (drop from d.now) }
{
    let mut at = from;
    let mut seen = false;
    while let Some(place) = others_end(layout.format, d, at)? {
        at = (Letter { d, at: place }).registers_end(layout.size, seen)?;
        seen = true;
    }
    Ok(())
}

// The GDB trace file: the reader's settings, and the opening (head and description). The format itself is in specs/.
#![tactic(auto)]

ghost use Rattle.std.specs.Prelude.{◌≡◌, [], ◌+◌, ◌≤◌, length, drop};
ghost use Rattle.fields.specs.Meaning.{answer_of, held};
ghost use Rattle.gdb_format.specs.Settings.{default_settings, radix, base_of, settings_of};
ghost use Rattle.gdb_format.specs.Lines.{is_register, is_status, kind_of, most_digits, digit, size_of};
ghost use Rattle.gdb_format.specs.Decode.{description};
ghost use Rattle.gdb_format.specs.Opening.{line_of, below, register_step, line_step, opening_meaning, lines_seen, opening_seen};

use fields::Order;
use refusals::Refusal;
use std::fmt;

// How a file is to be read, in the caller's numbers: the byte order is 0 for little, 1 for big; the base of the R line is 16 or 10.
#[repr(C)]
#[derive(Clone, Copy, Debug, PartialEq, Eq)]
pub struct Settings {
    pub order: u8,
    pub base: u8,
}

// The settings of a caller that says nothing of the base.
pub fn default_settings(order: u8) -> Settings
    ensures { result ≡ default_settings order }
{
    Settings { order, base: 16 }
}

// The base of the R line's number.
#[derive(Clone, Copy, Debug, PartialEq, Eq)]
pub enum Base {
    Ten,
    Sixteen,
}

impl TryFrom<u8> for Base {
    type Error = Refusal;

    ghost try_from_gives = { λ n r. answer_of r ≡ base_of n };

    fn try_from(number: u8) -> Result<Self, Refusal> {
        match number {
            16 => Ok(Base::Sixteen),
            10 => Ok(Base::Ten),
            _ => Err(Refusal::BadArgument),
        }
    }
}

// The same as the settings, checked.
#[derive(Clone, Copy, Debug, PartialEq, Eq)]
pub struct Format {
    pub order: Order,
    pub base: Base,
}

// Refused where the byte order is neither 0 nor 1, or the base neither 16 nor 10.
impl TryFrom<Settings> for Format {
    type Error = Refusal;

    ghost try_from_gives = { λ s r. answer_of r ≡ settings_of s };

    fn try_from(settings: Settings) -> Result<Self, Refusal> {
        let order = Order::try_from(settings.order).map_err(|_| Refusal::BadArgument)?;
        let base = Base::try_from(settings.base)?;
        Ok(Format { order, base })
    }
}

// A description line's kind, as what it starts with tells, in the order of the C header's numbers.
#[derive(Clone, Copy, Debug, PartialEq, Eq)]
pub enum LineKind {
    Other,
    Registers,
    Status,
    Tracepoint,
    Variable,
    Target,
}

// By its word.
impl fmt::Display for LineKind {
    fn fmt<W: fmt::Write>(&self, f: &mut fmt::Formatter<W>) -> fmt::Result {
        f.write_str(match self {
            LineKind::Other => "other",
            LineKind::Registers => "registers",
            LineKind::Status => "status",
            LineKind::Tracepoint => "tracepoint",
            LineKind::Variable => "variable",
            LineKind::Target => "target",
        })
    }
}

fn is_register(l: &[u8]) -> bool
    ensures { result ≡ is_register l.now }
{
    fields::begins(l, b"R ")
}

fn is_status(l: &[u8]) -> bool
    ensures { result ≡ is_status l.now }
{
    fields::begins(l, b"status ")
}

pub fn line_kind(l: &[u8]) -> LineKind
    ensures { result ≡ kind_of l.now }
{
    if is_register(l) {
        return LineKind::Registers;
    }
    if is_status(l) {
        return LineKind::Status;
    }
    if fields::begins(l, b"tp ") {
        return LineKind::Tracepoint;
    }
    if fields::begins(l, b"tsv ") {
        return LineKind::Variable;
    }
    if fields::begins(l, b"tdesc ") {
        return LineKind::Target;
    }
    LineKind::Other
}

impl Base {
    // What the place of a digit counts.
    fn radix(self) -> usize
        ensures { result ≡ radix self }
    {
        match self {
            Base::Ten => 10,
            Base::Sixteen => 16,
        }
    }

    // How many digits an R line may have.
    fn most_digits(self) -> usize
        ensures { result ≡ most_digits self }
    {
        match self {
            Base::Ten => 5,
            Base::Sixteen => 4,
        }
    }
}

// The value of a digit, letters in either case; none where the byte is no digit of the base.
fn digit_in(radix: usize, b: u8) -> Option<usize>
    requires { radix ≤ 16 }
    ensures { result ≡ below radix (digit b) }
{
    let value = match b {
        b'0'..=b'9' => (b - b'0') as usize,
        b'A'..=b'F' => (b - b'A' + 10) as usize,
        b'a'..=b'f' => (b - b'a' + 10) as usize,
        _ => return None,
    };
    if value < radix { Some(value) } else { None }
}

// What stands after the `R ` of an R line: digits of the base, one to five in base 10 and one to four in base 16, and nothing else, value 0 to 65,535.
fn size_in(format: Format, l: &[u8]) -> Option<usize>
    ensures { held result ≡ size_of format l.now }
{
    let radix = format.base.radix();
    let most = format.base.most_digits();
    if l.len() < 3 || most < l.len() - 2 {
        return None;
    }
    let mut v: usize = 0;
    for b in &l[2..] {
        let d = digit_in(radix, *b)?;
        v = v * radix + d;
    }
    if v <= 65535 { Some(v) } else { None }
}

// What the lines so far have said: the size of a register block, where an R line states one, and whether there was a status line.
#[derive(Clone, Copy, Debug, PartialEq, Eq)]
struct Seen {
    size: Option<usize>,
    status: bool,
}

// An R line after lines that said `seen`.
fn register_step(format: Format, seen: Seen, l: &[u8]) -> Result<Seen, Refusal>
    ensures { result ≡ register_step seen (size_of format l.now) }
{
    if seen.size.is_some() {
        return Err(Refusal::BadLine);
    }
    let Some(n) = size_in(format, l) else {
        return Err(Refusal::BadLine);
    };
    Ok(Seen {
        size: Some(n),
        ..seen
    })
}

// The line `l` after lines that said `seen`.
fn line_step(format: Format, seen: Seen, l: &[u8]) -> Result<Seen, Refusal>
    ensures { result ≡ line_step format seen l.now }
{
    if is_register(l) {
        return register_step(format, seen, l);
    }
    if is_status(l) {
        if seen.status {
            return Err(Refusal::BadLine);
        }
        return Ok(Seen {
            status: true,
            ..seen
        });
    }
    Ok(seen)
}

// Where the line that starts at `from` ends: at its 0A, or where `s` does.
pub fn line_end(s: &[u8], from: usize) -> usize
    ensures { result ≡ from + length (line_of (drop from s.now)) }
{
    for at in from..s.len() {
        if s[at] == b'\n' {
            return at;
        }
    }
    from.max(s.len())
}

// Where the description ends, after the empty line's 0A, and the register size that it states.
#[derive(Clone, Copy, Debug, PartialEq, Eq)]
pub struct Opening {
    pub end: usize,
    pub size: Option<usize>,
}

// The description's lines from `from` on, up to the closing empty one.
fn lines_from(format: Format, s: &[u8], from: usize) -> Result<Opening, Refusal>
    ensures { opening_meaning result ≡ lines_seen format (length s.now) (description format [] [] (drop from s.now)) }
{
    let mut start = from;
    let mut seen = Seen {
        size: None,
        status: false,
    };
    while start < s.len() {
        let end = line_end(s, start);
        if s.len() <= end {
            return Err(Refusal::NoEmptyLine);
        }
        if end <= start {
            return Ok(Opening {
                end: end + 1,
                size: seen.size,
            });
        }
        seen = line_step(format, seen, &s[start..end])?;
        start = end + 1;
    }
    Err(Refusal::NoEmptyLine)
}

// The opening of a file: its head and its description.
pub fn opening_of(format: Format, s: &[u8]) -> Result<Opening, Refusal>
    ensures { opening_meaning result ≡ opening_seen format s.now }
{
    if !fields::begins(s, b"\x7fTRACE0\n") {
        return Err(Refusal::BadHead);
    }
    lines_from(format, s, 8)
}

// The refusals, as document 01's table and the requests of document 02 have them. specs/Refusal.antt gives their numbers.
#![tactic(auto)]

ghost use Rattle.std.specs.Prelude.{◌≡◌};
ghost use Rattle.refusals.specs.Number.{number};

use std::fmt;

// The longest file, 64 MiB.
pub const LIMIT: usize = 67108864;

// Why a call refuses, in the order of the table's numbers: from 1 on, and document 02's behind a gap.
#[derive(Clone, Copy, Debug, PartialEq, Eq)]
pub enum Refusal {
    // A file, or a join's result, is longer than 67,108,864 bytes.
    TooLong,
    // An argument is wrong: byte order not 0 or 1; a range with low above high; more than 8 ranges.
    BadArgument,
    // The head differs or is cut short.
    BadHead,
    // The description has no empty line.
    NoEmptyLine,
    // An ended `R ` line breaks its form, or a second `R ` or `status ` line.
    BadLine,
    // 1 to 5 bytes remain where a frame head should start, and do not begin with two bytes of 0.
    ShortHead,
    // A frame's data runs past the file.
    DataPastFile,
    // A block letter other than R, M, V.
    BadLetter,
    // A block runs past its frame's data.
    BlockPastData,
    // An `R` block where no R line was given.
    NoRegisterSize,
    // The result is longer than the output, or there are more frames than records.
    NoRoom,
    // No such line, frame, block, CPU; no covering block; no such register block or variable.
    NotFound,
    // The openings to be joined differ.
    OpeningsDiffer,
    // A trace.dat field or named piece runs past the file.
    FieldPastFile,
    // A trace.dat fixed string, flag, long size or page size is wrong.
    BadConstant,
    // CPU count above 1,024; a CPU range misaligned, before the header's end or past the file.
    BadRange,
    // Two CPU ranges overlap.
    RangesOverlap,
    // A bad end mark: two bytes of 0 where a frame head should start, and not exactly four bytes of 0 from them to the file's end.
    BadMark,
    // A second `R` block in a frame.
    SecondRegisters,
}

impl Refusal {
    // The table's number.
    pub fn number(self) -> u8
        ensures { result ≡ number self }
    {
        match self {
            Refusal::SecondRegisters => 24,
            _ => self as u8 + 1,
        }
    }
}

// By its number, as the programs print it.
impl fmt::Display for Refusal {
    fn fmt<W: fmt::Write>(&self, f: &mut fmt::Formatter<W>) -> fmt::Result {
        write!(f, "{}", self.number())
    }
}

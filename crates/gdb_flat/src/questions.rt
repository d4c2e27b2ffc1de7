// The answers about a GDB trace as C has them.
ghost use Rattle.std.specs.Prelude.{◌≡◌};
ghost use Rattle.fields.specs.Meaning.{answer_of};
ghost use Rattle.gdb_data.specs.Blocks.{kind_meaning};
ghost use Rattle.gdb_frames.specs.Questions.{place_meaning, line_meaning};
ghost use Rattle.gdb_blocks.specs.Search.{block_meaning};
ghost use Rattle.gdb_seek.specs.Found.{found_meaning};
ghost use Rattle.gdb_flat.specs.Flat.{flat_count, flat_mark, flat_place, flat_frame, kind_number, flat_line, shown_block, flat_block, flat_value};

use gdb_data::{BlockKind, BlockRecord};
use gdb_format::LineKind;
use gdb_frames::{DescriptionLine, Part};
use gdb_seek::FoundFrame;
use refusals::Refusal;

#[repr(C)]
#[derive(Clone, Copy, Debug, PartialEq, Eq)]
pub struct Count {
    pub refusal: u8,
    pub count: usize,
}

impl From<Result<usize, Refusal>> for Count {
    ghost from_gives = { λ answer count. count ≡ flat_count (answer_of answer) };

    #[tactic(auto, unfolding(crate::specs::Flat::flat_count))]
    fn from(answer: Result<usize, Refusal>) -> Self {
        match answer {
            Ok(count) => Count { refusal: 0, count },
            Err(e) => Count {
                refusal: e.number(),
                count: 0,
            },
        }
    }
}

#[repr(C)]
#[derive(Clone, Copy, Debug, PartialEq, Eq)]
pub struct Mark {
    pub refusal: u8,
    pub marked: u8,
}

impl From<Result<bool, Refusal>> for Mark {
    ghost from_gives = { λ answer mark. mark ≡ flat_mark (answer_of answer) };

    #[tactic(auto, unfolding(crate::specs::Flat::flat_mark))]
    fn from(answer: Result<bool, Refusal>) -> Self {
        match answer {
            Ok(marked) => Mark {
                refusal: 0,
                marked: marked as u8,
            },
            Err(e) => Mark {
                refusal: e.number(),
                marked: 0,
            },
        }
    }
}

// A line's kind, by its number in the header.
fn kind_number(kind: LineKind) -> u8
    ensures { result ≡ kind_number kind }
{
    kind as u8
}

#[repr(C)]
#[derive(Clone, Copy, Debug, PartialEq, Eq)]
pub struct Line {
    pub refusal: u8,
    pub kind: u8,
    pub place: usize,
    pub length: usize,
}

impl From<Result<DescriptionLine, Refusal>> for Line {
    ghost from_gives = { λ answer line. line ≡ flat_line (line_meaning answer) };

    #[tactic(auto, unfolding(crate::specs::Flat::flat_line))]
    fn from(answer: Result<DescriptionLine, Refusal>) -> Self {
        match answer {
            Ok(line) => Line {
                refusal: 0,
                kind: kind_number(line.kind),
                place: line.part.place,
                length: line.part.length,
            },
            Err(e) => Line {
                refusal: e.number(),
                kind: 0,
                place: 0,
                length: 0,
            },
        }
    }
}

#[repr(C)]
#[derive(Clone, Copy, Debug, PartialEq, Eq)]
pub struct Place {
    pub refusal: u8,
    pub place: usize,
    pub length: usize,
}

impl From<Result<Part, Refusal>> for Place {
    ghost from_gives = { λ answer place. place ≡ flat_place (place_meaning answer) };

    #[tactic(auto, unfolding(crate::specs::Flat::flat_place))]
    fn from(answer: Result<Part, Refusal>) -> Self {
        match answer {
            Ok(Part { place, length }) => Place {
                refusal: 0,
                place,
                length,
            },
            Err(e) => Place {
                refusal: e.number(),
                place: 0,
                length: 0,
            },
        }
    }
}

#[repr(C)]
#[derive(Clone, Copy, Debug, PartialEq, Eq)]
pub struct FramePart {
    pub refusal: u8,
    pub place: usize,
    pub length: usize,
    pub heads: usize,
}

impl From<Result<FoundFrame, Refusal>> for FramePart {
    ghost from_gives = { λ answer frame. frame ≡ flat_frame (found_meaning answer) };

    #[tactic(auto, unfolding(crate::specs::Flat::flat_frame))]
    fn from(answer: Result<FoundFrame, Refusal>) -> Self {
        match answer {
            Ok(frame) => FramePart {
                refusal: 0,
                place: frame.part.place,
                length: frame.part.length,
                heads: frame.heads,
            },
            Err(e) => FramePart {
                refusal: e.number(),
                place: 0,
                length: 0,
                heads: 0,
            },
        }
    }
}

#[repr(C)]
#[derive(Clone, Copy, Debug, PartialEq, Eq)]
pub struct Block {
    pub refusal: u8,
    pub letter: u8,
    pub number: u32,
    pub place: usize,
    pub address: u64,
    pub length: usize,
    pub value: i64,
}

// What a block's kind does not carry is 0.
const ZEROS: Block = Block {
    refusal: 0,
    letter: 0,
    number: 0,
    place: 0,
    address: 0,
    length: 0,
    value: 0,
};

impl From<BlockRecord> for Block {
    ghost from_gives = { λ met block. block ≡ shown_block met.place (kind_meaning met.kind) };

    fn from(record: BlockRecord) -> Self {
        let place = record.place;
        match record.kind {
            BlockKind::Registers => Block {
                letter: b'R',
                place,
                ..ZEROS
            },
            BlockKind::Memory(span) => Block {
                letter: b'M',
                place,
                address: span.address,
                length: span.length,
                ..ZEROS
            },
            BlockKind::Variable { number, value } => Block {
                letter: b'V',
                place,
                number,
                value,
                ..ZEROS
            },
        }
    }
}

impl From<Result<BlockRecord, Refusal>> for Block {
    ghost from_gives = { λ answer block. block ≡ flat_block (block_meaning answer) };

    #[tactic(auto, unfolding(crate::specs::Flat::flat_block))]
    fn from(answer: Result<BlockRecord, Refusal>) -> Self {
        match answer {
            Ok(record) => Block::from(record),
            Err(e) => Block {
                refusal: e.number(),
                ..ZEROS
            },
        }
    }
}

#[repr(C)]
#[derive(Clone, Copy, Debug, PartialEq, Eq)]
pub struct Value {
    pub refusal: u8,
    pub value: i64,
}

impl From<Result<i64, Refusal>> for Value {
    ghost from_gives = { λ answer value. value ≡ flat_value (answer_of answer) };

    #[tactic(auto, unfolding(crate::specs::Flat::flat_value))]
    fn from(answer: Result<i64, Refusal>) -> Self {
        match answer {
            Ok(value) => Value { refusal: 0, value },
            Err(e) => Value {
                refusal: e.number(),
                value: 0,
            },
        }
    }
}

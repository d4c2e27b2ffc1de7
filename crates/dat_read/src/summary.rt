// What a header's summary holds: flags, counts, and where each section stands.
ghost use Rattle.std.specs.Prelude.{◌≡◌};
ghost use Rattle.dat_read.specs.Summary.{part_to};

use fields::Order;

// A part of the file.
#[derive(Clone, Copy, Debug, PartialEq, Eq)]
pub struct Part {
    pub place: usize,
    pub size: usize,
}

// Byte order, long size and page size.
#[derive(Clone, Copy, Debug, PartialEq, Eq)]
pub struct Flags {
    pub order: Order,
    pub long: u8,
    pub page: u32,
}

// The header page's and header event's data; the ftrace formats and the systems, each after their count; both counts.
#[derive(Clone, Copy, Debug, PartialEq, Eq)]
pub struct SectionParts {
    pub header_page: Part,
    pub header_event: Part,
    pub formats: Part,
    pub systems: Part,
    pub format_count: u32,
    pub system_count: u32,
}

// Kallsyms, printk formats and process names; the CPU count.
#[derive(Clone, Copy, Debug, PartialEq, Eq)]
pub struct TextParts {
    pub kallsyms: Part,
    pub printk: Part,
    pub processes: Part,
    pub cpus: u32,
}

// How a header ends.
#[derive(Clone, Copy, Debug, PartialEq, Eq)]
pub enum EndingKind {
    Latency,
    Flyrecord,
}

// The options, the kind of the ending, and where its entries or text start.
#[derive(Clone, Copy, Debug, PartialEq, Eq)]
pub struct TailParts {
    pub options: Part,
    pub ending: EndingKind,
    pub place: usize,
}

// `options` runs from the first type through the closing 0, and is 0 and 0 where there are none; `body` is the CPU entries, or
// the text of a latency file.
#[derive(Clone, Copy, Debug, PartialEq, Eq)]
pub struct Summary {
    pub flags: Flags,
    pub sections: SectionParts,
    pub texts: TextParts,
    pub options: Part,
    pub ending: EndingKind,
    pub body: Part,
}

// The bytes from `place` up to `next`; none where `next` lies before.
pub fn span(place: usize, next: usize) -> Part
    ensures { result ≡ part_to place next }
{
    Part {
        place,
        size: next.saturating_sub(place),
    }
}

// The structs of the C interface about a trace.dat file: an answer is the refusal 0 and the values, or the refusal's number and zeros.
#![tactic(auto)]

ghost use Rattle.std.specs.Prelude.{◌≡◌};
ghost use Rattle.refusals.specs.Number.{number};
ghost use Rattle.fields.specs.Meaning.{answer_of, answer_by};
ghost use Rattle.dat_ranges.specs.Ranges.{stored};
ghost use Rattle.dat_flat.specs.Flat.{flat_part, shown_summary, refused_summary, flat_summary, flat_range};

use dat_read::summary;
use dat_read::summary::Summary;
use refusals::Refusal;

#[repr(C)]
#[derive(Clone, Copy, Debug, PartialEq, Eq)]
pub struct Part {
    pub place: usize,
    pub size: usize,
}

impl From<summary::Part> for Part {
    ghost from_gives = { λ part flat. flat ≡ flat_part part };

    fn from(part: summary::Part) -> Self {
        Part {
            place: part.place,
            size: part.size,
        }
    }
}

#[repr(C)]
#[derive(Clone, Copy, Debug, PartialEq, Eq)]
pub struct DatSummary {
    pub refusal: u8,
    pub order: u8,
    pub long_size: u8,
    pub ending: u8,
    pub page_size: u32,
    pub format_count: u32,
    pub system_count: u32,
    pub cpu_count: u32,
    pub header_page: Part,
    pub header_event: Part,
    pub formats: Part,
    pub systems: Part,
    pub kallsyms: Part,
    pub printk: Part,
    pub processes: Part,
    pub options: Part,
    pub body: Part,
}

// The byte order and the ending are numbered in the order in which the enums have them, as in the header.
impl From<Summary> for DatSummary {
    ghost from_gives = { λ summary flat. flat ≡ shown_summary summary };

    fn from(summary: Summary) -> Self {
        let Summary {
            flags,
            sections,
            texts,
            options,
            ending,
            body,
        } = summary;
        DatSummary {
            refusal: 0,
            order: flags.order as u8,
            long_size: flags.long,
            ending: ending as u8,
            page_size: flags.page,
            format_count: sections.format_count,
            system_count: sections.system_count,
            cpu_count: texts.cpus,
            header_page: Part::from(sections.header_page),
            header_event: Part::from(sections.header_event),
            formats: Part::from(sections.formats),
            systems: Part::from(sections.systems),
            kallsyms: Part::from(texts.kallsyms),
            printk: Part::from(texts.printk),
            processes: Part::from(texts.processes),
            options: Part::from(options),
            body: Part::from(body),
        }
    }
}

impl From<Refusal> for DatSummary {
    ghost from_gives = { λ refusal flat. flat ≡ refused_summary (number refusal) };

    fn from(refusal: Refusal) -> Self {
        let none = Part { place: 0, size: 0 };
        DatSummary {
            refusal: refusal.number(),
            order: 0,
            long_size: 0,
            ending: 0,
            page_size: 0,
            format_count: 0,
            system_count: 0,
            cpu_count: 0,
            header_page: none,
            header_event: none,
            formats: none,
            systems: none,
            kallsyms: none,
            printk: none,
            processes: none,
            options: none,
            body: none,
        }
    }
}

impl From<Result<Summary, Refusal>> for DatSummary {
    ghost from_gives = { λ answer flat. flat ≡ flat_summary (answer_of answer) };

    #[tactic(auto, unfolding(crate::specs::Flat::flat_summary))]
    fn from(answer: Result<Summary, Refusal>) -> Self {
        match answer {
            Ok(summary) => DatSummary::from(summary),
            Err(e) => DatSummary::from(e),
        }
    }
}

#[repr(C)]
#[derive(Clone, Copy, Debug, PartialEq, Eq)]
pub struct CpuRange {
    pub refusal: u8,
    pub offset: u64,
    pub size: u64,
}

impl From<Result<dat_ranges::CpuRange, Refusal>> for CpuRange {
    ghost from_gives = { λ answer flat. flat ≡ flat_range (answer_by stored answer) };

    #[tactic(auto, unfolding(crate::specs::Flat::flat_range))]
    fn from(answer: Result<dat_ranges::CpuRange, Refusal>) -> Self {
        match answer {
            Ok(range) => CpuRange {
                refusal: 0,
                offset: range.offset,
                size: range.size,
            },
            Err(e) => CpuRange {
                refusal: e.number(),
                offset: 0,
                size: 0,
            },
        }
    }
}

// Selections, and the answers of cut, join and pairs, as C has them.
ghost use Rattle.std.specs.Prelude.{◌≡◌};
ghost use Rattle.fields.specs.Meaning.{answer_of};
ghost use Rattle.gdb_pair.specs.Pair.{pair_place_meaning};
ghost use Rattle.gdb_flat.specs.Flat.{flat_length, flat_pair, selection_in, flat_selection};

use gdb_pair::PairPlace;
use gdb_select::Range;
use refusals::Refusal;

// A selection as C has it: `keep` is 0 for the numbers in none of the ranges, any other value for those in some.
#[repr(C)]
#[derive(Clone, Copy, Debug, PartialEq, Eq)]
pub struct Selection {
    pub ranges: [Range; 8],
    pub count: usize,
    pub keep: u8,
}

impl From<Selection> for gdb_select::Selection {
    ghost from_gives = { λ flat selection. selection ≡ selection_in flat };

    fn from(selection: Selection) -> Self {
        let Selection {
            ranges,
            count,
            keep,
        } = selection;
        gdb_select::Selection {
            ranges,
            count,
            keep: keep != 0,
        }
    }
}

impl From<gdb_select::Selection> for Selection {
    ghost from_gives = { λ selection flat. flat ≡ flat_selection selection };

    #[tactic(auto, unfolding(crate::specs::Flat::flat_selection))]
    fn from(selection: gdb_select::Selection) -> Self {
        let gdb_select::Selection {
            ranges,
            count,
            keep,
        } = selection;
        Selection {
            ranges,
            count,
            keep: keep as u8,
        }
    }
}

#[repr(C)]
#[derive(Clone, Copy, Debug, PartialEq, Eq)]
pub struct Length {
    pub refusal: u8,
    pub length: usize,
}

impl From<Result<usize, Refusal>> for Length {
    ghost from_gives = { λ answer length. length ≡ flat_length (answer_of answer) };

    #[tactic(auto, unfolding(crate::specs::Flat::flat_length))]
    fn from(answer: Result<usize, Refusal>) -> Self {
        match answer {
            Ok(length) => Length { refusal: 0, length },
            Err(e) => Length {
                refusal: e.number(),
                length: 0,
            },
        }
    }
}

#[repr(C)]
#[derive(Clone, Copy, Debug, PartialEq, Eq)]
pub struct PairPart {
    pub refusal: u8,
    pub trace: u8,
    pub place: usize,
    pub length: usize,
}

impl From<Result<PairPlace, Refusal>> for PairPart {
    ghost from_gives = { λ answer part. part ≡ flat_pair (pair_place_meaning answer) };

    #[tactic(auto, unfolding(crate::specs::Flat::flat_pair))]
    fn from(answer: Result<PairPlace, Refusal>) -> Self {
        match answer {
            Ok(PairPlace::First(part)) => PairPart {
                refusal: 0,
                trace: 0,
                place: part.place,
                length: part.length,
            },
            Ok(PairPlace::Second(part)) => PairPart {
                refusal: 0,
                trace: 1,
                place: part.place,
                length: part.length,
            },
            Err(e) => PairPart {
                refusal: e.number(),
                trace: 0,
                place: 0,
                length: 0,
            },
        }
    }
}

// Selections of frames by their tracepoint numbers.
#![tactic(auto)]

ghost use Rattle.std.specs.Prelude.{◌≡◌, ◌&&◌, leb};
ghost use Rattle.gdb_select.specs.Selection.{in_some, selects, meaning, valid, against};

// Tracepoint numbers from low to high, both among them.
#[repr(C)]
#[derive(Clone, Copy, Debug, PartialEq, Eq)]
pub struct Range {
    pub low: u16,
    pub high: u16,
}

impl Range {
    fn is_ordered(self) -> bool
        ensures { result ≡ leb self.low self.high }
    {
        self.low <= self.high
    }

    fn holds(self, n: u16) -> bool
        ensures { result ≡ (leb self.low n && leb n self.high) }
    {
        self.low <= n && n <= self.high
    }
}

// The numbers in one of the first `count` ranges, or with `keep` false the others. The ranges behind are no part of it.
#[derive(Clone, Copy, Debug, PartialEq, Eq)]
pub struct Selection {
    pub ranges: [Range; 8],
    pub count: usize,
    pub keep: bool,
}

// The selection of the others.
pub fn opposite(selection: Selection) -> Selection
    ensures { result ≡ against selection }
{
    Selection {
        keep: !selection.keep,
        ..selection
    }
}

// Whether it is one: at most eight ranges, none with low above high.
pub fn is_valid(selection: Selection) -> bool
    ensures { result ≡ valid selection }
{
    let most = selection.ranges.len();
    let mut stated = selection.ranges.iter().take(selection.count);
    selection.count <= most && stated.all(|r| r.is_ordered())
}

// Of a count above 8, the eight ranges that the array has.
fn in_some(selection: Selection, n: u16) -> bool
    ensures { result ≡ in_some (meaning selection).ranges n }
{
    let mut stated = selection.ranges.iter().take(selection.count);
    stated.any(|r| r.holds(n))
}

// Whether a frame of this tracepoint number is selected.
pub fn is_selected(selection: Selection, n: u16) -> bool
    ensures { result ≡ selects (meaning selection) n }
{
    selection.keep == in_some(selection, n)
}

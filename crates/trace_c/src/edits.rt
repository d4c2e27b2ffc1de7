// Cut, join and pairs of GDB traces.
ghost use Rattle.std.specs.Prelude.{◌≡◌};
ghost use Rattle.gdb_cut.specs.Cut.{cut_of};
ghost use Rattle.gdb_join.specs.Join.{join_of};
ghost use Rattle.gdb_select.specs.Selection.{against};
ghost use Rattle.gdb_pair.specs.Pair.{pair_place, pair_variable};
ghost use Rattle.gdb_flat.specs.Flat.{flat_value, flat_length, flat_pair, selection_in, flat_selection, FlatLent};

use gdb_flat::edits::{Length, PairPart, Selection};
use gdb_flat::questions::Value;
use gdb_format::Settings;

#[unsafe(no_mangle)]
pub extern "C" fn tfk_opposite(selection: Selection) -> Selection
    ensures { result ≡ flat_selection (against (selection_in selection)) }
{
    let given = gdb_select::Selection::from(selection);
    let turned = gdb_select::opposite(given);
    Selection::from(turned)
}

#[unsafe(no_mangle)]
pub extern "C" fn tfk_cut(
    settings: Settings,
    file: &[u8],
    selection: Selection,
    out: &mut [u8],
) -> Length
    ensures { FlatLent flat_length (cut_of settings (selection_in selection) file.now) out.old result out.new }
{
    Length::from(gdb_cut::cut(settings, file, gdb_select::Selection::from(selection), out))
}

#[unsafe(no_mangle)]
pub extern "C" fn tfk_join(
    settings: Settings,
    first: &[u8],
    second: &[u8],
    out: &mut [u8],
) -> Length
    ensures { FlatLent flat_length (join_of settings first.now second.now) out.old result out.new }
{
    Length::from(gdb_join::join(settings, first, second, out))
}

#[unsafe(no_mangle)]
pub extern "C" fn tfk_pair_place(
    settings: Settings,
    first: &[u8],
    second: &[u8],
    n: usize,
) -> PairPart
    ensures { result ≡ flat_pair (pair_place settings first.now second.now n) }
{
    PairPart::from(gdb_pair::pair_place(settings, first, second, n))
}

#[unsafe(no_mangle)]
pub extern "C" fn tfk_pair_variable(
    settings: Settings,
    first: &[u8],
    second: &[u8],
    n: usize,
    number: u32,
) -> Value
    ensures { result ≡ flat_value (pair_variable settings first.now second.now n number) }
{
    Value::from(gdb_pair::pair_variable(settings, first, second, n, number))
}

// Questions about a GDB trace.
ghost use Rattle.std.specs.Prelude.{◌≡◌};
ghost use Rattle.gdb_format.specs.Settings.{default_settings};
ghost use Rattle.gdb_frames.specs.Questions.{asked, frame_count, end_mark, line_at};
ghost use Rattle.gdb_blocks.specs.Search.{block_at, registers_at, memory_at, variable_at};
ghost use Rattle.gdb_seek.specs.Found.{frame_found};
ghost use Rattle.gdb_table.specs.Records.{frame_table};
ghost use Rattle.gdb_flat.specs.Flat.{flat_count, flat_mark, flat_place, flat_frame, flat_line, flat_block, flat_value, FlatLent};

use gdb_flat::questions::{Block, Count, FramePart, Line, Mark, Place, Value};
use gdb_format::Settings;
use gdb_table::FrameRecord;

#[unsafe(no_mangle)]
pub extern "C" fn tfk_default_settings(order: u8) -> Settings
    ensures { result ≡ default_settings order }
{
    gdb_format::default_settings(order)
}

#[unsafe(no_mangle)]
pub extern "C" fn tfk_frame_count(settings: Settings, file: &[u8]) -> Count
    ensures { result ≡ flat_count (asked settings file.now frame_count) }
{
    Count::from(gdb_frames::frame_count(settings, file))
}

#[unsafe(no_mangle)]
pub extern "C" fn tfk_end_mark(settings: Settings, file: &[u8]) -> Mark
    ensures { result ≡ flat_mark (asked settings file.now end_mark) }
{
    Mark::from(gdb_frames::end_mark(settings, file))
}

#[unsafe(no_mangle)]
pub extern "C" fn tfk_frame_table(settings: Settings, file: &[u8], out: &mut [FrameRecord]) -> Count
    ensures { FlatLent flat_count (asked settings file.now frame_table) out.old result out.new }
{
    Count::from(gdb_table::table(settings, file, out))
}

#[unsafe(no_mangle)]
pub extern "C" fn tfk_line_place(settings: Settings, file: &[u8], j: usize) -> Line
    ensures { result ≡ flat_line (asked settings file.now (line_at j)) }
{
    Line::from(gdb_frames::line_place(settings, file, j))
}

#[unsafe(no_mangle)]
pub extern "C" fn tfk_frame_place(settings: Settings, file: &[u8], n: usize) -> FramePart
    ensures { result ≡ flat_frame (frame_found settings file.now n) }
{
    FramePart::from(gdb_seek::frame_place(settings, file, n))
}

#[unsafe(no_mangle)]
pub extern "C" fn tfk_block_record(settings: Settings, file: &[u8], n: usize, k: usize) -> Block
    ensures { result ≡ flat_block (asked settings file.now (block_at n k)) }
{
    Block::from(gdb_blocks::block_record(settings, file, n, k))
}

#[unsafe(no_mangle)]
pub extern "C" fn tfk_registers_place(settings: Settings, file: &[u8], n: usize) -> Place
    ensures { result ≡ flat_place (asked settings file.now (registers_at n)) }
{
    Place::from(gdb_blocks::registers_place(settings, file, n))
}

#[unsafe(no_mangle)]
pub extern "C" fn tfk_memory_place(settings: Settings, file: &[u8], n: usize, address: u64) -> Place
    ensures { result ≡ flat_place (asked settings file.now (memory_at n address)) }
{
    Place::from(gdb_blocks::memory_place(settings, file, n, address))
}

#[unsafe(no_mangle)]
pub extern "C" fn tfk_variable(settings: Settings, file: &[u8], n: usize, number: u32) -> Value
    ensures { result ≡ flat_value (asked settings file.now (variable_at n number)) }
{
    Value::from(gdb_blocks::variable(settings, file, n, number))
}

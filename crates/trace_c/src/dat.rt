// Questions about a trace.dat file.
ghost use Rattle.std.specs.Prelude.{◌≡◌};
ghost use Rattle.tracedat.specs.Questions.{summed, cpu_range};
ghost use Rattle.dat_flat.specs.Flat.{flat_summary, flat_range};

use dat_flat::{CpuRange, DatSummary};

#[unsafe(no_mangle)]
pub extern "C" fn tfk_dat_read(file: &[u8]) -> DatSummary
    ensures { result ≡ flat_summary (summed file.now) }
{
    DatSummary::from(tracedat::summary(file))
}

#[unsafe(no_mangle)]
pub extern "C" fn tfk_dat_cpu_range(file: &[u8], i: usize) -> CpuRange
    ensures { result ≡ flat_range (cpu_range i file.now) }
{
    CpuRange::from(tracedat::cpu_range(file, i))
}

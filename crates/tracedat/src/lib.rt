// trace.dat, version 6: the summary of a file's header, and where a CPU's data stands.
#![tactic(auto)]

ghost use Rattle.std.specs.Prelude.{◌≡◌};
ghost use Rattle.fields.specs.Meaning.{answer_of, answer_by};
ghost use Rattle.dat_ranges.specs.Ranges.{stored};
ghost use Rattle.tracedat.specs.Questions.{summed, cpu_range};

use dat_ranges::{CpuRange, Test};
use dat_read::summary::{EndingKind, Summary};
use refusals::{LIMIT, Refusal};

// The whole file's header, its CPU ranges with it.
pub fn summary(file: &[u8]) -> Result<Summary, Refusal>
    ensures { answer_of result ≡ summed file.now }
{
    if LIMIT < file.len() {
        return Err(Refusal::TooLong);
    }
    let (summary, end) = dat_walk::walk(file)?;
    match summary.ending {
        EndingKind::Latency => Ok(summary),
        EndingKind::Flyrecord => {
            let test = Test {
                page: summary.flags.page,
                end: end as u64,
                total: file.len() as u64,
            };
            dat_ranges::judge(
                file,
                summary.flags.order,
                test,
                summary.texts.cpus,
                summary.body.place,
            )?;
            Ok(summary)
        }
    }
}

// CPU i's range, as stored.
pub fn cpu_range(file: &[u8], i: usize) -> Result<CpuRange, Refusal>
    ensures { answer_by stored result ≡ cpu_range i file.now }
{
    let header = summary(file)?;
    match header.ending {
        EndingKind::Flyrecord if i < header.texts.cpus as usize => {
            let order = header.flags.order;
            let at = header.body.place + 16 * i;
            Ok(CpuRange {
                offset: fields::u64_at(file, order, at),
                size: fields::u64_at(file, order, at + 8),
            })
        }
        _ => Err(Refusal::NotFound),
    }
}

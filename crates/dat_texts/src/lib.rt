// The texts of a header: kallsyms, printk formats, process names; and the CPU count behind them.
#![tactic(auto)]

ghost use Rattle.std.specs.Prelude.{◌≡◌};
ghost use Rattle.fields.specs.Reader.{seen_at};
ghost use Rattle.fields.specs.Meaning.{answer_of};
ghost use Rattle.dat_format.specs.Decode.{texts};
ghost use Rattle.dat_read.specs.Summary.{text_parts};

use dat_read::pieces::Width;
use dat_read::summary::TextParts;
use dat_read::{pieces, summary};
use fields::Order;
use refusals::Refusal;

// The most CPUs that a file may state.
const MOST_CPUS: u32 = 1024;

// The texts from kallsyms through the CPU count, which is judged here, and the place after them.
pub fn texts_at(s: &[u8], order: Order, at: usize) -> Result<(TextParts, usize), Refusal>
    ensures { answer_of result ≡ seen_at text_parts (texts order) s.now at }
{
    let printk = pieces::sized_at(s, order, Width::Four, at)?;
    let processes = pieces::sized_at(s, order, Width::Four, printk)?;
    let count = pieces::sized_at(s, order, Width::Eight, processes)?;
    let end = pieces::bytes_at(s, count, 4)?;
    let cpus = fields::u32_at(s, order, count);
    if MOST_CPUS < cpus {
        return Err(Refusal::BadRange);
    }
    let texts = TextParts {
        kallsyms: summary::span(at + 4, printk),
        printk: summary::span(printk + 4, processes),
        processes: summary::span(processes + 8, count),
        cpus,
    };
    Ok((texts, end))
}

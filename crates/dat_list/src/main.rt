// Lists the header of a trace.dat file of version 6 from standard input on standard output: flags, counts, the place and size of
// each section, and each CPU's range. A refusal prints `refused` and its number.
#![tactic(auto)]

ghost use Rattle.std.specs.Prelude.{◌≡◌, length};

use dat_read::summary::{EndingKind, Flags, Part, Summary};
use fields::Order;
use refusals::Refusal;
use std::{fmt, io};

// The longest file that is listed, the program's own limit.
const LIMIT: usize = 131072;

// Room for it, and for one byte more, which tells that input goes on.
fn input_room() -> [u8; 131073]
    ensures { 131073 ≡ length result }
{
    input::room()
}

// A section's place and size.
#[derive(Clone, Copy)]
struct At(Part);

impl fmt::Display for At {
    fn fmt<W: fmt::Write>(&self, f: &mut fmt::Formatter<W>) -> fmt::Result {
        write!(f, "{} {}", self.0.place, self.0.size)
    }
}

fn flags(rt: &impl Print, f: Flags) -> io::Result<()> {
    let order = match f.order {
        Order::Little => "little",
        Order::Big => "big",
    };
    println!(rt; "order {order}")?;
    println!(rt; "long {}", f.long)?;
    println!(rt; "page {}", f.page)
}

fn sections(rt: &impl Print, s: Summary) -> io::Result<()> {
    let p = s.sections;
    println!(rt; "header_page {}", At(p.header_page))?;
    println!(rt; "header_event {}", At(p.header_event))?;
    println!(rt; "formats {} {}", At(p.formats), p.format_count)?;
    println!(rt; "systems {} {}", At(p.systems), p.system_count)?;
    let t = s.texts;
    println!(rt; "kallsyms {}", At(t.kallsyms))?;
    println!(rt; "printk {}", At(t.printk))?;
    println!(rt; "processes {}", At(t.processes))?;
    println!(rt; "options {}", At(s.options))
}

fn body(rt: &impl Print, s: Summary) -> io::Result<()> {
    let ending = match s.ending {
        EndingKind::Latency => "latency",
        EndingKind::Flyrecord => "flyrecord",
    };
    println!(rt; "{ending} {}", At(s.body))
}

// CPU i's range, or why there is none.
fn cpu(rt: &impl Print, file: &[u8], i: usize) -> io::Result<()> {
    match tracedat::cpu_range(file, i) {
        Ok(range) => println!(rt; "cpu {i} {} {}", range.offset, range.size),
        Err(e) => println!(rt; "cpu {i} refused {e}"),
    }
}

// The CPU count, every CPU's range, and what the question after the last answers.
fn ranges(rt: &impl Print, file: &[u8], n: u32) -> io::Result<()> {
    println!(rt; "cpus {n}")?;
    for i in 0..=n as usize {
        cpu(rt, file, i)?;
    }
    Ok(())
}

fn listed(rt: &impl Print, file: &[u8]) -> io::Result<()> {
    match tracedat::summary(file) {
        Ok(s) => {
            flags(rt, s.flags)?;
            sections(rt, s)?;
            body(rt, s)?;
            ranges(rt, file, s.texts.cpus)
        }
        Err(e) => println!(rt; "refused {e}"),
    }
}

fn main(rt: HostRuntime) -> io::Result<()> {
    let mut input = input_room();
    let n = input::read_full(&mut rt.stdin(), &mut input)?;
    if LIMIT < n {
        println!(&rt; "refused {}", Refusal::TooLong)
    } else {
        listed(&rt, &input[..n])
    }
}

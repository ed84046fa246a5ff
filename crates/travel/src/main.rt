// Reads a chart file from standard input and says what is on it, or why it is refused.
#![tactic(auto)]

mod fault;
mod report;
mod survey;
#[cfg(test)]
mod tests;

use chart::{Cause, ChartFault};
use chart_file::Trailer;
use fault::TravelFault;
use std::io;
use std::io::Read;
use std::process::ExitCode;
use survey::{LONGEST_FILE, survey};

// The input, or as much of it as shows that it is too long.
fn read_input(rt: &HostRuntime) -> io::Result<Vec<u8>> {
    let mut bytes = Vec::new(rt.alloc());
    rt.stdin()
        .take(LONGEST_FILE as u64 + 1)
        .read_to_end(&mut bytes)?;
    Ok(bytes)
}

// One line for a person: what is wrong with the chart, and where.
fn explain(rt: &HostRuntime, file: &[u8], fault: ChartFault) -> io::Result<()> {
    let cause = fault.cause;
    if let Some(n) = fault.link {
        return eprintln!(rt; "travel: link {n} is wrong: {cause}");
    }
    match (cause, Trailer::read(file)) {
        (Cause::OutsideLimits, Some(trailer)) => explain_limits(rt, file.len(), trailer),
        _ => eprintln!(rt; "travel: {cause}"),
    }
}

fn explain_limits(rt: &HostRuntime, bytes: usize, trailer: Trailer) -> io::Result<()> {
    let Trailer {
        start,
        goal,
        places,
        links,
        back,
    } = trailer;
    eprintln!(rt;
        "travel: the trailer has start {start}, goal {goal}, places {places}, links {links}, length back {back} in {bytes} bytes: places are 1 to 4096, links at most 16384, start and goal below places, length back 8 x places + 16 x links + 16 and within the file"
    )
}

fn tell(rt: &HostRuntime, file: &[u8], fault: TravelFault) -> anyhow::Result<()> {
    match fault {
        TravelFault::Chart(fault) => {
            let number = fault.cause.number();
            println!(rt; "refused {number}")?;
            explain(rt, file, fault)?;
        }
        TravelFault::TooLong => {
            let number = Cause::OutsideLimits.number();
            println!(rt; "refused {number}")?;
            eprintln!(rt; "travel: {fault}")?;
        }
        TravelFault::Memory => return Err(fault.into()),
    }
    Ok(())
}

fn run(rt: &HostRuntime) -> anyhow::Result<()> {
    let file = read_input(rt)?;
    match survey(rt.alloc(), &file) {
        Ok(report) => println!(rt; "{report}")?,
        Err(fault) => tell(rt, &file, fault)?,
    }
    Ok(())
}

fn main(rt: HostRuntime) -> ExitCode {
    match run(&rt) {
        Ok(()) => ExitCode::SUCCESS,
        Err(error) => {
            let _ = eprintln!(rt; "travel: {error}");
            ExitCode::FAILURE
        }
    }
}

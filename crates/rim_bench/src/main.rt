//! `rim_bench JOB SIZE SEED [LANES]`: one of the jobs that users of rim wait for, on files and a manifest that it makes itself.
//!
//! JOB is a name of `Job`, or `all`. SIZE is `full` or `small`. SEED is a number below 2^32, and each gives other files of the
//! same sizes. LANES is 4, as where it is not given, or 8: as wide are the vectors of the processor that the program was built
//! for. Standard input is a devicetree that launches edit, or empty. It prints a line for each job: its name, how many
//! bytes its results have, and their digest.
#![tactic(auto)]

mod contents;
mod digest;
mod job;
mod manifest;
mod run;

use crate::job::{Job, Size};
use crate::run::{Fault, run};
use rim_release::Lanes;
use std::io;
use std::io::Read;
use std::process::ExitCode;
use std::sync::Wait;
use std::thread::Threads;

fn main(rt: HostRuntime) -> ExitCode {
    match make_asked(&rt) {
        Ok(Some(asked)) => match done(&rt, &asked) {
            Ok(()) => ExitCode::SUCCESS,
            Err(_) => ExitCode::FAILURE,
        },
        _ => ExitCode::from(2),
    }
}

/// What the words and standard input ask for.
#[derive(Drop)]
struct Asked {
    job: Option<Job>,
    size: Size,
    seed: u32,
    lanes: Lanes,
    devicetree: Vec<u8>,
}

/// Reads words and standard input. None where the words are none that the program takes.
fn make_asked(rt: &HostRuntime) -> io::Result<Option<Asked>> {
    let words: Vec<String> = std::env::args(rt)?.collect(rt.alloc())?;
    let (Some(name), Some(size), Some(seed)) = (words.get(1), words.get(2), words.get(3)) else {
        return Ok(None);
    };
    let job = Job::named(name.as_str());
    let size = Size::named(size.as_str());
    let (true, Some(size), Ok(seed), Some(lanes)) = (
        job.is_some() || name.as_str() == "all",
        size,
        seed.as_str().parse::<u32>(),
        lanes_named(words.get(4).map(|word| word.as_str())),
    ) else {
        return Ok(None);
    };
    let mut devicetree = Vec::new(rt.alloc());
    rt.reader().read_to_end(&mut devicetree)?;
    Ok(Some(Asked {
        job,
        size,
        seed,
        lanes,
        devicetree,
    }))
}

fn lanes_named(word: Option<&str>) -> Option<Lanes> {
    match word {
        None | Some("4") => Some(Lanes::Four),
        Some("8") => Some(Lanes::Eight),
        Some(_) => None,
    }
}

/// Does the jobs that are asked for.
fn done<R: Threads + Wait + Sync + Print + AllocGlobal>(
    rt: &R,
    asked: &Asked,
) -> Result<(), Fault> {
    for (name, job) in Job::NAMED {
        if asked.job.is_none() || asked.job == Some(job) {
            let shape = job.shape(asked.size);
            let devicetree = asked.devicetree.as_slice();
            let found = run(
                rt,
                rt.alloc(),
                job,
                &shape,
                asked.seed,
                asked.lanes,
                devicetree,
            )?;
            let shown = println!(rt; "{name} {} {:016x}", found.size, found.value);
            shown.map_err(|_| Fault::Output)?;
        }
    }
    Ok(())
}

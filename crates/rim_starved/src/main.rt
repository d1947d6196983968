//! `rim_starved CALL`: a public call that takes memory, on what standard input has. The call is made with ample memory, then
//! between two lines on standard output, `call` and `returned`, and then once more. A third line says what came of the call
//! between the two: `answered`, as with ample memory; `no-memory`, after which what it works on answered as before and the same
//! call answered; or `wrong`. Whoever runs it refuses requests for memory, or the start of a worker, between the two lines.
#![tactic(auto)]

mod calls;
mod inputs;
mod layers;
mod machine;
mod releases;
mod texts;
mod trees;
mod trial;

use crate::calls::{CALLS, Call, named};
use crate::trial::{Fault, Seen, Trial, word};
use std::io::Read;
use std::process::ExitCode;
use std::sync::Wait;
use std::thread::Threads;

fn main(rt: HostRuntime) -> ExitCode {
    let done = match make_asked(&rt) {
        Ok(Some(asked)) => said(&rt, &asked),
        Ok(None) => names(&rt),
        Err(fault) => Err(fault),
    };
    match done {
        Ok(()) => ExitCode::SUCCESS,
        Err(Fault::Output) => ExitCode::FAILURE,
        Err(Fault::Input) => ExitCode::from(2),
        Err(Fault::Changed) => ExitCode::from(3),
    }
}

/// A call, and what standard input has.
#[derive(Drop)]
struct Asked {
    call: Call,
    input: Vec<u8>,
}

/// What the words ask for; `None` where there is no word.
fn make_asked(rt: &HostRuntime) -> Result<Option<Asked>, Fault> {
    let words: Vec<String> = std::env::args(rt)?.collect(rt.alloc())?;
    let Some(word) = words.get(1) else {
        return Ok(None);
    };
    let Some(call) = named(word.as_str()) else {
        return Err(Fault::Input);
    };
    let mut input = Vec::new(rt.alloc());
    rt.reader().read_to_end(&mut input)?;
    Ok(Some(Asked { call, input }))
}

/// Makes a call three times, and says what came of the second.
fn said<R: Threads + Wait + Sync + Print + AllocGlobal>(
    rt: &R,
    asked: &Asked,
) -> Result<(), Fault> {
    let wanted = seen_of(rt, false, asked)?;
    let tried = seen_of(rt, true, asked)?;
    let again = seen_of(rt, false, asked)?;
    let word = word(wanted, tried, again);
    println!(rt; "{word}")?;
    Ok(())
}

/// The names of all calls, one a line.
fn names<R: Print>(rt: &R) -> Result<(), Fault> {
    for (name, _call) in &CALLS {
        println!(rt; "{name}")?;
    }
    Ok(())
}

/// What a call answers.
fn seen_of<R: Threads + Wait + Sync + Print + AllocGlobal>(
    rt: &R,
    is_tried: bool,
    asked: &Asked,
) -> Result<Seen, Fault> {
    let trial = &Trial { rt, is_tried };
    let input = asked.input.as_slice();
    match asked.call {
        Call::Tree(call) => trees::seen(trial, call, input),
        Call::Text(call) => texts::seen(trial, call, input),
        Call::Layer(call) => layers::seen(trial, call, input),
        Call::Release(call) => releases::seen(trial, call, input),
    }
}

//! The program `rim`, for every processor that it runs on.
#![tactic(auto)]

use rim_main::{Lanes, run_program};
use std::process::ExitCode;

fn main(rt: HostRuntime) -> ExitCode {
    run_program(&rt, &rt, Lanes::Four)
}

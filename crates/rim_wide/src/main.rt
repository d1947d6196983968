//! The program `rim`, for a processor whose vectors have eight words of 32 bits, as with AVX2. It runs elsewhere too, and is
//! slower there than the other.
#![tactic(auto)]

use rim_main::{Lanes, run_program};
use std::process::ExitCode;

fn main(rt: HostRuntime) -> ExitCode {
    run_program(&rt, &rt, Lanes::Eight)
}

//! The program `benchmark`: does one workload again and again, so that it can be measured.
#![tactic(auto)]

mod asking;
mod calls;
mod failure;
mod feeding;
mod program;
mod repeating;
mod tenant;
mod workload;

use std::process::ExitCode;

fn main(rt: HostRuntime) -> ExitCode {
    ExitCode::from(program::run(&rt))
}

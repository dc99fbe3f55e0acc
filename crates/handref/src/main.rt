//! The program `handref`.
#![tactic(auto)]

use poker_cli::run_process;
use std::process::ExitCode;

fn main(rt: HostRuntime) -> ExitCode {
    run_process(&rt, rt.stdin(), rt.stdout(), rt.stderr())
}

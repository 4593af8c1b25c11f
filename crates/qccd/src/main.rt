//! The program `qccd`.
#![tactic(auto)]

use qccd_top::start;
use std::process::ExitCode;

fn main(rt: HostRuntime) -> ExitCode {
    start(&rt, rt.stdout(), rt.stderr())
}

//! The program `qccd` again, whose stored run writes more than its buffer holds.
#![tactic(auto)]

use qccd_top::start;
use std::process::ExitCode;

fn main(rt: HostRuntime) -> ExitCode {
    start(&rt, rt.stdout(), rt.stderr())
}

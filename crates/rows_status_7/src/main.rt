//! The program `qccd` again, whose stored run ends with a status other than 0.
#![tactic(auto)]

use qccd_top::start;
use std::process::ExitCode;

fn main(rt: HostRuntime) -> ExitCode {
    start(&rt, rt.stdout(), rt.stderr())
}

//! Carries out a job from standard input on an empty floor, and prints what came of it.
#![tactic(auto)]

use run::legalize;
use std::process::ExitCode;

fn main(rt: HostRuntime) -> ExitCode {
    let mut said = Vec::new(rt.alloc());
    legalize(
        &mut said,
        &mut rt.stdin(),
        &mut rt.stdout(),
        &mut rt.stderr(),
    )
    .status
}

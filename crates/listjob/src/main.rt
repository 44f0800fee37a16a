//! Lists the records of a job from standard input as readable text.
#![tactic(auto)]

use listing::list;
use std::process::ExitCode;

fn main(rt: HostRuntime) -> ExitCode {
    let mut listing = Vec::new(rt.alloc());
    match list(&mut listing, &mut rt.stdin(), &mut rt.stdout()) {
        Ok(()) => ExitCode::SUCCESS,
        Err(why) => {
            let _ = eprintln!(rt; "listjob: {why}");
            ExitCode::FAILURE
        }
    }
}

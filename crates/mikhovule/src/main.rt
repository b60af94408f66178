// Reads a job from standard input, lays it over the ring that it names, and prints its cutting list.
// A refused job gives the one line `refused N P`, and status 1.
#![tactic(auto)]

use replies::printing::print_reply;
use std::process::ExitCode;

fn main(rt: HostRuntime) -> anyhow::Result<ExitCode> {
    let mut sink = rt.stdout();
    if print_reply(rt.alloc(), rt.stdin(), &mut sink)? {
        return Ok(ExitCode::FAILURE);
    }
    Ok(ExitCode::SUCCESS)
}

// Replays calls on a new sheet of a job, and tells after each its answer, the cursor, and how many pieces are laid and nodes set aside.
// If nothing is left at the end, it finishes the sheet and tells what the laid pieces sweep over.
// It is given the paths of a job's text and of a script, a call a line: descend, lay, aside, save FILE, resume FILE.
// A refused job gives the one line `refused N P`, and status 1; a refused call is told, and the next one made.
#![tactic(auto)]

mod replay;
mod script;
mod sweeping;

use anyhow::{Context, anyhow};
use calls::limits::MOST_PIECES;
use calls::row::Row;
use gaussian::Gaussian;
use jobs::job::Job;
use jobs::reading::read;
use jobs::ring::NamedRing;
use placer::descent::Descent;
use placer::memo::Memo;
use refusals::Fault;
use replay::{replay, tell_refused};
use ring_jobs::making::over;
use rings::ring::Ring;
use sheet::open::{Open, Unstarted};
use std::process::ExitCode;
use std::{env, fs};
use sweeping::tell_finished;
use tenfold::Tenfold;

fn refused(rt: &HostRuntime, fault: &impl Fault) -> anyhow::Result<ExitCode> {
    tell_refused(rt, fault)?;
    Ok(ExitCode::FAILURE)
}

// The calls of a script on a new sheet of the job, told.
fn tell_calls<R: Ring>(rt: &HostRuntime, job: &Job, script: &str) -> anyhow::Result<ExitCode> {
    let over = over::<R>(rt.alloc(), job).map_err(|_| anyhow!("out of memory"))?;
    let empty = Row {
        descents: 0,
        laid: None,
    };
    let mut list = vec![in rt.alloc(); empty; MOST_PIECES]?;
    let mut sheet = match Open::start(rt.alloc(), Memo::new(Descent::new(over))) {
        Ok(sheet) => sheet,
        Err(Unstarted { placer: _, fault }) => return refused(rt, &fault),
    };
    let replayed = replay(rt, &mut sheet, &mut list, script);
    let (_, told) = tell_finished(rt, sheet, list.as_slice());
    replayed?;
    told?;
    Ok(ExitCode::SUCCESS)
}

fn main(rt: HostRuntime) -> anyhow::Result<ExitCode> {
    let mut args = env::args(&rt)?;
    let _ = args.next();
    let job = args.next().context("usage: call_replay JOB SCRIPT")?;
    let script = args.next().context("usage: call_replay JOB SCRIPT")?;
    let text = fs::read(&rt, job.as_str())?;
    let calls = fs::read_to_string(&rt, script.as_str())?;
    match read(rt.alloc(), text.as_slice()) {
        Ok(job) => match job.ring {
            NamedRing::Gaussian => tell_calls::<Gaussian>(&rt, &job, calls.as_str()),
            NamedRing::Tenfold => tell_calls::<Tenfold>(&rt, &job, calls.as_str()),
        },
        Err(fault) => refused(&rt, &fault),
    }
}

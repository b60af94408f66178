// Tells whether a file is a lawful save of a job, how many pieces it has laid and nodes set aside, where its cursor stands,
// and which nodes are pending, each with the levels that it lacks to the depth.
// It is given the paths of a job's text and of a file. A refused job or file gives the one line `refused N P`, and status 1.
#![tactic(auto)]

mod report;

use anyhow::{Context, anyhow};
use calls::limits::MOST_PIECES;
use calls::row::Row;
use gaussian::Gaussian;
use jobs::job::Job;
use jobs::reading::read;
use jobs::ring::NamedRing;
use placer::descent::Descent;
use placer::memo::Memo;
use refusals::Fault;
use report::tell_sheet;
use ring_jobs::making::over;
use rings::ring::Ring;
use sheet::open::{Open, Unstarted};
use std::process::ExitCode;
use std::{env, fs};
use tenfold::Tenfold;

fn refused(rt: &HostRuntime, fault: &impl Fault) -> anyhow::Result<ExitCode> {
    let place = fault.place();
    match fault.number() {
        Some(number) => {
            println!(rt; "refused {number} {place}")?;
            Ok(ExitCode::FAILURE)
        }
        None => Err(anyhow!("out of memory")),
    }
}

// The file, resumed on a new sheet of the job, and told.
fn tell_file<R: Ring>(rt: &HostRuntime, job: &Job, file: &[u8]) -> anyhow::Result<ExitCode> {
    let over = over::<R>(rt.alloc(), job).map_err(|_| anyhow!("out of memory"))?;
    let empty = Row {
        descents: 0,
        laid: None,
    };
    let mut list = vec![in rt.alloc(); empty; MOST_PIECES]?;
    let mut sheet = match Open::start(rt.alloc(), Memo::new(Descent::new(over))) {
        Ok(sheet) => sheet,
        Err(Unstarted { placer: _, fault }) => return refused(rt, &fault),
    };
    let resumed = sheet.resume(list.as_mut_slice(), file);
    let told = match resumed {
        Ok(()) => tell_sheet(rt, &sheet, list.as_slice()),
        Err(fault) => refused(rt, &fault),
    };
    let _ = sheet.into_placer();
    told
}

fn main(rt: HostRuntime) -> anyhow::Result<ExitCode> {
    let mut args = env::args(&rt)?;
    let _ = args.next();
    let job = args.next().context("usage: file_report JOB FILE")?;
    let file = args.next().context("usage: file_report JOB FILE")?;
    let text = fs::read(&rt, job.as_str())?;
    let bytes = fs::read(&rt, file.as_str())?;
    match read(rt.alloc(), text.as_slice()) {
        Ok(job) => match job.ring {
            NamedRing::Gaussian => tell_file::<Gaussian>(&rt, &job, bytes.as_slice()),
            NamedRing::Tenfold => tell_file::<Tenfold>(&rt, &job, bytes.as_slice()),
        },
        Err(fault) => refused(&rt, &fault),
    }
}

// Calls on a sheet, each told with its answer and what the sheet is after it.
use crate::script::{Call, call_of};
use anyhow::anyhow;
use calls::limits::MOST_PIECES;
use calls::row::Row;
use placer::placer::Placer;
use refusals::Fault;
use rings::ring::Ring;
use sheet::fault::SheetFault;
use sheet::open::Open;
use std::fs;
use telling::counts::Counts;
use telling::cursors::Standing;
use telling::pieces::Piece;

type Rows<P> = Vec<Row<<<P as Placer>::R as Ring>::Plain>>;

// More bytes than a save has: a record has at most 18.
const BUFFER: usize = 4 + 18 * MOST_PIECES;

pub(crate) fn tell_refused(rt: &HostRuntime, fault: &impl Fault) -> anyhow::Result<()> {
    let place = fault.place();
    match fault.number() {
        Some(number) => {
            println!(rt; "refused {number} {place}")?;
            Ok(())
        }
        None => Err(anyhow!("out of memory")),
    }
}

// The answer of a call that gives nothing.
fn tell_done<R: Ring>(rt: &HostRuntime, answer: Result<(), SheetFault<R>>) -> anyhow::Result<()> {
    match answer {
        Ok(()) => {
            println!(rt; "ok")?;
            Ok(())
        }
        Err(fault) => tell_refused(rt, &fault),
    }
}

fn lay<P: Placer>(rt: &HostRuntime, sheet: &mut Open<P>, list: &mut Rows<P>) -> anyhow::Result<()> {
    match sheet.lay(list.as_mut_slice()) {
        Ok(placed) => {
            let piece = Piece(&placed);
            println!(rt; "laid {piece}")?;
            Ok(())
        }
        Err(fault) => tell_refused(rt, &fault),
    }
}

fn save<P: Placer>(
    rt: &HostRuntime,
    sheet: &Open<P>,
    list: &Rows<P>,
    path: &str,
) -> anyhow::Result<()> {
    let mut buffer = vec![in rt.alloc(); 0u8; BUFFER]?;
    match sheet.save(list.as_slice(), buffer.as_mut_slice()) {
        Ok(bytes) => {
            buffer.truncate(bytes);
            fs::write(rt, path, buffer.as_slice())?;
            println!(rt; "saved {bytes} bytes")?;
            Ok(())
        }
        Err(fault) => tell_refused(rt, &fault),
    }
}

fn make<P: Placer>(
    rt: &HostRuntime,
    sheet: &mut Open<P>,
    list: &mut Rows<P>,
    call: Call<'_>,
) -> anyhow::Result<()> {
    match call {
        Call::Descend => tell_done(rt, sheet.descend()),
        Call::Lay => lay(rt, sheet, list),
        Call::Aside => tell_done(rt, sheet.set_aside(list.as_mut_slice())),
        Call::Save(path) => save(rt, sheet, list, path),
        Call::Resume(path) => {
            let file = fs::read(rt, path)?;
            tell_done(rt, sheet.resume(list.as_mut_slice(), file.as_slice()))
        }
    }
}

fn tell_sheet<P: Placer>(rt: &HostRuntime, sheet: &Open<P>, list: &Rows<P>) -> anyhow::Result<()> {
    let at = Standing(sheet.cursor());
    let counts = Counts::of(list.as_slice(), sheet.count());
    println!(rt; "    {at}; {counts}")?;
    Ok(())
}

// Replays the lines of a script, and tells each call.
pub(crate) fn replay<P: Placer>(
    rt: &HostRuntime,
    sheet: &mut Open<P>,
    list: &mut Rows<P>,
    script: &str,
) -> anyhow::Result<()> {
    for line in script.lines() {
        let call = call_of(line)?;
        println!(rt; "{line}")?;
        make(rt, sheet, list, call)?;
        tell_sheet(rt, sheet, list)?;
    }
    Ok(())
}

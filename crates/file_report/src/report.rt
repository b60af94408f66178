// What a saved file holds, in words.
use calls::cursor::Cursor;
use calls::row::Row;
use nodes::advancing::advanced;
use placer::placer::Placer;
use rings::ring::Ring;
use sheet::open::Open;
use std::process::ExitCode;
use telling::counts::Counts;
use telling::cursors::Standing;
use telling::names::Name;

fn tell_cursor(rt: &HostRuntime, cursor: Option<Cursor>) -> anyhow::Result<()> {
    let at = Standing(cursor);
    let descents = cursor.map_or(0, |c| c.descents);
    println!(rt; "cursor: {at}")?;
    println!(rt; "descents since the last record: {descents}")?;
    Ok(())
}

// The pending nodes, from the cursor's on: each next one is where the cursor would advance to.
fn tell_pending<P: Placer>(rt: &HostRuntime, sheet: &Open<P>) -> anyhow::Result<()> {
    let mut next = sheet.cursor().map(|c| c.node);
    for _ in 0..u16::MAX {
        let Some(node) = next else {
            break;
        };
        let name = Name(&node);
        let lacking = sheet.job().depth.saturating_sub(u32::from(node.level));
        println!(rt; "pending: {name}, {lacking} levels above the depth")?;
        next = advanced(sheet.job(), &node);
    }
    Ok(())
}

// What is recorded, where the cursor stands, and which nodes are pending.
pub(crate) fn tell_sheet<P: Placer>(
    rt: &HostRuntime,
    sheet: &Open<P>,
    list: &[Row<<P::R as Ring>::Plain>],
) -> anyhow::Result<ExitCode> {
    let counts = Counts::of(list, sheet.count());
    println!(rt; "lawful")?;
    println!(rt; "records: {counts}")?;
    tell_cursor(rt, sheet.cursor())?;
    tell_pending(rt, sheet)?;
    Ok(ExitCode::SUCCESS)
}

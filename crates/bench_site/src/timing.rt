//! The cases one after the other.
use crate::cases::{Case, LAP, notary, read, write_1, write_2};
use crate::desk::Desk;
use notary::KeyedNotary;
use std::time::Instant;

/// Prints the checksum of one lap, and the time of enough laps for that many calls.
fn time(rt: &HostRuntime, notary: &KeyedNotary, case: &Case, calls: u32) -> anyhow::Result<()> {
    let mut desk = Desk::new();
    desk.checked(notary, case);
    let name = case.name;
    let f = case.f;
    let checksum = desk.sum;
    println!(rt; "f {f} {name} checksum {checksum}")?;
    let laps = calls / LAP + 1;
    let mut desk = Desk::new();
    let start = Instant::now(rt)?;
    for _ in 0..laps {
        desk.lap(notary, case);
    }
    let nanoseconds = start.elapsed(rt)?.as_nanos();
    let made = u64::from(laps) * u64::from(LAP);
    let sum = desk.sum;
    eprintln!(rt; "f {f} {name} calls {made} nanoseconds {nanoseconds} sum {sum}")?;
    Ok(())
}

/// All cases, with so many calls of each.
pub fn run(rt: &HostRuntime, calls: u32) -> anyhow::Result<()> {
    let heap = rt.alloc();
    let notary = notary();
    for f in [1, 5] {
        time(rt, &notary, &write_1(heap, f)?, calls)?;
        time(rt, &notary, &write_2(heap, f)?, calls)?;
        time(rt, &notary, &read(heap, f)?, calls)?;
    }
    Ok(())
}

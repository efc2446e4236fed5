//! How fast a site is: WRITE-1, WRITE-2 and READ at f = 1 and f = 5, with titles and the keyed notary.
//!
//! `bench_site [CALLS]` prints a checksum of the replies of each case on standard output, and the time of that many calls on
//! standard error. bench/site.rs makes the same calls on another implementation.
#![tactic(auto)]

mod cases;
mod desk;
mod timing;

use crate::timing::run;
use std::env;

/// The number of calls that the first argument asks for.
fn calls(rt: &HostRuntime) -> anyhow::Result<u32> {
    let mut args = env::args(rt)?;
    let _ = args.next();
    match args.next() {
        Some(text) => Ok(text.as_str().parse::<u32>()?),
        None => Ok(1),
    }
}

fn main(rt: HostRuntime) -> anyhow::Result<()> {
    let calls = calls(&rt)?;
    run(&rt, calls)
}

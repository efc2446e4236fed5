// The register's program for a whole pool. With no arguments it plays the built-in story, which is the run that the gate compares.
#![tactic(auto)]

use console::program::run_fresh;
use pool_console::play::Player;
use pool_console::story::STORY;
use pool_console::usage::USAGE;

fn main(rt: HostRuntime) -> anyhow::Result<()> {
    run_fresh::<Player>(&rt, STORY, USAGE)
}

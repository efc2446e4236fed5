// The register's program. With no arguments it plays the built-in story, which is the run that the gate compares.
#![tactic(auto)]

use console::play::Player;
use console::program::run_fresh;
use console::story::STORY;
use console::usage::USAGE;

fn main(rt: HostRuntime) -> anyhow::Result<()> {
    run_fresh::<Player>(&rt, STORY, USAGE)
}

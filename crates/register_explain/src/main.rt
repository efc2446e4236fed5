// The same program as `register`, whose run in the gate is `explain` over messages on standard input.
#![tactic(auto)]

use console::play::Player;
use console::program::run_fresh;
use console::story::STORY;
use console::usage::USAGE;

fn main(rt: HostRuntime) -> anyhow::Result<()> {
    run_fresh::<Player>(&rt, STORY, USAGE)
}

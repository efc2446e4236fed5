// The same program as `register_pool`, whose run in the gate is `play` over a script on standard input.
#![tactic(auto)]

use console::program::run_fresh;
use pool_console::play::Player;
use pool_console::story::STORY;
use pool_console::usage::USAGE;

fn main(rt: HostRuntime) -> anyhow::Result<()> {
    run_fresh::<Player>(&rt, STORY, USAGE)
}

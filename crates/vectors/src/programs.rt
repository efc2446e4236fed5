// A program may be given a player that has played already, and asks nothing of it where no lines are played.
use console::play::Play;
use console::program::run;
use text::line::Line;
use text::trouble::Trouble;

// Has no memory left for a line.
#[derive(Drop)]
struct Spent;

impl Play for Spent {
    fn command(&mut self, _word: &str, _line: &mut Line<'_>) -> Result<(), Trouble> {
        Err(Trouble::NoMemory)
    }
}

// A test's one argument is its own name, which is no command: what is printed is the help.
#[test]
fn help_needs_no_player(rt: HostRuntime) {
    assert!(rt; run(&rt, Spent, "a line\n", "help\n").is_ok());
}

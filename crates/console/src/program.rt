//! The program: arguments, files and standard streams, and nothing else.
use crate::explain::{explain, explain_line, explain_with_keys};
use crate::play::{Fresh, Play, answer};
use crate::seals::{seal, vouch};
use std::alloc::{AllocError, Global};
use std::env::Args;
use std::fs::File;
use std::io::{BufRead, BufReader, Read};
use std::marker::PhantomData;
use std::{env, fs};

/// What the arguments ask for.
#[derive(Drop)]
enum Command {
    /// the built-in story
    Story,
    /// the lines of a file, or of standard input
    Play(Option<String>),
    Seal {
        key: String,
        record: String,
    },
    Vouch {
        key: String,
        record: String,
    },
    /// a message, with a file of keys or none
    Explain {
        f: String,
        message: String,
        keys: Option<String>,
    },
    /// the messages on standard input
    ExplainInput,
    Help,
}

impl Command {
    /// The arguments behind the program's name.
    fn read(mut args: Args) -> Command {
        let Some(command) = args.next() else {
            return Command::Story;
        };
        match (command.as_str(), args.next(), args.next()) {
            ("play", file, None) => Command::Play(file),
            ("seal", Some(key), Some(record)) => Command::Seal { key, record },
            ("vouch", Some(key), Some(record)) => Command::Vouch { key, record },
            ("explain", None, None) => Command::ExplainInput,
            ("explain", Some(f), Some(message)) => Command::Explain {
                f,
                message,
                keys: args.next(),
            },
            _ => Command::Help,
        }
    }
}

/// Plays each line as it comes.
fn play<P: Play, R: Read + Drop>(rt: &HostRuntime, player: &mut P, input: R) -> anyhow::Result<()> {
    let heap = rt.alloc();
    let lines = BufReader::new(heap, input)?.lines(heap);
    for (number, line) in (1..=u64::MAX).zip(lines) {
        rt.print(answer(player, heap, number, line?.as_str())?)?;
    }
    Ok(())
}

/// Plays the built-in story. Its comments are printed too.
fn story_played<P: Play>(heap: Global, player: &mut P, story: &str) -> Result<String, AllocError> {
    let mut out = String::new(heap);
    for (number, line) in (1..=u64::MAX).zip(story.lines()) {
        if line.starts_with('#') {
            writeln!(out, "{line}")?;
        }
        out.push_str(answer(player, heap, number, line)?.as_str())?;
    }
    Ok(out)
}

/// Where what plays lines comes from.
trait Source: Drop {
    /// Plays each line as it comes.
    fn play<R: Read + Drop>(self, rt: &HostRuntime, input: R) -> anyhow::Result<()>;

    /// Plays the built-in story.
    fn story_played(self, heap: Global, story: &str) -> Result<String, AllocError>;
}

/// A player that was given.
#[derive(Drop)]
struct Given<P>(P);

impl<P: Play> Source for Given<P> {
    fn play<R: Read + Drop>(mut self, rt: &HostRuntime, input: R) -> anyhow::Result<()> {
        play(rt, &mut self.0, input)
    }

    fn story_played(mut self, heap: Global, story: &str) -> Result<String, AllocError> {
        story_played(heap, &mut self.0, story)
    }
}

/// One that is made where lines are played.
#[derive(Drop)]
struct Made<P>(PhantomData<P>);

impl<P: Fresh> Source for Made<P> {
    fn play<R: Read + Drop>(self, rt: &HostRuntime, input: R) -> anyhow::Result<()> {
        let mut player = P::fresh(rt.alloc())?;
        play(rt, &mut player, input)
    }

    fn story_played(self, heap: Global, story: &str) -> Result<String, AllocError> {
        let mut player = P::fresh(heap)?;
        story_played(heap, &mut player, story)
    }
}

/// What a message is; seals are judged where a key file is given.
fn explained(
    rt: &HostRuntime,
    f: &str,
    message: &str,
    keys: Option<String>,
) -> anyhow::Result<String> {
    match keys {
        None => Ok(explain(rt.alloc(), f, message)?),
        Some(path) => {
            let text = fs::read_to_string(rt, path.as_str())?;
            Ok(explain_with_keys(rt.alloc(), f, message, text.as_str())?)
        }
    }
}

/// Explains each line of standard input: the pool's f, and the message.
fn explain_input(rt: &HostRuntime) -> anyhow::Result<()> {
    let heap = rt.alloc();
    for line in BufReader::new(heap, rt.stdin())?.lines(heap) {
        rt.print(explain_line(heap, line?.as_str())?)?;
    }
    Ok(())
}

/// Does what the arguments ask for, with the built-in story and the help of a program.
fn carry_out<S: Source>(
    rt: &HostRuntime,
    source: S,
    story: &str,
    usage: &str,
) -> anyhow::Result<()> {
    let mut args = env::args(rt)?;
    let _ = args.next();
    let heap = rt.alloc();
    match Command::read(args) {
        Command::Story => rt.print(source.story_played(heap, story)?)?,
        Command::Play(None) => source.play(rt, rt.stdin())?,
        Command::Play(Some(path)) => source.play(rt, File::open(rt, path.as_str())?)?,
        Command::Seal { key, record } => rt.print(seal(heap, key.as_str(), record.as_str())?)?,
        Command::Vouch { key, record } => rt.print(vouch(heap, key.as_str(), record.as_str())?)?,
        Command::Explain { f, message, keys } => {
            rt.print(explained(rt, f.as_str(), message.as_str(), keys)?)?
        }
        Command::ExplainInput => explain_input(rt)?,
        Command::Help => rt.print(usage)?,
    }
    Ok(())
}

/// Does what the arguments ask for, with what plays lines, the built-in story and the help of a program.
pub fn run<P: Play>(rt: &HostRuntime, player: P, story: &str, usage: &str) -> anyhow::Result<()> {
    carry_out(rt, Given(player), story, usage)
}

/// Does what `run` does with a player that has played nothing yet. It is made where lines are played, and nowhere else.
pub fn run_fresh<P: Fresh>(rt: &HostRuntime, story: &str, usage: &str) -> anyhow::Result<()> {
    carry_out(rt, Made::<P>(PhantomData), story, usage)
}

//! Handing bytes to a site, and what came of it.
use crate::any_pool::AnyPool;
use message::Refusal;
use message::limits::{BOARD, LEAST_ROOM};
use pool::Undelivered;
use std::alloc::Global;
use text::trouble::Trouble;

/// How long the buffers of a call are.
#[derive(Clone, Copy)]
pub struct Lengths {
    pub output: usize,
    pub board: usize,
}

impl Lengths {
    /// Long enough for every reply.
    pub const USUAL: Lengths = Lengths {
        output: LEAST_ROOM,
        board: BOARD,
    };
}

/// What came of a call: the bytes that it wrote, or why it was refused.
#[derive(Drop)]
pub struct Outcome {
    pub result: Result<usize, Refusal>,
    pub output: Vec<u8>,
}

impl Outcome {
    /// The bytes that were written.
    pub fn written(&self) -> &[u8] {
        match self.result {
            Ok(n) => &self.output.as_slice()[..n.min(self.output.len())],
            Err(_) => &[],
        }
    }
}

/// Why a line is not done whose message was not handed on.
fn undelivered(why: Undelivered) -> Trouble {
    match why {
        Undelivered::NoSite => Trouble::NoSite,
        Undelivered::NoMemory => Trouble::NoMemory,
    }
}

/// Hands a message to a site, with buffers of these lengths.
pub fn call(
    heap: Global,
    pool: &mut AnyPool,
    site: u8,
    message: &[u8],
    lengths: Lengths,
) -> Result<Outcome, Trouble> {
    let mut output = vec![in heap; 0u8; lengths.output]?;
    let mut board = vec![in heap; 0u8; lengths.board]?;
    let result = pool
        .deliver(
            heap,
            site,
            message,
            output.as_mut_slice(),
            board.as_mut_slice(),
        )
        .map_err(undelivered)?;
    Ok(Outcome { result, output })
}

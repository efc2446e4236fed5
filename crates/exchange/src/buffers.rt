//! The buffers of an office's call.
use message::limits::{BOARD, LEAST_ROOM};

/// An output and a board, long enough for every call.
#[derive(Clone, Copy)]
pub(crate) struct Buffers {
    pub(crate) output: [u8; LEAST_ROOM],
    pub(crate) board: [u8; BOARD],
}

impl Buffers {
    /// All bytes zero.
    pub(crate) fn new() -> Buffers {
        Buffers {
            output: [0; LEAST_ROOM],
            board: [0; BOARD],
        }
    }

    /// So many bytes of the output.
    pub(crate) fn written(&self, count: usize) -> &[u8] {
        &self.output[..count.min(LEAST_ROOM)]
    }
}

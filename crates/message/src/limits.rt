//! The limits of messages and of the buffers of a call, each in one place.

/// the most faulty sites that a pool stands: sixteen board bytes count the signers of at most sixteen sites
pub const HIGHEST_FAULTY: u8 = 5;

/// the most records of a message: 11 STARTs, 11 GRANTs and 16 REQUESTs
pub const MOST_RECORDS: usize = 38;

/// the most REQUESTs of a ROUND, one for each client
pub const MOST_REQUESTS: usize = 16;

/// the least room for a reply: a certificate of eleven records
pub const LEAST_ROOM: usize = 880;

/// the bytes of a board
pub const BOARD: usize = 16;

//! What an output holds after a call.

/// What the output is filled with before a call.
pub const MARKED: u8 = 170;

/// Whether the output begins with these bytes, and what follows is as it came.
pub fn only_begins(output: &[u8], expected: &[u8]) -> bool {
    match output.strip_prefix(expected) {
        Some(rest) => rest.iter().all(|byte| *byte == MARKED),
        None => false,
    }
}

//! What a site replies.
use record::Statement;

/// A site's reply to a message that it accepts.
#[derive(Clone, Copy)]
pub enum Reply {
    /// it writes nothing
    Silent,
    /// it writes one record, with the seal still to be filled in
    Says(Statement),
    /// it writes its current certificate
    Shows,
}

/// What a site becomes once it has done a write.
#[derive(Clone, Copy)]
pub enum Then {
    /// it stays in its stage
    Stay,
    /// it has reached its target, and settles
    Settle,
    /// it has reached the last place of its settlement, and is open
    Opens,
}

//! The turns of a whole exchange.

/// Whether an exchange has another turn.
#[derive(Clone, Copy, PartialEq, Eq)]
pub(crate) enum Turn {
    More,
    Last,
}

//! Whether two objects are the same.
use object::titles::Titles;

/// Whether each title is in the same state. No `==`: what an object remembers of the last write is not asked.
pub fn same_titles(a: &Titles, b: &Titles) -> bool {
    (0..64).all(|title| a.at(title) == b.at(title))
}

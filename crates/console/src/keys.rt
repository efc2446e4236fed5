//! A file of keys: 32 lines of 64 hexadecimal digits, the sites' 16 keys and then the clients' 16.
use crate::complaint::{Complaint, exactly};
use notary::{Key, KeyedNotary, MEMBERS};
use std::alloc::Global;

/// The notary that knows the keys of a text.
pub fn read_keys(heap: Global, text: &str) -> Result<KeyedNotary, Complaint> {
    let mut keys: Vec<Key> = Vec::new(heap);
    // one line more than there are keys is enough to tell that the text is no such file
    for line in text.lines().take(2 * MEMBERS + 1) {
        keys.push(exactly(heap, line, Complaint::NoKeys)?)?;
    }
    let Some((sites, clients)) = keys.as_slice().split_at_checked(MEMBERS) else {
        return Err(Complaint::NoKeys);
    };
    match (
        <[Key; MEMBERS]>::try_from(sites),
        <[Key; MEMBERS]>::try_from(clients),
    ) {
        (Ok(sites), Ok(clients)) => Ok(KeyedNotary::new(&sites, &clients)),
        _ => Err(Complaint::NoKeys),
    }
}

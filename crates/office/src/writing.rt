//! Writing records into the caller's output.
ghost use Rattle.std.specs.Prelude.{◌≡◌, ◌+◌, ◌*◌, ◌≤◌, ◌++◌, length, take, drop};
ghost use Rattle.finder.specs.Members.{members};
ghost use Rattle.office.specs.Judging.{bytes_in, records_of};
ghost use Rattle.office.specs.Slots.{slot_at};

use crate::filing::filed;
use crate::slots::Slot;
use finder::Group;
use record::limits::RECORD;

/// Writes a record from index `at` on. What stands before and after it stays. Not the `put` of records, blocks or replies: each of those
/// has a buffer of another kind, and says of it what is asked there.
pub(crate) fn put(output: &mut [u8], at: usize, bytes: &[u8; RECORD])
    requires { at + 80 ≤ length output.old }
    ensures { output.new ≡ take at output.old ++ (bytes.now ++ drop (at + 80) output.old) }
{
    output[at..at + RECORD].copy_from_slice(bytes);
}

/// The 80 bytes of the record in a site's slot, seal included; zeros where it is empty.
fn bytes_in(slots: &[Slot], site: usize) -> [u8; RECORD]
    ensures { result ≡ bytes_in (slot_at slots.now site).filed }
{
    match filed(slots, site) {
        Some(reply) => reply.to_bytes(),
        None => [0; RECORD],
    }
}

/// Writes the records of a group, in its order, at the front of the output, and says how many bytes they are.
pub(crate) fn write_group(slots: &[Slot], group: &Group, output: &mut [u8]) -> usize
    requires { 80 * length (members group.now) ≤ length output.old }
    ensures count { result ≡ length (records_of slots.now (members group.now)) }
    ensures after { output.new ≡ records_of slots.now (members group.now) ++ drop (length (records_of slots.now (members group.now))) output.old }
{
    let sites = group.members();
    for (k, site) in sites.iter().enumerate() {
        put(output, RECORD * k, &bytes_in(slots, *site));
    }
    RECORD * sites.len()
}

//! Worked examples of a site's rules. There is nothing to run: the contract is the theorem.
ghost use Rattle.site.specs.Rows.{AcceptedByOne, RowsHold};

/// One titles site of a pool of four, from fresh on, by whole calls over bytes: a grant, a grant repeated to another
/// client, BUSY, an answer and the same again, TAKEN, GAP, and one ROUND at the places 0, 1, 2 and 3, where it pulls,
/// settles, takes back and refuses; and LOW for a START above its target.
pub fn rows_hold()
    ensures together { RowsHold }
    ensures met { AcceptedByOne }
{}

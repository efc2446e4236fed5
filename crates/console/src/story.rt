//! The built-in story: the life of one bill, and of the slots that go with it.

/// A script like any other. Its comments are printed too.
pub const STORY: &str = "# Client 0 is the carrier, 1 the shipper, 2 the bank and 3 the consignee.
# The carrier issues bill 5 to the shipper, and gives it the slots for the cargo.
titles 0 issue 5 1
slots 0 move 1 40
titles 1 look 5
# The shipper transfers the bill to the bank as security, with its slots.
titles 1 transfer 5 2
slots 1 move 2 40
titles 2 look 5
# The shipper tries to transfer it again, and to move slots that it no longer has.
titles 1 transfer 5 3
slots 1 move 3 40
# The bank is paid, and transfers the bill and the slots to the consignee.
titles 2 transfer 5 3
slots 2 move 3 40
titles 3 look 5
slots 3 look 3
# The consignee moves its slots to the wrong account. That write is taken back, once.
slots 3 move 9 40
slots back
slots back
slots 3 look 3
# The consignee surrenders the bill to the carrier, and nobody can move it any more.
titles 3 surrender 5
titles 3 transfer 5 1
titles 0 look 5
";

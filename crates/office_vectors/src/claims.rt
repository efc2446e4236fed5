//! The operations, claims and words that the tables are about. The office under test is client 3's.
use crate::lines::{Claim, Word};
use record::Operation;

pub const OURS: Operation = [1, 2, 0, 4, 5, 6, 7, 8, 9, 10, 11, 12, 13, 14, 15, 16];

/// Another operation, in its last byte.
pub const THEIRS: Operation = [1, 2, 0, 4, 5, 6, 7, 8, 9, 10, 11, 12, 13, 14, 15, 17];

pub const GIVEN: u64 = 0x0102030405060708;

/// Our write number 1 at place 1 of round 0.
pub const FIRST: Claim = Claim(3, 1, 0, 1, OURS);

pub const GRANT: Word = Word::Grant(FIRST);

pub const ANSWER: Word = Word::Answer(FIRST, GIVEN);

/// Another answer, in its first byte.
pub const OTHER_ANSWER: Word = Word::Answer(FIRST, 0x0202030405060708);

// The same claim, but for the client, the number or the operation.
pub const OF_ANOTHER: Word = Word::Grant(Claim(4, 1, 0, 1, OURS));

pub const OF_NUMBER_2: Word = Word::Grant(Claim(3, 2, 0, 1, OURS));

pub const OF_THEIRS: Word = Word::Grant(Claim(3, 1, 0, 1, THEIRS));

/// The mark of round 1.
pub const MARK: Word = Word::Grant(Claim(16, 1, 1, 1, [0; 16]));

// Our write at a later place, and in a later round.
pub const AT_PLACE_2: Word = Word::Grant(Claim(3, 1, 0, 2, OURS));

pub const AT_PLACE_9: Word = Word::Grant(Claim(3, 1, 0, 9, OURS));

pub const IN_ROUND_1: Word = Word::Grant(Claim(3, 1, 1, 1, OURS));

/// The nonce of our question.
pub const NONCE: u64 = 0x1112131415161718;

pub const READ: Word = Word::Reading(Claim(3, 0, 0, 1, OURS), NONCE, GIVEN);

pub const OTHER_READ: Word = Word::Reading(Claim(3, 0, 0, 1, OURS), NONCE, 9);

// The same answer at a later place and round, and before any write.
pub const READ_AT_2: Word = Word::Reading(Claim(3, 0, 0, 2, OURS), NONCE, GIVEN);

pub const READ_IN_ROUND_1: Word = Word::Reading(Claim(3, 0, 1, 0, OURS), NONCE, GIVEN);

pub const READ_EMPTY: Word = Word::Reading(Claim(3, 0, 0, 0, OURS), NONCE, 0);

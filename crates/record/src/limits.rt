// The limits of fields and the sizes of records, each in one place.
use crate::fields::{Place, Round};

// the bytes of a record, and of the statement that it begins with
pub const RECORD: usize = 80;

pub const STATEMENT: usize = 48;

// the highest round, and the highest place
pub const HIGHEST_ROUND: Round = 2_000_000_000;

pub const HIGHEST_PLACE: Place = HIGHEST_ROUND + 16;

// clients are numbered from 0
pub const HIGHEST_CLIENT: u8 = 15;

// the client number that stands for the mark of a round
pub const MARK: u8 = 16;

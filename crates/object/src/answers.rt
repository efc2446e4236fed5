// The answers that every kind of object gives by one number.

// The answer to a write that is done.
pub const DONE: u64 = 0;

// The answer to an operation whose code the object does not know.
pub const UNKNOWN_CODE: u64 = 9_999_999;

// The answer to a reading of a title or an account that there is not.
pub const OUT_OF_REACH: u64 = 9_999_998;

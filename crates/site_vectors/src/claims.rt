//! Operations, claims and messages that several tables use.
use crate::lines::Said::{Grant, Request, Start};
use crate::lines::{Claim, Operation, Said};

/// Transfers of title 5 and of title 6 to client 3.
pub const TRANSFER: Operation = [2, 5, 3];

pub const OTHER: Operation = [2, 6, 3];

/// The issue of title 7 to client 2. As a question it asks who holds title 7.
pub const ISSUE: Operation = [1, 7, 2];

/// A code above the highest of titles.
pub const UNFIT: Operation = [4, 7, 2];

pub const NOTHING: Operation = [0, 0, 0];

/// Client 1's first claim; another client's to the same place; one to place 3.
pub const FIRST: Claim = Claim(1, 1, 0, 1, TRANSFER);

pub const RIVAL: Claim = Claim(2, 1, 0, 1, TRANSFER);

pub const FAR: Claim = Claim(2, 1, 0, 3, TRANSFER);

/// Client 0 issues title 7, at place 1 and at place 2.
pub const ISSUED_1: Claim = Claim(0, 1, 0, 1, ISSUE);

pub const ISSUED_2: Claim = Claim(0, 1, 0, 2, ISSUE);

/// The mark of round 1 at place 2.
pub const MARK_2: Claim = Claim(16, 1, 1, 2, NOTHING);

/// Certificates of these.
pub const FIRST_WRITE: &[Said] = &[Grant(0, FIRST), Grant(1, FIRST), Grant(2, FIRST)];

pub const ISSUE_AT_1: &[Said] = &[Grant(0, ISSUED_1), Grant(1, ISSUED_1), Grant(2, ISSUED_1)];

pub const ISSUE_AT_2: &[Said] = &[Grant(0, ISSUED_2), Grant(1, ISSUED_2), Grant(2, ISSUED_2)];

pub const MARK_AT_2: &[Said] = &[Grant(0, MARK_2), Grant(1, MARK_2), Grant(2, MARK_2)];

/// A ROUND of round 0 whose target is 1, with client 2's request.
pub const NEXT_ROUND: &[Said] = &[
    Start(1, 0, 1),
    Start(2, 0, 1),
    Start(3, 0, 0),
    Grant(0, FIRST),
    Grant(1, FIRST),
    Grant(2, FIRST),
    Request(2, 1, TRANSFER),
];

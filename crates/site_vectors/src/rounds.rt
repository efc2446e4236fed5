//! A late site that is pulled through two rounds.
use crate::calls::Due::{Refuses, Replies};
use crate::calls::{Call, fresh, run};
use crate::claims::{FIRST, FIRST_WRITE, ISSUE, MARK_2, MARK_AT_2, NEXT_ROUND, NOTHING, TRANSFER};
use crate::lines::Claim;
use crate::lines::Said::{Answer, Grant, Question, Reading, Request, ShowCert, ShowGrant, Start};
use std::test::Fail;

// Round 1 begins with its mark at place 2 and client 2's request at place 3; the book then goes on to place 5.
const SETTLED: Claim = Claim(2, 1, 1, 3, TRANSFER);

const ISSUED: Claim = Claim(0, 1, 1, 4, ISSUE);

const FIFTH: Claim = Claim(1, 2, 1, 5, TRANSFER);

// Round 2 begins with its mark at place 6. Client 1's request number 2 is done by then, its number 3 is not.
const MARK_6: Claim = Claim(16, 2, 2, 6, NOTHING);

const SEVENTH: Claim = Claim(1, 3, 2, 7, TRANSFER);

// PULLING in round 1 to place 1: only the certificates of round 0 are due, and nothing is granted before the target.
static FIRST_ROUND: [Call; 15] = [
    Call(NEXT_ROUND, Replies(&[])),
    Call(&[Request(1, 1, TRANSFER)], Refuses(11, 0, 3)),
    Call(
        &[
            Grant(0, FIRST),
            Grant(1, SETTLED),
            Grant(2, FIRST),
            Request(1, 1, TRANSFER),
        ],
        Refuses(5, 1, 2),
    ),
    Call(NEXT_ROUND, Refuses(11, 0, 3)),
    Call(&[ShowGrant(2)], Refuses(21, 0, 3)),
    Call(&[ShowCert], Refuses(21, 0, 3)),
    Call(
        &[Question(1, ISSUE, 8)],
        Replies(&[Reading(0, Claim(1, 0, 0, 0, ISSUE), 8, 16)]),
    ),
    Call(MARK_AT_2, Refuses(15, 0, 3)),
    Call(FIRST_WRITE, Replies(&[Answer(0, FIRST, 3)])),
    Call(&[ShowGrant(2)], Replies(&[Grant(0, MARK_2)])),
    Call(&[ShowGrant(3)], Replies(&[Grant(0, SETTLED)])),
    Call(MARK_AT_2, Replies(&[Answer(0, MARK_2, 0)])),
    Call(&[Request(3, 1, TRANSFER)], Refuses(11, 0, 3)),
    Call(
        &[Grant(1, SETTLED), Grant(2, SETTLED), Grant(3, SETTLED)],
        Replies(&[Answer(0, SETTLED, 3)]),
    ),
    Call(
        &[Request(3, 1, TRANSFER)],
        Replies(&[Grant(0, Claim(3, 1, 1, 4, TRANSFER))]),
    ),
];

// The others have come to place 5 in round 1. The site is pulled there, and opens at place 7 in round 2.
static SECOND_ROUND: [Call; 13] = [
    Call(
        &[
            Start(1, 1, 5),
            Start(2, 1, 5),
            Start(3, 1, 4),
            Grant(1, FIFTH),
            Grant(2, FIFTH),
            Grant(3, FIFTH),
            Request(1, 3, TRANSFER),
            Request(2, 1, TRANSFER),
        ],
        Replies(&[]),
    ),
    Call(&[ShowGrant(4)], Refuses(21, 0, 3)),
    Call(
        &[Grant(1, FIFTH), Grant(2, FIFTH), Grant(3, FIFTH)],
        Refuses(18, 0, 3),
    ),
    Call(
        &[Grant(1, ISSUED), Grant(2, ISSUED), Grant(3, ISSUED)],
        Replies(&[Answer(0, ISSUED, 0)]),
    ),
    Call(
        &[Question(1, ISSUE, 9)],
        Replies(&[Reading(0, Claim(1, 0, 1, 4, ISSUE), 9, 2)]),
    ),
    Call(
        &[Grant(1, FIFTH), Grant(2, FIFTH), Grant(3, FIFTH)],
        Replies(&[Answer(0, FIFTH, 3)]),
    ),
    Call(&[ShowGrant(6)], Replies(&[Grant(0, MARK_6)])),
    Call(&[ShowGrant(7)], Replies(&[Grant(0, SEVENTH)])),
    Call(&[ShowGrant(8)], Refuses(21, 0, 3)),
    Call(
        &[Grant(1, MARK_6), Grant(2, MARK_6), Grant(3, MARK_6)],
        Replies(&[Answer(0, MARK_6, 0)]),
    ),
    Call(
        &[Grant(1, SEVENTH), Grant(2, SEVENTH), Grant(3, SEVENTH)],
        Replies(&[Answer(0, SEVENTH, 3)]),
    ),
    Call(&[ShowGrant(6)], Replies(&[Grant(0, MARK_6)])),
    Call(
        &[Request(3, 1, TRANSFER)],
        Replies(&[Grant(0, Claim(3, 1, 2, 8, TRANSFER))]),
    ),
];

#[test]
fn pulled_through_two_rounds(rt: HostRuntime) -> Result<(), Fail> {
    let mut site = fresh(1);
    run(&rt, rt.alloc(), &mut site, &FIRST_ROUND)?;
    run(&rt, rt.alloc(), &mut site, &SECOND_ROUND)
}

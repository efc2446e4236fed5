//! A ROUND one place below a site takes its last write back: the object is called exactly where the write called it.
use crate::calls::Due::{Refuses, Replies};
use crate::calls::{Call, fresh, run};
use crate::claims::{
    FIRST, FIRST_WRITE, ISSUE, ISSUE_AT_1, ISSUE_AT_2, ISSUED_1, ISSUED_2, MARK_2, MARK_AT_2,
    NEXT_ROUND, NOTHING, OTHER, TRANSFER, UNFIT,
};
use crate::lines::Claim;
use crate::lines::Said::{
    Answer, Grant, Question, Reading, Request, ShowCert, ShowGrant, Shown, Start,
};
use std::test::Fail;

// The issue called the object: title 7 is unissued again. Client 0's entry is empty again, so that the certificate is stale and no
// stored answer; and its request can be done at another place. The earlier certificate is current again.
static CALLED: [Call; 10] = [
    Call(FIRST_WRITE, Replies(&[Answer(0, FIRST, 3)])),
    Call(ISSUE_AT_2, Replies(&[Answer(0, ISSUED_2, 0)])),
    Call(ISSUE_AT_2, Replies(&[Answer(0, ISSUED_2, 0)])),
    Call(
        &[Question(1, ISSUE, 1)],
        Replies(&[Reading(0, Claim(1, 0, 0, 2, ISSUE), 1, 2)]),
    ),
    Call(NEXT_ROUND, Replies(&[])),
    Call(
        &[Question(1, ISSUE, 2)],
        Replies(&[Reading(0, Claim(1, 0, 0, 1, ISSUE), 2, 16)]),
    ),
    Call(ISSUE_AT_2, Refuses(16, 0, 3)),
    Call(FIRST_WRITE, Replies(&[Answer(0, FIRST, 3)])),
    Call(
        &[ShowCert],
        Replies(&[Shown(0, FIRST), Shown(1, FIRST), Shown(2, FIRST)]),
    ),
    Call(
        &[ShowGrant(3)],
        Replies(&[Grant(0, Claim(2, 1, 1, 3, TRANSFER))]),
    ),
];

#[test]
fn a_write_that_called_the_object(rt: HostRuntime) -> Result<(), Fail> {
    run(&rt, rt.alloc(), &mut fresh(1), &CALLED)
}

// A write by a client that has an earlier one: that one is the client's last again, so number 2 is new in the next round.
const SECOND: Claim = Claim(1, 2, 0, 2, OTHER);

const AGAIN: Claim = Claim(1, 2, 1, 3, OTHER);

static ENTRY: [Call; 8] = [
    Call(FIRST_WRITE, Replies(&[Answer(0, FIRST, 3)])),
    Call(
        &[Grant(0, SECOND), Grant(1, SECOND), Grant(2, SECOND)],
        Replies(&[Answer(0, SECOND, 3)]),
    ),
    Call(&[Request(1, 1, TRANSFER)], Refuses(12, 0, 3)),
    Call(
        &[
            Start(1, 0, 1),
            Start(2, 0, 1),
            Start(3, 0, 0),
            Grant(0, FIRST),
            Grant(1, FIRST),
            Grant(2, FIRST),
            Request(1, 2, OTHER),
        ],
        Replies(&[]),
    ),
    Call(&[ShowGrant(3)], Replies(&[Grant(0, AGAIN)])),
    Call(MARK_AT_2, Replies(&[Answer(0, MARK_2, 0)])),
    Call(
        &[Grant(0, AGAIN), Grant(1, AGAIN), Grant(2, AGAIN)],
        Replies(&[Answer(0, AGAIN, 3)]),
    ),
    Call(&[Request(1, 2, OTHER)], Replies(&[Answer(0, AGAIN, 3)])),
];

#[test]
fn an_earlier_entry_comes_back(rt: HostRuntime) -> Result<(), Fail> {
    run(&rt, rt.alloc(), &mut fresh(1), &ENTRY)
}

// The write of an unfit code called no object: the issue before it stays.
const UNFIT_2: Claim = Claim(1, 1, 0, 2, UNFIT);

static UNCALLED: [Call; 6] = [
    Call(ISSUE_AT_1, Replies(&[Answer(0, ISSUED_1, 0)])),
    Call(
        &[Grant(0, UNFIT_2), Grant(1, UNFIT_2), Grant(2, UNFIT_2)],
        Replies(&[Answer(0, UNFIT_2, 9_999_999)]),
    ),
    Call(
        &[
            Start(1, 0, 1),
            Start(2, 0, 1),
            Start(3, 0, 0),
            Grant(0, ISSUED_1),
            Grant(1, ISSUED_1),
            Grant(2, ISSUED_1),
        ],
        Replies(&[]),
    ),
    Call(
        &[Question(1, ISSUE, 3)],
        Replies(&[Reading(0, Claim(1, 0, 0, 1, ISSUE), 3, 2)]),
    ),
    Call(&[ShowGrant(2)], Replies(&[Grant(0, MARK_2)])),
    Call(&[ShowGrant(3)], Refuses(21, 0, 3)),
];

#[test]
fn a_write_of_an_unfit_code(rt: HostRuntime) -> Result<(), Fail> {
    run(&rt, rt.alloc(), &mut fresh(1), &UNCALLED)
}

// Neither did the mark's. The target of round 1 is place 1, by a claim of that round.
const CLAIM_1: Claim = Claim(5, 1, 1, 1, TRANSFER);

static MARK: [Call; 8] = [
    Call(ISSUE_AT_1, Replies(&[Answer(0, ISSUED_1, 0)])),
    Call(
        &[
            Start(1, 0, 1),
            Start(2, 0, 1),
            Start(3, 0, 0),
            Grant(0, ISSUED_1),
            Grant(1, ISSUED_1),
            Grant(2, ISSUED_1),
        ],
        Replies(&[]),
    ),
    Call(MARK_AT_2, Replies(&[Answer(0, MARK_2, 0)])),
    Call(
        &[ShowCert],
        Replies(&[Shown(0, MARK_2), Shown(1, MARK_2), Shown(2, MARK_2)]),
    ),
    Call(
        &[
            Start(1, 1, 1),
            Start(2, 1, 1),
            Start(3, 1, 0),
            Grant(0, CLAIM_1),
            Grant(1, CLAIM_1),
            Grant(2, CLAIM_1),
        ],
        Replies(&[]),
    ),
    Call(
        &[Question(1, ISSUE, 4)],
        Replies(&[Reading(0, Claim(1, 0, 0, 1, ISSUE), 4, 2)]),
    ),
    Call(
        &[ShowCert],
        Replies(&[Shown(0, ISSUED_1), Shown(1, ISSUED_1), Shown(2, ISSUED_1)]),
    ),
    Call(
        &[ShowGrant(2)],
        Replies(&[Grant(0, Claim(16, 2, 2, 2, NOTHING))]),
    ),
];

#[test]
fn the_mark(rt: HostRuntime) -> Result<(), Fail> {
    run(&rt, rt.alloc(), &mut fresh(1), &MARK)
}

//! A FROZEN site: what it answers to each form of message.
use crate::calls::Due::{Refuses, Replies};
use crate::calls::{Call, fresh, run};
use crate::claims::{FIRST, FIRST_WRITE, ISSUE, NOTHING, RIVAL, TRANSFER};
use crate::lines::Claim;
use crate::lines::Said::{
    Answer, Grant, Question, Reading, Request, ShowCert, ShowGrant, Shown, Start,
};
use std::test::Fail;

// It freezes at place 0 with a grant out, which it keeps and shows; it stores nothing of the RESOLVE's request.
static AT_PLACE_0: [Call; 13] = [
    Call(&[Request(1, 1, TRANSFER)], Replies(&[Grant(0, FIRST)])),
    Call(
        &[
            Grant(0, FIRST),
            Grant(1, FIRST),
            Grant(2, RIVAL),
            Request(2, 1, TRANSFER),
        ],
        Replies(&[Start(0, 0, 0)]),
    ),
    Call(&[Request(1, 1, TRANSFER)], Refuses(11, 0, 3)),
    Call(&[Request(3, 1, TRANSFER)], Refuses(11, 0, 3)),
    Call(FIRST_WRITE, Refuses(11, 0, 3)),
    Call(
        &[Question(3, ISSUE, 6)],
        Replies(&[Reading(0, Claim(3, 0, 0, 0, ISSUE), 6, 16)]),
    ),
    Call(
        &[
            Grant(0, FIRST),
            Grant(1, FIRST),
            Grant(2, RIVAL),
            Request(1, 1, TRANSFER),
        ],
        Replies(&[Start(0, 0, 0)]),
    ),
    Call(&[ShowGrant(1)], Replies(&[Grant(0, FIRST)])),
    Call(&[ShowGrant(2)], Refuses(21, 0, 3)),
    Call(&[ShowCert], Refuses(21, 0, 3)),
    Call(
        &[Start(1, 1, 0), Start(2, 1, 0), Start(3, 1, 0)],
        Refuses(15, 0, 3),
    ),
    Call(
        &[Start(1, 0, 0), Start(2, 0, 0), Start(3, 0, 0)],
        Replies(&[]),
    ),
    Call(
        &[ShowGrant(1)],
        Replies(&[Grant(0, Claim(16, 1, 1, 1, NOTHING))]),
    ),
];

#[test]
fn frozen_at_place_0(rt: HostRuntime) -> Result<(), Fail> {
    run(&rt, rt.alloc(), &mut fresh(1), &AT_PLACE_0)
}

// Two claims to place 2, and the clash of rounds that the site has not reached.
const MINE: Claim = Claim(2, 1, 0, 2, TRANSFER);

const THEIRS: Claim = Claim(3, 1, 0, 2, TRANSFER);

const LATER: Claim = Claim(2, 1, 7, 2, TRANSFER);

const LATEST: Claim = Claim(3, 1, 7, 2, TRANSFER);

// It freezes at place 1 after a write, whose certificate it shows. A clash at a place done already is a request.
static AT_PLACE_1: [Call; 10] = [
    Call(FIRST_WRITE, Replies(&[Answer(0, FIRST, 3)])),
    Call(
        &[
            Grant(0, FIRST),
            Grant(1, RIVAL),
            Grant(2, FIRST),
            Request(2, 1, TRANSFER),
        ],
        Replies(&[Grant(0, MINE)]),
    ),
    Call(
        &[
            Grant(0, MINE),
            Grant(1, THEIRS),
            Grant(2, MINE),
            Request(3, 1, TRANSFER),
        ],
        Replies(&[Start(0, 0, 1)]),
    ),
    Call(
        &[
            Grant(0, LATER),
            Grant(1, LATEST),
            Grant(2, LATER),
            Request(3, 1, TRANSFER),
        ],
        Replies(&[Start(0, 0, 1)]),
    ),
    Call(
        &[Grant(0, MINE), Grant(1, MINE), Grant(2, MINE)],
        Refuses(11, 0, 3),
    ),
    Call(FIRST_WRITE, Refuses(11, 0, 3)),
    Call(
        &[ShowCert],
        Replies(&[Shown(0, FIRST), Shown(1, FIRST), Shown(2, FIRST)]),
    ),
    Call(
        &[Question(1, ISSUE, 7)],
        Replies(&[Reading(0, Claim(1, 0, 0, 1, ISSUE), 7, 16)]),
    ),
    Call(&[ShowGrant(2)], Replies(&[Grant(0, MINE)])),
    Call(&[ShowGrant(1)], Refuses(21, 0, 3)),
];

#[test]
fn frozen_at_place_1(rt: HostRuntime) -> Result<(), Fail> {
    run(&rt, rt.alloc(), &mut fresh(1), &AT_PLACE_1)
}

//! The worked examples, through the public call.
use crate::calls::Due::{Refuses, Replies};
use crate::calls::{Call, fresh, run};
use crate::claims::{FAR, FIRST, FIRST_WRITE, MARK_2, NEXT_ROUND, OTHER, RIVAL, TRANSFER};
use crate::lines::Claim;
use crate::lines::Said::{Answer, Grant, Request, ShowGrant, Start};
use std::test::Fail;

static AT_PLACE_1: [Call; 12] = [
    Call(&[Request(1, 1, TRANSFER)], Replies(&[Grant(0, FIRST)])),
    Call(&[Request(2, 1, TRANSFER)], Replies(&[Grant(0, FIRST)])),
    Call(&[Request(1, 1, OTHER)], Refuses(14, 0, 3)),
    Call(FIRST_WRITE, Replies(&[Answer(0, FIRST, 3)])),
    Call(
        &[Grant(3, FIRST), Grant(1, FIRST), Grant(2, FIRST)],
        Replies(&[Answer(0, FIRST, 3)]),
    ),
    Call(
        &[Grant(0, RIVAL), Grant(1, RIVAL), Grant(2, RIVAL)],
        Refuses(17, 0, 3),
    ),
    Call(
        &[Grant(0, FAR), Grant(1, FAR), Grant(2, FAR)],
        Refuses(18, 0, 3),
    ),
    Call(
        &[
            Start(1, 0, 1),
            Start(2, 0, 2),
            Start(3, 0, 0),
            Grant(0, FIRST),
            Grant(1, FIRST),
            Grant(2, FIRST),
        ],
        Refuses(9, 1, 2),
    ),
    Call(NEXT_ROUND, Replies(&[])),
    Call(&[ShowGrant(2)], Replies(&[Grant(0, MARK_2)])),
    Call(
        &[ShowGrant(3)],
        Replies(&[Grant(0, Claim(2, 1, 1, 3, TRANSFER))]),
    ),
    Call(&[ShowGrant(4)], Refuses(21, 0, 3)),
];

#[test]
fn worked_examples(rt: HostRuntime) -> Result<(), Fail> {
    run(&rt, rt.alloc(), &mut fresh(1), &AT_PLACE_1)
}

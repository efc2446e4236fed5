//! Every refusal that a call can return but for its buffers' and its length's, with index and layer.
use crate::calls::Due::{Refuses, Replies};
use crate::calls::{Call, fresh, run};
use crate::claims::{FAR, FIRST, NOTHING, OTHER, RIVAL, TRANSFER};
use crate::lines::Claim;
use crate::lines::Said::{Answer, Forged, Grant, Request, ShowCert, ShowGrant, Start};
use std::test::Fail;

// Claims with a number or a round that FIRST does not have.
const NO_NUMBER: Claim = Claim(1, 0, 0, 1, TRANSFER);

const IN_ROUND_1: Claim = Claim(1, 1, 1, 1, TRANSFER);

const RIVAL_IN_1: Claim = Claim(2, 1, 1, 1, TRANSFER);

// The checks of a message, at a fresh site: form, fields, likeness, signers, seals, targets and order.
static CHECKS: [Call; 17] = [
    Call(
        &[Request(1, 1, TRANSFER), Request(2, 1, TRANSFER)],
        Refuses(3, 0, 1),
    ),
    Call(&[Answer(0, FIRST, 3)], Refuses(3, 0, 1)),
    Call(&[Request(1, 0, TRANSFER)], Refuses(4, 0, 1)),
    Call(
        &[Grant(0, FIRST), Grant(1, FIRST), Grant(2, NO_NUMBER)],
        Refuses(4, 2, 1),
    ),
    Call(
        &[Grant(0, FIRST), Grant(4, FIRST), Grant(2, FIRST)],
        Refuses(4, 1, 1),
    ),
    Call(
        &[Grant(0, FIRST), Grant(1, RIVAL), Grant(2, FIRST)],
        Refuses(5, 1, 2),
    ),
    Call(
        &[
            Grant(0, FIRST),
            Grant(1, RIVAL),
            Grant(2, FAR),
            Request(1, 1, TRANSFER),
        ],
        Refuses(5, 2, 2),
    ),
    Call(
        &[Start(1, 0, 0), Start(2, 1, 0), Start(3, 0, 0)],
        Refuses(5, 1, 2),
    ),
    Call(
        &[
            Start(1, 1, 0),
            Start(2, 1, 0),
            Start(3, 1, 0),
            Grant(0, FIRST),
            Grant(1, FIRST),
            Grant(2, FIRST),
        ],
        Refuses(5, 3, 2),
    ),
    Call(
        &[
            Grant(0, FIRST),
            Grant(1, FIRST),
            Grant(2, FIRST),
            Request(1, 1, TRANSFER),
        ],
        Refuses(6, 0, 2),
    ),
    Call(
        &[Grant(0, FIRST), Grant(1, FIRST), Grant(0, FIRST)],
        Refuses(7, 2, 2),
    ),
    Call(
        &[
            Start(1, 0, 0),
            Start(2, 0, 0),
            Start(3, 0, 0),
            Grant(1, FIRST),
            Grant(1, FIRST),
            Grant(2, FIRST),
        ],
        Refuses(7, 4, 2),
    ),
    Call(
        &[Grant(0, FIRST), Forged(1, FIRST), Grant(2, FIRST)],
        Refuses(8, 1, 2),
    ),
    Call(
        &[
            Grant(0, FIRST),
            Grant(1, RIVAL),
            Forged(2, RIVAL),
            Request(1, 1, TRANSFER),
        ],
        Refuses(8, 2, 2),
    ),
    Call(
        &[Start(1, 0, 0), Start(2, 0, 0), Start(3, 0, 1)],
        Refuses(9, 2, 2),
    ),
    Call(
        &[
            Start(1, 0, 0),
            Start(2, 0, 0),
            Start(3, 0, 0),
            Request(2, 1, TRANSFER),
            Request(2, 2, TRANSFER),
        ],
        Refuses(10, 4, 2),
    ),
    Call(
        &[
            Start(1, 0, 1),
            Start(2, 0, 0),
            Start(3, 0, 0),
            Grant(0, FIRST),
            Grant(1, FIRST),
            Grant(2, FIRST),
            Request(2, 1, TRANSFER),
            Request(1, 1, TRANSFER),
        ],
        Refuses(10, 7, 2),
    ),
];

#[test]
fn messages_are_checked(rt: HostRuntime) -> Result<(), Fail> {
    run(&rt, rt.alloc(), &mut fresh(1), &CHECKS)
}

// Client 1's request number 2, done at place 1, client 2's at place 2, and the mark of round 1 at place 3.
const SECOND: Claim = Claim(1, 2, 0, 1, TRANSFER);

const NEXT: Claim = Claim(2, 1, 0, 2, TRANSFER);

const MARK: Claim = Claim(16, 1, 1, 3, NOTHING);

const OLD: Claim = Claim(1, 1, 0, 2, TRANSFER);

const SPENT: Claim = Claim(1, 2, 0, 2, OTHER);

const STALE: Claim = Claim(3, 1, 0, 3, TRANSFER);

// The site's own refusals, in a life of one site. A RESOLVE whose GRANTs are of a place done already is a request at index 3.
static RULES: [Call; 33] = [
    Call(
        &[
            Grant(0, IN_ROUND_1),
            Grant(1, IN_ROUND_1),
            Grant(2, IN_ROUND_1),
        ],
        Refuses(15, 0, 3),
    ),
    Call(
        &[
            Grant(0, IN_ROUND_1),
            Grant(1, RIVAL_IN_1),
            Grant(2, IN_ROUND_1),
            Request(1, 1, TRANSFER),
        ],
        Refuses(15, 0, 3),
    ),
    Call(
        &[Start(1, 1, 0), Start(2, 1, 0), Start(3, 1, 0)],
        Refuses(15, 0, 3),
    ),
    Call(
        &[Grant(0, FAR), Grant(1, FAR), Grant(2, FAR)],
        Refuses(18, 0, 3),
    ),
    Call(&[ShowGrant(1)], Refuses(21, 0, 3)),
    Call(&[ShowCert], Refuses(21, 0, 3)),
    Call(
        &[Grant(0, SECOND), Grant(1, SECOND), Grant(2, SECOND)],
        Replies(&[Answer(0, SECOND, 3)]),
    ),
    Call(&[Request(1, 1, TRANSFER)], Refuses(12, 0, 3)),
    Call(
        &[Grant(0, OLD), Grant(1, OLD), Grant(2, OLD)],
        Refuses(12, 0, 3),
    ),
    Call(
        &[
            Grant(0, FIRST),
            Grant(1, RIVAL),
            Grant(2, RIVAL),
            Request(1, 1, TRANSFER),
        ],
        Refuses(12, 3, 3),
    ),
    Call(&[Request(1, 2, OTHER)], Refuses(13, 0, 3)),
    Call(
        &[Grant(0, SPENT), Grant(1, SPENT), Grant(2, SPENT)],
        Refuses(13, 0, 3),
    ),
    Call(
        &[
            Grant(0, FIRST),
            Grant(1, RIVAL),
            Grant(2, RIVAL),
            Request(1, 2, OTHER),
        ],
        Refuses(13, 3, 3),
    ),
    Call(&[Request(1, 2, TRANSFER)], Replies(&[Answer(0, SECOND, 3)])),
    Call(
        &[
            Grant(0, FIRST),
            Grant(1, RIVAL),
            Grant(2, RIVAL),
            Request(1, 2, TRANSFER),
        ],
        Replies(&[Answer(0, SECOND, 3)]),
    ),
    Call(&[Request(2, 1, TRANSFER)], Replies(&[Grant(0, NEXT)])),
    Call(&[Request(2, 1, OTHER)], Refuses(14, 0, 3)),
    Call(&[Request(2, 2, TRANSFER)], Refuses(14, 0, 3)),
    Call(
        &[
            Grant(0, FIRST),
            Grant(1, RIVAL),
            Grant(2, RIVAL),
            Request(2, 2, TRANSFER),
        ],
        Refuses(14, 3, 3),
    ),
    Call(&[Request(2, 1, TRANSFER)], Replies(&[Grant(0, NEXT)])),
    Call(
        &[Grant(0, RIVAL), Grant(1, RIVAL), Grant(2, RIVAL)],
        Refuses(17, 0, 3),
    ),
    Call(
        &[Grant(0, NEXT), Grant(1, NEXT), Grant(2, NEXT)],
        Replies(&[Answer(0, NEXT, 3)]),
    ),
    Call(&[ShowGrant(2)], Refuses(21, 0, 3)),
    Call(
        &[Start(1, 0, 0), Start(2, 0, 0), Start(3, 0, 0)],
        Refuses(20, 0, 3),
    ),
    Call(
        &[
            Start(1, 0, 2),
            Start(2, 0, 2),
            Start(3, 0, 0),
            Grant(0, NEXT),
            Grant(1, NEXT),
            Grant(2, NEXT),
        ],
        Replies(&[]),
    ),
    Call(&[Request(3, 1, TRANSFER)], Refuses(11, 0, 3)),
    Call(
        &[
            Grant(0, IN_ROUND_1),
            Grant(1, RIVAL_IN_1),
            Grant(2, IN_ROUND_1),
            Request(3, 1, TRANSFER),
        ],
        Refuses(11, 0, 3),
    ),
    Call(
        &[
            Start(1, 1, 2),
            Start(2, 1, 0),
            Start(3, 1, 0),
            Grant(0, MARK),
            Grant(1, MARK),
            Grant(2, MARK),
        ],
        Refuses(11, 0, 3),
    ),
    Call(
        &[Grant(0, STALE), Grant(1, STALE), Grant(2, STALE)],
        Refuses(16, 0, 3),
    ),
    Call(
        &[Grant(0, MARK), Grant(1, MARK), Grant(2, MARK)],
        Replies(&[Answer(0, MARK, 0)]),
    ),
    Call(
        &[
            Start(1, 0, 2),
            Start(2, 0, 2),
            Start(3, 0, 0),
            Grant(0, NEXT),
            Grant(1, NEXT),
            Grant(2, NEXT),
        ],
        Refuses(16, 0, 3),
    ),
    Call(
        &[Grant(0, MARK), Grant(1, MARK), Grant(2, MARK)],
        Refuses(17, 0, 3),
    ),
    Call(
        &[Request(3, 1, TRANSFER)],
        Replies(&[Grant(0, Claim(3, 1, 1, 4, TRANSFER))]),
    ),
];

#[test]
fn rules_refuse(rt: HostRuntime) -> Result<(), Fail> {
    run(&rt, rt.alloc(), &mut fresh(1), &RULES)
}

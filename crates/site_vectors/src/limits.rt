//! The limits of places and rounds: 2,000,000,000 is the highest of both that is granted or begun.
use crate::calls::Due::{Refuses, Replies};
use crate::calls::{Call, at_state, run};
use crate::claims::{NOTHING, TRANSFER};
use crate::lines::Claim;
use crate::lines::Said::{Answer, Grant, Request, ShowGrant, Start};
use site::state::{FRESH, State};
use std::test::Fail;

const LIMIT: u32 = 2_000_000_000;

/// A state of a round and place, with no writes to show.
fn standing(round: u32, place: u32) -> State {
    let mut state = FRESH;
    state.round = round;
    state.ledger.place = place;
    state
}

// The last place that a site grants.
const LAST: Claim = Claim(1, 1, 0, LIMIT, TRANSFER);

// Claims to place 1 that clash: there a RESOLVE is a request, at index 3.
const ONE: Claim = Claim(1, 1, 0, 1, TRANSFER);

const OTHER: Claim = Claim(2, 1, 0, 1, TRANSFER);

static LAST_PLACE: [Call; 4] = [
    Call(&[Request(1, 1, TRANSFER)], Replies(&[Grant(0, LAST)])),
    Call(
        &[Grant(0, LAST), Grant(1, LAST), Grant(2, LAST)],
        Replies(&[Answer(0, LAST, 3)]),
    ),
    Call(&[Request(2, 1, TRANSFER)], Refuses(19, 0, 3)),
    Call(
        &[
            Grant(0, ONE),
            Grant(1, OTHER),
            Grant(2, OTHER),
            Request(2, 1, TRANSFER),
        ],
        Refuses(19, 3, 3),
    ),
];

#[test]
fn places_are_used_up(rt: HostRuntime) -> Result<(), Fail> {
    run(
        &rt,
        rt.alloc(),
        &mut at_state(standing(0, LIMIT - 1)),
        &LAST_PLACE,
    )
}

#[test]
fn no_place_is_left(rt: HostRuntime) -> Result<(), Fail> {
    let calls = [Call(&[Request(1, 1, TRANSFER)], Refuses(19, 0, 3))];
    run(&rt, rt.alloc(), &mut at_state(standing(0, LIMIT)), &calls)
}

// The last round that begins, and the one that does not.
static ROUNDS: [Call; 4] = [
    Call(
        &[
            Start(1, 1_999_999_999, 0),
            Start(2, 1_999_999_999, 0),
            Start(3, 1_999_999_999, 0),
        ],
        Replies(&[]),
    ),
    Call(&[ShowGrant(1)], Replies(&[Grant(0, LAST_MARK)])),
    Call(
        &[
            Grant(0, LAST_MARK),
            Grant(1, LAST_MARK),
            Grant(2, LAST_MARK),
        ],
        Replies(&[Answer(0, LAST_MARK, 0)]),
    ),
    Call(
        &[Start(1, LIMIT, 0), Start(2, LIMIT, 0), Start(3, LIMIT, 0)],
        Refuses(19, 0, 3),
    ),
];

const LAST_MARK: Claim = Claim(16, LIMIT, LIMIT, 1, NOTHING);

#[test]
fn rounds_are_used_up(rt: HostRuntime) -> Result<(), Fail> {
    run(
        &rt,
        rt.alloc(),
        &mut at_state(standing(LIMIT - 1, 0)),
        &ROUNDS,
    )
}

// The target at the limit, and one below it. A place may be up to 16 above the limit, as those of a settlement are.
const BELOW: Claim = Claim(1, 1, 0, 1_999_999_999, TRANSFER);

const ABOVE: Claim = Claim(1, 1, 0, 2_000_000_016, TRANSFER);

const PAST: Claim = Claim(1, 1, 0, 2_000_000_017, TRANSFER);

static TARGETS: [Call; 5] = [
    Call(
        &[
            Start(1, 0, 0),
            Start(2, 0, 0),
            Start(3, 0, 0),
            Grant(0, LAST),
            Grant(1, LAST),
            Grant(2, LAST),
        ],
        Refuses(19, 0, 3),
    ),
    Call(
        &[
            Start(1, 0, 0),
            Start(2, 0, 0),
            Start(3, 0, 0),
            Grant(0, ABOVE),
            Grant(1, ABOVE),
            Grant(2, ABOVE),
        ],
        Refuses(19, 0, 3),
    ),
    Call(
        &[
            Start(1, 0, 0),
            Start(2, 0, 0),
            Start(3, 0, 0),
            Grant(0, PAST),
            Grant(1, PAST),
            Grant(2, PAST),
        ],
        Refuses(4, 3, 1),
    ),
    Call(
        &[
            Start(1, 0, 0),
            Start(2, 0, 0),
            Start(3, 0, 0),
            Grant(0, BELOW),
            Grant(1, BELOW),
            Grant(2, BELOW),
            Request(2, 1, TRANSFER),
        ],
        Replies(&[]),
    ),
    Call(
        &[ShowGrant(2_000_000_001)],
        Replies(&[Grant(0, Claim(2, 1, 1, 2_000_000_001, TRANSFER))]),
    ),
];

#[test]
fn targets_are_used_up(rt: HostRuntime) -> Result<(), Fail> {
    run(
        &rt,
        rt.alloc(),
        &mut at_state(standing(0, LIMIT - 1)),
        &TARGETS,
    )
}

//! Buffers that do not fit: the call is refused as SHORT, before all else, and touches nothing.
use crate::calls::Due::{Finds, Nothing, Question, Request};
use crate::calls::Step::{Begin, Bytes, Judge, JudgeReading, Query, Take};
use crate::calls::{Call, Given, Step, USED, Which, make, makes_in, run};
use crate::claims::{ANSWER, GRANT, NONCE, OURS, READ, THEIRS};
use crate::lines::By;
use crate::seat::Seat;
use message::Refusal;
use office::Verdict::Certify;
use std::process::Abort;
use std::test::Fail;
use tables::output::{MARKED, only_begins};

const SHORT: Given = Given::Refused(Refusal {
    number: 1,
    index: 0,
    layer: 1,
});

/// The calls with buffers. By what is open, each would pass or be refused for another reason, were the buffers fit.
static CALLS: [Step; 6] = [
    Begin(OURS),
    Query(THEIRS, 9),
    Take(By(3, 3, ANSWER)),
    Bytes(&[]),
    Judge,
    JudgeReading,
];

/// Each call is refused with these buffers, which stay as they are, as does the desk.
fn short_of(
    rt: &impl Abort,
    seat: &mut Seat,
    output: &mut [u8],
    board: &mut [u8],
) -> Result<(), Fail> {
    let before = *seat.office.desk();
    for step in &CALLS {
        assert_eq!(rt; make(seat, step, output, board), SHORT);
        assert!(rt; before == *seat.office.desk());
        for byte in &*board {
            assert!(rt; *byte == USED);
        }
        assert!(rt; only_begins(output, &[]));
    }
    Ok(())
}

/// An output that is too short, and boards that are too short and too long.
fn unfit(rt: &impl Abort, seat: &mut Seat) -> Result<(), Fail> {
    short_of(rt, seat, &mut [MARKED; 879], &mut [USED; 16])?;
    short_of(rt, seat, &mut [MARKED; 880], &mut [USED; 15])?;
    short_of(rt, seat, &mut [MARKED; 880], &mut [USED; 17])?;
    short_of(rt, seat, &mut [], &mut [])
}

static OPENED: [Call; 4] = [
    Call(Begin(OURS), Request(3, 1, OURS)),
    Call(Query(OURS, NONCE), Question(3, OURS, NONCE)),
    Call(Take(By(0, 2, ANSWER)), Nothing),
    Call(Take(By(0, 2, READ)), Nothing),
];

#[test]
fn unfit_buffers(rt: HostRuntime) -> Result<(), Fail> {
    unfit(&rt, &mut Seat::new(1, 3, 0))?;
    let mut seat = Seat::new(1, 3, 0);
    run(&rt, rt.alloc(), &mut seat, &OPENED)?;
    unfit(&rt, &mut seat)
}

static WITH_880: [Call; 4] = [
    Call(Begin(OURS), Request(3, 1, OURS)),
    Call(Query(OURS, NONCE), Question(3, OURS, NONCE)),
    Call(Take(By(0, 15, GRANT)), Nothing),
    Call(Judge, Finds(Certify, &[By(0, 10, GRANT)])),
];

// An output of exactly 880 bytes is enough, and CERTIFY at f = 5 fills it.
#[test]
fn the_shortest_output(rt: HostRuntime) -> Result<(), Fail> {
    let mut seat = Seat::new(5, 3, 0);
    for (i, call) in WITH_880.iter().enumerate() {
        makes_in(
            &rt,
            rt.alloc(),
            Which::Call(i),
            &mut seat,
            call,
            &mut [MARKED; 880],
        )?;
    }
    Ok(())
}

//! The figures of an office, and the numbers of its writes.
use crate::calls::Due::{Ends, Finds, Nothing, Question, Refuses, Request};
use crate::calls::Step::{Begin, GiveUp, Judge, Query, Take};
use crate::calls::{Call, USED, make, run};
use crate::claims::OURS;
use crate::lines::{By, Claim, Word};
use crate::seat::Seat;
use message::Refusal;
use office::Verdict::Certify;
use office::check_figures;
use std::test::Fail;

const UNFIT: Refusal = Refusal {
    number: 4,
    index: 0,
    layer: 3,
};

#[test]
fn which_fit(rt: HostRuntime) -> Result<(), Fail> {
    assert_eq!(rt; check_figures(1, 0), Ok(()));
    assert_eq!(rt; check_figures(5, 15), Ok(()));
    assert_eq!(rt; check_figures(0, 0), Err(UNFIT));
    assert_eq!(rt; check_figures(6, 0), Err(UNFIT));
    assert_eq!(rt; check_figures(1, 16), Err(UNFIT));
    assert_eq!(rt; check_figures(255, 255), Err(UNFIT));
    Ok(())
}

// Unfit figures make client 0 of f = 1: site 4 is none of the pool, and three sites are a quorum.
static AS_CLIENT_0: [Call; 5] = [
    Call(Query(OURS, 1), Question(0, OURS, 1)),
    Call(Begin(OURS), Request(0, 1, OURS)),
    Call(Take(By(4, 4, OF_CLIENT_0)), Refuses(4, 1)),
    Call(Take(By(1, 3, OF_CLIENT_0)), Nothing),
    Call(Judge, Finds(Certify, &[By(1, 3, OF_CLIENT_0)])),
];

const OF_CLIENT_0: Word = Word::Grant(Claim(0, 1, 0, 1, OURS));

#[test]
fn unfit_figures(rt: HostRuntime) -> Result<(), Fail> {
    run(&rt, rt.alloc(), &mut Seat::new(0, 5, 0), &AS_CLIENT_0)?;
    run(&rt, rt.alloc(), &mut Seat::new(6, 5, 0), &AS_CLIENT_0)?;
    run(&rt, rt.alloc(), &mut Seat::new(5, 16, 0), &AS_CLIENT_0)
}

// The highest number is the last. BUSY comes before USED UP, and a question needs no number.
static LAST_NUMBER: [Call; 6] = [
    Call(Begin(OURS), Request(3, 4_294_967_295, OURS)),
    Call(Begin(OURS), Refuses(14, 3)),
    Call(GiveUp, Ends),
    Call(Begin(OURS), Refuses(19, 3)),
    Call(Query(OURS, 1), Question(3, OURS, 1)),
    Call(Begin(OURS), Refuses(19, 3)),
];

#[test]
fn numbers_are_used_up(rt: HostRuntime) -> Result<(), Fail> {
    run(
        &rt,
        rt.alloc(),
        &mut Seat::new(1, 3, 4_294_967_294),
        &LAST_NUMBER,
    )?;
    let none_left = [Call(Begin(OURS), Refuses(19, 3))];
    run(
        &rt,
        rt.alloc(),
        &mut Seat::new(1, 3, 4_294_967_295),
        &none_left,
    )
}

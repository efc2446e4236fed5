//! Tickets at an office whose open write is not theirs: NONE, and the ticket comes back and is still good.
use crate::calls::Due::{Answers, Finds, Nothing, Request};
use crate::calls::Step::{Begin, Close, Judge, Take};
use crate::calls::{Call, run};
use crate::claims::{ANSWER, GIVEN, OURS};
use crate::lines::{By, Claim, Word};
use crate::seat::Seat;
use message::Refusal;
use office::Office;
use office::Verdict::Done;
use office::desk::CLEAR;
use std::alloc::Global;
use std::process::Abort;
use std::test::Fail;
use tables::trusting::Trusting;

const NONE: Refusal = Refusal {
    number: 21,
    index: 0,
    layer: 3,
};

static ANSWERED: [Call; 3] = [
    Call(Begin(OURS), Request(3, 1, OURS)),
    Call(Take(By(0, 2, ANSWER)), Nothing),
    Call(Judge, Finds(Done { answer: GIVEN }, &[])),
];

// The ticket is good at its own office after it came back from another.
#[test]
fn at_an_office_with_no_write(rt: HostRuntime) -> Result<(), Fail> {
    let mut seat = Seat::new(1, 3, 0);
    let mut other = Office::new(1, 3, Trusting {});
    run(&rt, rt.alloc(), &mut seat, &ANSWERED)?;
    assert_eq!(rt; seat.close_at(&mut other), Err(NONE));
    assert_eq!(rt; seat.give_up_at(&mut other), Err(NONE));
    assert!(rt; CLEAR == *other.desk());
    run(&rt, rt.alloc(), &mut seat, &[Call(Close, Answers(GIVEN))])
}

const ANSWER_TO_2: Word = Word::Answer(Claim(3, 2, 0, 2, OURS), 5);

static SECOND: [Call; 3] = [
    Call(Begin(OURS), Request(3, 2, OURS)),
    Call(Take(By(0, 2, ANSWER_TO_2)), Nothing),
    Call(Judge, Finds(Done { answer: 5 }, &[])),
];

const ANSWER_TO_4: Word = Word::Answer(Claim(4, 1, 0, 2, OURS), 5);

static OF_CLIENT_4: [Call; 3] = [
    Call(Begin(OURS), Request(4, 1, OURS)),
    Call(Take(By(0, 2, ANSWER_TO_4)), Nothing),
    Call(Judge, Finds(Done { answer: 5 }, &[])),
];

/// Our answered write, and another one that is answered with 5: neither is ended by the ticket of the other.
fn stand_apart(
    rt: &impl Abort,
    heap: Global,
    other: &mut Seat,
    calls: &[Call],
) -> Result<(), Fail> {
    let mut seat = Seat::new(1, 3, 0);
    run(rt, heap, &mut seat, &ANSWERED)?;
    run(rt, heap, other, calls)?;
    assert_eq!(rt; seat.close_beside(other), Err(NONE));
    assert_eq!(rt; seat.give_up_beside(other), Err(NONE));
    assert_eq!(rt; other.close_beside(&mut seat), Err(NONE));
    assert_eq!(rt; other.give_up_beside(&mut seat), Err(NONE));
    run(rt, heap, &mut seat, &[Call(Close, Answers(GIVEN))])?;
    run(rt, heap, other, &[Call(Close, Answers(5))])
}

#[test]
fn at_a_write_of_another_number(rt: HostRuntime) -> Result<(), Fail> {
    stand_apart(&rt, rt.alloc(), &mut Seat::new(1, 3, 1), &SECOND)
}

#[test]
fn at_a_write_of_another_client(rt: HostRuntime) -> Result<(), Fail> {
    stand_apart(&rt, rt.alloc(), &mut Seat::new(1, 4, 0), &OF_CLIENT_4)
}

//! A question takes the place of the one before; a reading stands beside the write and needs no ticket.
use crate::calls::Due::{Answers, Finds, Holds, Nothing, Question, Refuses, Request};
use crate::calls::Step::{Begin, Close, Filed, FiledReading, Judge, JudgeReading, Query, Take};
use crate::calls::{Call, run_fresh};
use crate::claims::{ANSWER, GIVEN, GRANT, NONCE, OURS, READ, READ_AT_2, THEIRS};
use crate::lines::{By, Claim, Word};
use office::Verdict::{Certify, Done, Wait};
use std::test::Fail;

// The nonce differs in its first byte.
const NEXT: u64 = 0x2112131415161718;

const READ_NEXT: Word = Word::Reading(Claim(3, 0, 0, 1, THEIRS), NEXT, 5);

const READ_SOONER: Word = Word::Reading(Claim(3, 0, 0, 0, THEIRS), NEXT, 6);

const READ_AS_LATE: Word = Word::Reading(Claim(3, 0, 0, 1, THEIRS), NEXT, 7);

static REPLACED: [Call; 20] = [
    Call(Query(OURS, NONCE), Question(3, OURS, NONCE)),
    Call(Take(By(0, 1, READ)), Nothing),
    Call(Take(By(2, 2, READ_AT_2)), Nothing),
    Call(FiledReading(2), Holds(2, READ_AT_2)),
    Call(Query(THEIRS, NEXT), Question(3, THEIRS, NEXT)),
    Call(FiledReading(0), Nothing),
    Call(FiledReading(2), Nothing),
    Call(JudgeReading, Finds(Wait, &[])),
    Call(Take(By(0, 0, READ)), Refuses(5, 2)),
    Call(Take(By(0, 2, READ_NEXT)), Nothing),
    Call(JudgeReading, Finds(Done { answer: 5 }, &[])),
    Call(Take(By(0, 2, READ_SOONER)), Nothing),
    Call(Take(By(0, 2, READ_AS_LATE)), Nothing),
    Call(JudgeReading, Finds(Done { answer: 5 }, &[])),
    Call(Query(THEIRS, NEXT), Question(3, THEIRS, NEXT)),
    Call(JudgeReading, Finds(Wait, &[])),
    Call(Take(By(1, 1, READ_SOONER)), Nothing),
    Call(FiledReading(1), Holds(1, READ_SOONER)),
    Call(Take(By(1, 1, READ_NEXT)), Nothing),
    Call(FiledReading(1), Holds(1, READ_NEXT)),
];

#[test]
fn the_next_question(rt: HostRuntime) -> Result<(), Fail> {
    run_fresh(&rt, rt.alloc(), 1, &REPLACED)
}

// Neither judge counts the other's replies, and a question leaves the write and its replies.
static BESIDE: [Call; 15] = [
    Call(Begin(OURS), Request(3, 1, OURS)),
    Call(Query(OURS, NONCE), Question(3, OURS, NONCE)),
    Call(Take(By(0, 2, READ)), Nothing),
    Call(Judge, Finds(Wait, &[])),
    Call(JudgeReading, Finds(Done { answer: GIVEN }, &[])),
    Call(Close, Refuses(11, 3)),
    Call(Take(By(0, 2, GRANT)), Nothing),
    Call(Filed(2), Holds(2, GRANT)),
    Call(FiledReading(2), Holds(2, READ)),
    Call(Query(OURS, 0), Question(3, OURS, 0)),
    Call(JudgeReading, Finds(Wait, &[])),
    Call(Judge, Finds(Certify, &[By(0, 2, GRANT)])),
    Call(Take(By(0, 2, ANSWER)), Nothing),
    Call(JudgeReading, Finds(Wait, &[])),
    Call(Close, Answers(GIVEN)),
];

#[test]
fn beside_a_write(rt: HostRuntime) -> Result<(), Fail> {
    run_fresh(&rt, rt.alloc(), 1, &BESIDE)
}

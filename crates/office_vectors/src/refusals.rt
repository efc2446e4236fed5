//! The refusals of BEGIN, TAKE, CLOSE and GIVE UP, and which comes before which.
use crate::calls::Due::{Answers, Ends, Finds, Nothing, Question, Refuses, Request};
use crate::calls::Step::{
    Altered, Begin, Bytes, Close, Filed, FiledReading, GiveUp, Judge, JudgeReading, Query, Take,
};
use crate::calls::{Call, run_fresh};
use crate::claims::{ANSWER, GIVEN, GRANT, MARK, NONCE, OF_ANOTHER, OF_THEIRS, OURS, READ, THEIRS};
use crate::lines::{By, Claim, Word};
use office::Verdict::{Back, Catch, Certify, Clash, Done, Wait};
use std::test::Fail;
use tables::trusting::FORGED;

// With nothing open there is nothing to be unlike: UNVOUCHED, or else NONE.
static NOTHING_OPEN: [Call; 16] = [
    Call(Take(By(0, 0, GRANT)), Refuses(21, 3)),
    Call(Take(By(0, 0, ANSWER)), Refuses(21, 3)),
    Call(Take(By(0, 0, READ)), Refuses(21, 3)),
    Call(Altered(0, GRANT, 48, FORGED), Refuses(8, 2)),
    Call(Altered(0, ANSWER, 48, FORGED), Refuses(8, 2)),
    Call(Altered(0, READ, 48, FORGED), Refuses(8, 2)),
    Call(Take(By(0, 0, ANSWER_TO_4)), Refuses(21, 3)),
    Call(Judge, Finds(Wait, &[])),
    Call(JudgeReading, Finds(Wait, &[])),
    Call(Begin(OURS), Request(3, 1, OURS)),
    Call(Take(By(0, 0, READ)), Refuses(21, 3)),
    Call(GiveUp, Ends),
    Call(Query(OURS, NONCE), Question(3, OURS, NONCE)),
    Call(Take(By(0, 0, GRANT)), Refuses(21, 3)),
    Call(Take(By(0, 0, ANSWER)), Refuses(21, 3)),
    Call(Altered(0, ANSWER, 48, FORGED), Refuses(8, 2)),
];

const ANSWER_TO_4: Word = Word::Answer(Claim(4, 1, 0, 1, OURS), GIVEN);

#[test]
fn with_nothing_open(rt: HostRuntime) -> Result<(), Fail> {
    run_fresh(&rt, rt.alloc(), 1, &NOTHING_OPEN)
}

// Not 1 to 38 whole records; not one record; not a GRANT, ANSWER or READ-ANSWER.
static NOT_A_REPLY: [Call; 17] = [
    Call(Begin(OURS), Request(3, 1, OURS)),
    Call(Query(OURS, NONCE), Question(3, OURS, NONCE)),
    Call(Bytes(&[]), Refuses(2, 1)),
    Call(Bytes(&[2; 79]), Refuses(2, 1)),
    Call(Bytes(&[2; 81]), Refuses(2, 1)),
    Call(Bytes(&[2; 3120]), Refuses(2, 1)),
    Call(Bytes(&[2; 160]), Refuses(3, 1)),
    Call(Bytes(&[2; 3040]), Refuses(3, 1)),
    Call(Bytes(&[2; 80]), Refuses(4, 1)),
    Call(Altered(0, GRANT, 0, 0), Refuses(3, 1)),
    Call(Altered(0, GRANT, 0, 1), Refuses(3, 1)),
    Call(Altered(0, GRANT, 0, 3), Refuses(3, 1)),
    Call(Altered(0, GRANT, 0, 7), Refuses(3, 1)),
    Call(Altered(0, GRANT, 0, 8), Refuses(3, 1)),
    Call(Altered(0, GRANT, 0, 9), Refuses(3, 1)),
    Call(Altered(0, GRANT, 0, 255), Refuses(3, 1)),
    Call(Take(By(0, 0, Word::Start(0, 1))), Refuses(3, 1)),
];

#[test]
fn what_is_not_a_reply(rt: HostRuntime) -> Result<(), Fail> {
    run_fresh(&rt, rt.alloc(), 1, &NOT_A_REPLY)
}

// A byte that is out of range, of each field. FIELD comes before MIXED and UNVOUCHED.
static FIELDS: [Call; 20] = [
    Call(Begin(OURS), Request(3, 1, OURS)),
    Call(Query(OURS, NONCE), Question(3, OURS, NONCE)),
    Call(Altered(0, GRANT, 1, 4), Refuses(4, 1)),
    Call(Altered(0, GRANT, 2, 16), Refuses(4, 1)),
    Call(Altered(0, GRANT, 2, 17), Refuses(4, 1)),
    Call(Altered(0, GRANT, 3, 1), Refuses(4, 1)),
    Call(Altered(0, GRANT, 7, 0), Refuses(4, 1)),
    Call(Altered(0, GRANT, 8, 128), Refuses(4, 1)),
    Call(Altered(0, GRANT, 12, 128), Refuses(4, 1)),
    Call(Altered(0, GRANT, 15, 0), Refuses(4, 1)),
    Call(Altered(0, GRANT, 39, 1), Refuses(4, 1)),
    Call(Altered(0, GRANT, 47, 1), Refuses(4, 1)),
    Call(Altered(0, ANSWER, 1, 4), Refuses(4, 1)),
    Call(Altered(0, ANSWER, 47, 1), Refuses(4, 1)),
    Call(Altered(0, ANSWER_TO_4, 3, 1), Refuses(4, 1)),
    Call(Altered(0, READ, 1, 4), Refuses(4, 1)),
    Call(Altered(0, READ, 2, 16), Refuses(4, 1)),
    Call(Altered(0, READ, 7, 1), Refuses(4, 1)),
    Call(Altered(4, GRANT, 48, FORGED), Refuses(4, 1)),
    Call(Altered(3, GRANT, 79, 1), Nothing),
];

#[test]
fn fields_out_of_range(rt: HostRuntime) -> Result<(), Fail> {
    run_fresh(&rt, rt.alloc(), 1, &FIELDS)
}

// An ANSWER of another client, number or operation, and a READ-ANSWER of another client, operation or nonce, are MIXED. MIXED
// comes before UNVOUCHED, and a GRANT is never MIXED.
static UNLIKE: [Call; 24] = [
    Call(Begin(OURS), Request(3, 1, OURS)),
    Call(Query(OURS, NONCE), Question(3, OURS, NONCE)),
    Call(Take(By(0, 0, ANSWER_TO_4)), Refuses(5, 2)),
    Call(Altered(0, ANSWER, 4, 1), Refuses(5, 2)),
    Call(Altered(0, ANSWER, 7, 2), Refuses(5, 2)),
    Call(Altered(0, ANSWER, 16, 2), Refuses(5, 2)),
    Call(Altered(0, ANSWER, 31, 17), Refuses(5, 2)),
    Call(
        Take(By(0, 0, Word::Answer(Claim(16, 1, 1, 1, [0; 16]), 0))),
        Refuses(5, 2),
    ),
    Call(Altered(0, ANSWER_TO_4, 48, FORGED), Refuses(5, 2)),
    Call(Altered(0, READ, 2, 4), Refuses(5, 2)),
    Call(Altered(0, READ, 16, 2), Refuses(5, 2)),
    Call(Altered(0, READ, 31, 17), Refuses(5, 2)),
    Call(Altered(0, READ, 40, 0), Refuses(5, 2)),
    Call(Altered(0, READ, 47, 0), Refuses(5, 2)),
    Call(Altered(0, GRANT, 48, FORGED), Refuses(8, 2)),
    Call(Altered(0, OF_ANOTHER, 48, FORGED), Refuses(8, 2)),
    Call(Altered(0, ANSWER, 48, FORGED), Refuses(8, 2)),
    Call(Altered(0, READ, 48, FORGED), Refuses(8, 2)),
    Call(Filed(0), Nothing),
    Call(FiledReading(0), Nothing),
    Call(Take(By(0, 0, OF_ANOTHER)), Nothing),
    Call(Take(By(1, 1, MARK)), Nothing),
    Call(Take(By(2, 2, ANSWER)), Nothing),
    Call(Take(By(3, 3, READ)), Nothing),
];

#[test]
fn replies_to_something_else(rt: HostRuntime) -> Result<(), Fail> {
    run_fresh(&rt, rt.alloc(), 1, &UNLIKE)
}

// BUSY while a write is open. CLOSE is refused as WAIT under every verdict but DONE, and its ticket is still good.
static OPEN: [Call; 25] = [
    Call(Begin(OURS), Request(3, 1, OURS)),
    Call(Begin(OURS), Refuses(14, 3)),
    Call(Close, Refuses(11, 3)),
    Call(Take(By(0, 0, OF_ANOTHER)), Nothing),
    Call(Take(By(1, 2, GRANT)), Nothing),
    Call(
        Judge,
        Finds(Clash, &[By(0, 0, OF_ANOTHER), By(1, 2, GRANT)]),
    ),
    Call(Close, Refuses(11, 3)),
    Call(Take(By(3, 3, GRANT)), Nothing),
    Call(Judge, Finds(Certify, &[By(1, 3, GRANT)])),
    Call(Close, Refuses(11, 3)),
    Call(Take(By(1, 2, ANSWER)), Nothing),
    Call(Judge, Finds(Catch { site: 1 }, &[])),
    Call(Close, Refuses(11, 3)),
    Call(Take(By(3, 3, ANSWER)), Nothing),
    Call(Begin(THEIRS), Refuses(14, 3)),
    Call(Judge, Finds(Done { answer: GIVEN }, &[])),
    Call(Close, Answers(GIVEN)),
    Call(Judge, Finds(Wait, &[])),
    Call(Take(By(0, 0, ANSWER)), Refuses(21, 3)),
    Call(Begin(THEIRS), Request(3, 2, THEIRS)),
    Call(Take(By(0, 2, OF_THEIRS)), Nothing),
    Call(Judge, Finds(Back, &[By(0, 2, OF_THEIRS)])),
    Call(Close, Refuses(11, 3)),
    Call(GiveUp, Ends),
    Call(Begin(OURS), Request(3, 3, OURS)),
];

#[test]
fn while_a_write_is_open(rt: HostRuntime) -> Result<(), Fail> {
    run_fresh(&rt, rt.alloc(), 1, &OPEN)
}

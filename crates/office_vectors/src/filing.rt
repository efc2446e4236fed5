//! Which of two replies of a site stays in its slot, and what empties the slots.
use crate::calls::Due::{Answers, Ends, Finds, Holds, Nothing, Question, Request};
use crate::calls::Step::{Altered, Begin, Close, Filed, FiledReading, GiveUp, Judge, Query, Take};
use crate::calls::{Call, run_fresh};
use crate::claims::{
    ANSWER, AT_PLACE_2, AT_PLACE_9, GIVEN, GRANT, NONCE, OF_ANOTHER, OURS, READ, THEIRS,
};
use crate::lines::{By, Claim, Word};
use office::Verdict::Wait;
use std::test::Fail;

const PLACE_256: Word = Word::Grant(Claim(3, 1, 0, 256, OURS));

const ROUND_1: Word = Word::Grant(Claim(5, 2, 1, 1, THEIRS));

const ANSWER_IN_1: Word = Word::Answer(Claim(3, 1, 1, 1, OURS), 0);

const OTHER_IN_1: Word = Word::Answer(Claim(3, 1, 1, 1, OURS), 9);

const ROUND_1_PLACE_2: Word = Word::Grant(Claim(3, 1, 1, 2, OURS));

const ROUND_256: Word = Word::Answer(Claim(3, 1, 256, 1, OURS), 1);

// A later place or round replaces, and an ANSWER does a GRANT of the same round and place. What is earlier or as late does not.
static LATER: [Call; 32] = [
    Call(Begin(OURS), Request(3, 1, OURS)),
    Call(Filed(2), Nothing),
    Call(Take(By(2, 2, GRANT)), Nothing),
    Call(Filed(2), Holds(2, GRANT)),
    Call(Altered(2, GRANT, 79, 1), Nothing),
    Call(Filed(2), Holds(2, GRANT)),
    Call(Take(By(2, 2, OF_ANOTHER)), Nothing),
    Call(Filed(2), Holds(2, GRANT)),
    Call(Take(By(2, 2, AT_PLACE_9)), Nothing),
    Call(Filed(2), Holds(2, AT_PLACE_9)),
    Call(Take(By(2, 2, AT_PLACE_2)), Nothing),
    Call(Take(By(2, 2, ANSWER)), Nothing),
    Call(Filed(2), Holds(2, AT_PLACE_9)),
    Call(Take(By(2, 2, PLACE_256)), Nothing),
    Call(Filed(2), Holds(2, PLACE_256)),
    Call(Take(By(2, 2, ROUND_1)), Nothing),
    Call(Filed(2), Holds(2, ROUND_1)),
    Call(Take(By(2, 2, PLACE_256)), Nothing),
    Call(Filed(2), Holds(2, ROUND_1)),
    Call(Take(By(2, 2, ANSWER_IN_1)), Nothing),
    Call(Filed(2), Holds(2, ANSWER_IN_1)),
    Call(Take(By(2, 2, ROUND_1)), Nothing),
    Call(Take(By(2, 2, OTHER_IN_1)), Nothing),
    Call(Filed(2), Holds(2, ANSWER_IN_1)),
    Call(Take(By(2, 2, ROUND_1_PLACE_2)), Nothing),
    Call(Filed(2), Holds(2, ROUND_1_PLACE_2)),
    Call(Take(By(2, 2, ROUND_256)), Nothing),
    Call(Filed(2), Holds(2, ROUND_256)),
    Call(Filed(0), Nothing),
    Call(Filed(1), Nothing),
    Call(Filed(3), Nothing),
    Call(FiledReading(2), Nothing),
];

#[test]
fn the_later_reply_stays(rt: HostRuntime) -> Result<(), Fail> {
    run_fresh(&rt, rt.alloc(), 1, &LATER)
}

// CLOSE and GIVE UP empty the slots of the write, and leave those of the question.
static EMPTIED: [Call; 19] = [
    Call(Begin(OURS), Request(3, 1, OURS)),
    Call(Query(OURS, NONCE), Question(3, OURS, NONCE)),
    Call(Take(By(0, 1, READ)), Nothing),
    Call(Take(By(0, 15, ANSWER)), Nothing),
    Call(Filed(15), Holds(15, ANSWER)),
    Call(Close, Answers(GIVEN)),
    Call(Filed(0), Nothing),
    Call(Filed(15), Nothing),
    Call(FiledReading(1), Holds(1, READ)),
    Call(Begin(THEIRS), Request(3, 2, THEIRS)),
    Call(Judge, Finds(Wait, &[])),
    Call(Take(By(0, 15, GRANT)), Nothing),
    Call(Filed(0), Holds(0, GRANT)),
    Call(GiveUp, Ends),
    Call(Filed(0), Nothing),
    Call(Filed(15), Nothing),
    Call(FiledReading(1), Holds(1, READ)),
    Call(Begin(OURS), Request(3, 3, OURS)),
    Call(Judge, Finds(Wait, &[])),
];

#[test]
fn the_end_of_a_write_empties(rt: HostRuntime) -> Result<(), Fail> {
    run_fresh(&rt, rt.alloc(), 5, &EMPTIED)
}

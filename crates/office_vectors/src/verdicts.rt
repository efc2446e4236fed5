//! The verdicts of JUDGE and of the reading's judge, at f = 1 with the replies in every order, and at f = 5.
use crate::calls::{Call, Due, Step, Which, makes};
use crate::claims::{
    ANSWER, AT_PLACE_2, AT_PLACE_9, GIVEN, GRANT, IN_ROUND_1, MARK, NONCE, OF_ANOTHER, OF_NUMBER_2,
    OF_THEIRS, OTHER_ANSWER, OTHER_READ, OURS, READ, READ_AT_2, READ_EMPTY, READ_IN_ROUND_1,
};
use crate::lines::By;
use crate::seat::Seat;
use office::Verdict;
use office::Verdict::{Back, Catch, Certify, Clash, Done, Wait};
use std::alloc::Global;
use std::process::Abort;
use std::test::Fail;

/// Replies, the verdict that they come to, and the records that it writes.
struct Case(&'static [By], Verdict, &'static [By]);

/// What the replies are to: the call that asks, and the one that judges.
struct Asking(Call, Step);

static WRITE: Asking = Asking(
    Call(Step::Begin(OURS), Due::Request(3, 1, OURS)),
    Step::Judge,
);

static READING: Asking = Asking(
    Call(Step::Query(OURS, NONCE), Due::Question(3, OURS, NONCE)),
    Step::JudgeReading,
);

/// Asks, takes the replies in the order of these indexes, and judges.
fn comes_to(
    rt: &impl Abort,
    heap: Global,
    which: Which,
    f: u8,
    asking: &Asking,
    order: &[usize],
    case: &Case,
) -> Result<(), Fail> {
    let mut seat = Seat::new(f, 3, 0);
    makes(rt, heap, which, &mut seat, &asking.0)?;
    for at in order {
        assert!(rt; *at < case.0.len(), "{which}");
        makes(
            rt,
            heap,
            which,
            &mut seat,
            &Call(Step::Take(case.0[*at]), Due::Nothing),
        )?;
    }
    makes(
        rt,
        heap,
        which,
        &mut seat,
        &Call(asking.1, Due::Finds(case.1, case.2)),
    )
}

/// Every order of four replies.
static ORDERS: [[usize; 4]; 24] = [
    [0, 1, 2, 3],
    [0, 1, 3, 2],
    [0, 2, 1, 3],
    [0, 2, 3, 1],
    [0, 3, 1, 2],
    [0, 3, 2, 1],
    [1, 0, 2, 3],
    [1, 0, 3, 2],
    [1, 2, 0, 3],
    [1, 2, 3, 0],
    [1, 3, 0, 2],
    [1, 3, 2, 0],
    [2, 0, 1, 3],
    [2, 0, 3, 1],
    [2, 1, 0, 3],
    [2, 1, 3, 0],
    [2, 3, 0, 1],
    [2, 3, 1, 0],
    [3, 0, 1, 2],
    [3, 0, 2, 1],
    [3, 1, 0, 2],
    [3, 1, 2, 0],
    [3, 2, 0, 1],
    [3, 2, 1, 0],
];

/// The four replies of each case come to its verdict in every order. A failed assertion names the case and the order, counted from 0.
fn in_every_order(
    rt: &impl Abort,
    heap: Global,
    asking: &Asking,
    cases: &[Case],
) -> Result<(), Fail> {
    for (i, case) in cases.iter().enumerate() {
        assert!(rt; case.0.len() == 4);
        for (j, order) in ORDERS.iter().enumerate() {
            comes_to(rt, heap, Which::InOrder(i, j), 1, asking, order, case)?;
        }
    }
    Ok(())
}

/// The replies of each case, at most four groups of them, come to its verdict at f = 5 as they stand and from behind.
fn both_ways(rt: &impl Abort, heap: Global, asking: &Asking, cases: &[Case]) -> Result<(), Fail> {
    for (i, case) in cases.iter().enumerate() {
        let count = case.0.len();
        assert!(rt; count <= 4);
        let forward = &[0, 1, 2, 3][..count];
        comes_to(rt, heap, Which::Case(i), 5, asking, forward, case)?;
        let back = &[3, 2, 1, 0][4 - count..];
        comes_to(rt, heap, Which::FromBehind(i), 5, asking, back, case)?;
    }
    Ok(())
}

// Three of the four sites are a quorum. Of more than three, the lowest three are written, in the order of their numbers.
static FOUR_SITES: [Case; 20] = [
    Case(
        &[
            By(0, 0, ANSWER),
            By(1, 1, GRANT),
            By(2, 2, ANSWER),
            By(3, 3, ANSWER),
        ],
        Done { answer: GIVEN },
        &[],
    ),
    Case(
        &[
            By(0, 0, ANSWER),
            By(1, 1, ANSWER),
            By(2, 2, ANSWER),
            By(3, 3, OTHER_ANSWER),
        ],
        Done { answer: GIVEN },
        &[],
    ),
    Case(
        &[
            By(0, 0, OTHER_ANSWER),
            By(1, 1, ANSWER),
            By(2, 2, ANSWER),
            By(3, 3, ANSWER),
        ],
        Done { answer: GIVEN },
        &[],
    ),
    // A site that grants and then answers.
    Case(
        &[
            By(1, 1, GRANT),
            By(1, 1, ANSWER),
            By(2, 2, ANSWER),
            By(3, 3, ANSWER),
        ],
        Done { answer: GIVEN },
        &[],
    ),
    Case(
        &[
            By(0, 0, GRANT),
            By(1, 1, GRANT),
            By(2, 2, GRANT),
            By(3, 3, GRANT),
        ],
        Certify,
        &[By(0, 2, GRANT)],
    ),
    Case(
        &[
            By(0, 0, GRANT),
            By(1, 1, GRANT),
            By(2, 2, OF_ANOTHER),
            By(3, 3, GRANT),
        ],
        Certify,
        &[By(0, 1, GRANT), By(3, 3, GRANT)],
    ),
    Case(
        &[
            By(0, 0, ANSWER),
            By(1, 1, GRANT),
            By(2, 2, GRANT),
            By(3, 3, GRANT),
        ],
        Certify,
        &[By(1, 3, GRANT)],
    ),
    // The claim of another client, of another number, of another operation, and a mark.
    Case(
        &[
            By(0, 0, GRANT),
            By(1, 1, OF_ANOTHER),
            By(2, 2, OF_ANOTHER),
            By(3, 3, OF_ANOTHER),
        ],
        Back,
        &[By(1, 3, OF_ANOTHER)],
    ),
    Case(
        &[
            By(0, 0, OF_NUMBER_2),
            By(1, 1, OF_NUMBER_2),
            By(2, 2, OF_NUMBER_2),
            By(3, 3, GRANT),
        ],
        Back,
        &[By(0, 2, OF_NUMBER_2)],
    ),
    Case(
        &[
            By(0, 0, OF_THEIRS),
            By(1, 1, GRANT),
            By(2, 2, OF_THEIRS),
            By(3, 3, OF_THEIRS),
        ],
        Back,
        &[By(0, 0, OF_THEIRS), By(2, 3, OF_THEIRS)],
    ),
    Case(
        &[
            By(0, 0, MARK),
            By(1, 1, GRANT),
            By(2, 2, MARK),
            By(3, 3, MARK),
        ],
        Back,
        &[By(0, 0, MARK), By(2, 3, MARK)],
    ),
    Case(
        &[
            By(0, 0, GRANT),
            By(1, 1, GRANT),
            By(2, 2, OF_ANOTHER),
            By(3, 3, OF_ANOTHER),
        ],
        Clash,
        &[By(0, 1, GRANT), By(2, 2, OF_ANOTHER)],
    ),
    Case(
        &[
            By(0, 0, ANSWER),
            By(1, 1, OF_NUMBER_2),
            By(2, 2, OF_THEIRS),
            By(3, 3, GRANT),
        ],
        Clash,
        &[By(1, 1, OF_NUMBER_2), By(2, 2, OF_THEIRS), By(3, 3, GRANT)],
    ),
    // The latest by place, by round before place, and an ANSWER over a GRANT; ties go to the lowest site.
    Case(
        &[
            By(0, 0, GRANT),
            By(1, 1, GRANT),
            By(2, 2, AT_PLACE_2),
            By(3, 3, AT_PLACE_2),
        ],
        Catch { site: 2 },
        &[],
    ),
    Case(
        &[
            By(0, 0, GRANT),
            By(1, 1, IN_ROUND_1),
            By(2, 2, AT_PLACE_9),
            By(3, 3, ANSWER),
        ],
        Catch { site: 1 },
        &[],
    ),
    Case(
        &[
            By(0, 0, GRANT),
            By(1, 1, GRANT),
            By(2, 2, ANSWER),
            By(3, 3, ANSWER),
        ],
        Catch { site: 2 },
        &[],
    ),
    Case(
        &[
            By(0, 0, ANSWER),
            By(1, 1, OTHER_ANSWER),
            By(2, 2, ANSWER),
            By(3, 3, OTHER_ANSWER),
        ],
        Catch { site: 0 },
        &[],
    ),
    // Three sites in four replies, and two sites.
    Case(
        &[
            By(1, 1, GRANT),
            By(2, 2, GRANT),
            By(3, 3, AT_PLACE_2),
            By(3, 3, AT_PLACE_9),
        ],
        Catch { site: 3 },
        &[],
    ),
    Case(
        &[
            By(0, 0, GRANT),
            By(0, 0, ANSWER),
            By(1, 1, GRANT),
            By(1, 1, ANSWER),
        ],
        Wait,
        &[],
    ),
    Case(
        &[
            By(2, 2, GRANT),
            By(2, 2, AT_PLACE_2),
            By(3, 3, GRANT),
            By(3, 3, AT_PLACE_9),
        ],
        Wait,
        &[],
    ),
];

#[test]
fn of_four_sites(rt: HostRuntime) -> Result<(), Fail> {
    in_every_order(&rt, rt.alloc(), &WRITE, &FOUR_SITES)
}

// Eleven of the sixteen sites are a quorum.
static SIXTEEN_SITES: [Case; 14] = [
    Case(
        &[By(0, 4, GRANT), By(5, 15, ANSWER)],
        Done { answer: GIVEN },
        &[],
    ),
    Case(&[By(0, 10, ANSWER)], Done { answer: GIVEN }, &[]),
    Case(
        &[
            By(0, 9, ANSWER),
            By(10, 14, OTHER_ANSWER),
            By(15, 15, ANSWER),
        ],
        Done { answer: GIVEN },
        &[],
    ),
    Case(&[By(0, 15, GRANT)], Certify, &[By(0, 10, GRANT)]),
    Case(
        &[By(0, 4, GRANT), By(5, 9, OF_ANOTHER), By(10, 15, GRANT)],
        Certify,
        &[By(0, 4, GRANT), By(10, 15, GRANT)],
    ),
    Case(
        &[By(0, 2, GRANT), By(3, 13, OF_ANOTHER), By(14, 15, GRANT)],
        Back,
        &[By(3, 13, OF_ANOTHER)],
    ),
    Case(
        &[By(0, 7, GRANT), By(8, 15, OF_ANOTHER)],
        Clash,
        &[By(0, 7, GRANT), By(8, 10, OF_ANOTHER)],
    ),
    Case(
        &[By(0, 9, GRANT), By(10, 14, ANSWER), By(15, 15, OF_NUMBER_2)],
        Clash,
        &[By(0, 9, GRANT), By(15, 15, OF_NUMBER_2)],
    ),
    Case(
        &[By(0, 7, GRANT), By(8, 15, AT_PLACE_2)],
        Catch { site: 8 },
        &[],
    ),
    Case(
        &[By(0, 9, GRANT), By(15, 15, ANSWER)],
        Catch { site: 15 },
        &[],
    ),
    Case(
        &[By(0, 9, ANSWER), By(10, 15, OTHER_ANSWER)],
        Catch { site: 0 },
        &[],
    ),
    Case(&[By(0, 9, GRANT)], Wait, &[]),
    Case(&[By(0, 9, GRANT), By(0, 9, ANSWER)], Wait, &[]),
    Case(&[By(6, 15, ANSWER)], Wait, &[]),
];

#[test]
fn of_sixteen_sites(rt: HostRuntime) -> Result<(), Fail> {
    both_ways(&rt, rt.alloc(), &WRITE, &SIXTEEN_SITES)
}

// Of a reading: the answer, and also the round and place, have to be alike.
static FOUR_READINGS: [Case; 7] = [
    Case(
        &[
            By(0, 0, READ),
            By(1, 1, READ),
            By(2, 2, READ),
            By(3, 3, OTHER_READ),
        ],
        Done { answer: GIVEN },
        &[],
    ),
    Case(
        &[
            By(0, 0, READ_AT_2),
            By(1, 1, READ),
            By(2, 2, READ),
            By(3, 3, READ),
        ],
        Done { answer: GIVEN },
        &[],
    ),
    Case(
        &[
            By(0, 0, READ),
            By(1, 1, READ_EMPTY),
            By(2, 2, READ_EMPTY),
            By(3, 3, READ_EMPTY),
        ],
        Done { answer: 0 },
        &[],
    ),
    Case(
        &[
            By(0, 0, READ),
            By(1, 1, READ),
            By(2, 2, READ_AT_2),
            By(3, 3, READ_AT_2),
        ],
        Catch { site: 2 },
        &[],
    ),
    Case(
        &[
            By(0, 0, READ),
            By(1, 1, READ),
            By(2, 2, READ_AT_2),
            By(3, 3, READ_IN_ROUND_1),
        ],
        Catch { site: 3 },
        &[],
    ),
    Case(
        &[
            By(0, 0, READ),
            By(1, 1, OTHER_READ),
            By(2, 2, OTHER_READ),
            By(3, 3, READ),
        ],
        Catch { site: 0 },
        &[],
    ),
    Case(
        &[
            By(0, 0, READ),
            By(0, 0, READ_AT_2),
            By(1, 1, READ),
            By(1, 1, READ_AT_2),
        ],
        Wait,
        &[],
    ),
];

#[test]
fn of_four_readings(rt: HostRuntime) -> Result<(), Fail> {
    in_every_order(&rt, rt.alloc(), &READING, &FOUR_READINGS)
}

// The same of sixteen sites.
static SIXTEEN_READINGS: [Case; 4] = [
    Case(
        &[By(0, 4, OTHER_READ), By(5, 15, READ)],
        Done { answer: GIVEN },
        &[],
    ),
    Case(
        &[By(0, 9, READ), By(10, 15, READ_AT_2)],
        Catch { site: 10 },
        &[],
    ),
    Case(
        &[By(0, 9, READ), By(10, 15, OTHER_READ)],
        Catch { site: 0 },
        &[],
    ),
    Case(&[By(0, 9, READ)], Wait, &[]),
];

#[test]
fn of_sixteen_readings(rt: HostRuntime) -> Result<(), Fail> {
    both_ways(&rt, rt.alloc(), &READING, &SIXTEEN_READINGS)
}

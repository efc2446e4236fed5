//! Calls of an office under test: what it is told, and what has to come of it.
use crate::lines::{By, Word, question, request};
use crate::seat::Seat;
use message::Refusal;
use office::slots::Slots;
use office::{Judged, Verdict};
use record::Operation;
use std::alloc::Global;
use std::fmt;
use std::process::Abort;
use std::test::Fail;
use tables::output::{MARKED, only_begins};

/// A call, or a look at what is filed.
#[derive(Clone, Copy)]
pub enum Step {
    /// BEGIN
    Begin(Operation),
    /// QUERY: operation, nonce
    Query(Operation, u64),
    /// TAKE of each of these replies
    Take(By),
    /// TAKE of a site's reply in which the byte at a place is another
    Altered(u8, Word, usize, u8),
    /// TAKE of any bytes
    Bytes(&'static [u8]),
    Judge,
    /// the reading's judge
    JudgeReading,
    Close,
    GiveUp,
    /// what is filed of a site's replies to the write
    Filed(u8),
    /// what is filed of a site's replies to the question
    FiledReading(u8),
}

/// What has to come of a step.
#[derive(Clone, Copy)]
pub enum Due {
    /// nothing is written, or filed
    Nothing,
    /// the REQUEST of a client: number, operation
    Request(u8, u32, Operation),
    /// the QUESTION of a client: operation, nonce
    Question(u8, Operation, u64),
    /// the reply of a site
    Holds(u8, Word),
    /// a verdict, with the records that it writes
    Finds(Verdict, &'static [By]),
    /// the answer to the write
    Answers(u64),
    /// the write has ended
    Ends,
    /// a refusal: its number and its layer; the index is 0
    Refuses(u8, u8),
}

/// A step, and what has to come of it.
#[derive(Clone, Copy)]
pub struct Call(pub Step, pub Due);

/// Which call an assertion is about, counted from 0.
#[derive(Clone, Copy)]
pub enum Which {
    /// that of a table
    Call(usize),
    /// those of a case
    Case(usize),
    /// those of a case whose replies come from behind
    FromBehind(usize),
    /// those of a case in an order
    InOrder(usize, usize),
}

impl fmt::Display for Which {
    fn fmt<W: fmt::Write>(&self, f: &mut fmt::Formatter<W>) -> fmt::Result {
        match self {
            Which::Call(i) => write!(f, "call {i} of the table"),
            Which::Case(i) => write!(f, "case {i}"),
            Which::FromBehind(i) => write!(f, "case {i} from behind"),
            Which::InOrder(i, j) => write!(f, "case {i} in order {j}"),
        }
    }
}

/// What a step gave, but for the bytes that it wrote.
#[derive(Clone, Copy, PartialEq, Eq, Debug)]
pub enum Given {
    Count(usize),
    Judged(Verdict, usize),
    Answer(u64),
    Ended,
    Refused(Refusal),
}

/// What the board is filled with before a call.
pub const USED: u8 = 7;

fn counted(got: Result<usize, Refusal>) -> Given {
    match got {
        Ok(count) => Given::Count(count),
        Err(refusal) => Given::Refused(refusal),
    }
}

fn judged(got: Result<Judged, Refusal>) -> Given {
    match got {
        Ok(judged) => Given::Judged(judged.verdict, judged.count),
        Err(refusal) => Given::Refused(refusal),
    }
}

/// Takes each of some replies, up to the first that is refused.
fn take_each(seat: &mut Seat, replies: &By, output: &[u8], board: &mut [u8]) -> Given {
    for site in replies.0..=replies.1 {
        if let Err(refusal) = seat.take(&replies.2.from_site(site), output, board) {
            return Given::Refused(refusal);
        }
    }
    Given::Count(0)
}

/// Copies what is filed of a site to the output.
fn look(slots: &Slots, site: u8, output: &mut [u8]) -> Given {
    let Some(slot) = slots.at.get(usize::from(site)) else {
        return Given::Ended;
    };
    match &slot.filed {
        Some(filed) => {
            for (to, from) in output.iter_mut().zip(&filed.to_bytes()) {
                *to = *from;
            }
            Given::Count(80)
        }
        None => Given::Count(0),
    }
}

fn take_altered(
    seat: &mut Seat,
    mut message: [u8; 80],
    at: usize,
    byte: u8,
    output: &[u8],
    board: &mut [u8],
) -> Given {
    if let Some(old) = message.get_mut(at) {
        *old = byte;
    }
    counted(seat.take(&message, output, board))
}

/// Makes a step with these buffers.
pub fn make(seat: &mut Seat, step: &Step, output: &mut [u8], board: &mut [u8]) -> Given {
    match step {
        Step::Begin(operation) => counted(seat.begin(operation, output, board)),
        Step::Query(operation, nonce) => counted(seat.query(operation, *nonce, output, board)),
        Step::Take(replies) => take_each(seat, replies, output, board),
        Step::Altered(site, word, at, byte) => {
            take_altered(seat, word.from_site(*site), *at, *byte, output, board)
        }
        Step::Bytes(bytes) => counted(seat.take(bytes, output, board)),
        Step::Judge => judged(seat.office.judge(output, board)),
        Step::JudgeReading => judged(seat.office.judge_reading(output, board)),
        Step::Close => match seat.close() {
            Ok(answer) => Given::Answer(answer),
            Err(refusal) => Given::Refused(refusal),
        },
        Step::GiveUp => match seat.give_up() {
            Ok(()) => Given::Ended,
            Err(refusal) => Given::Refused(refusal),
        },
        Step::Filed(site) => look(&seat.office.desk().replies, *site, output),
        Step::FiledReading(site) => look(&seat.office.desk().readings, *site, output),
    }
}

/// The bytes of a row of replies.
fn replies_of(heap: Global, row: &[By]) -> Result<Vec<u8>, Fail> {
    let mut bytes = Vec::new(heap);
    for replies in row {
        for site in replies.0..=replies.1 {
            bytes.extend_from_slice(&replies.2.from_site(site))?;
        }
    }
    Ok(bytes)
}

/// The bytes that have to be written.
fn bytes_of(heap: Global, due: &Due) -> Result<Vec<u8>, Fail> {
    let mut bytes = Vec::new(heap);
    match due {
        Due::Request(client, number, operation) => {
            bytes.extend_from_slice(&request(*client, *number, operation))?
        }
        Due::Question(client, operation, nonce) => {
            bytes.extend_from_slice(&question(*client, operation, *nonce))?
        }
        Due::Holds(site, word) => bytes.extend_from_slice(&word.from_site(*site))?,
        Due::Finds(_, row) => return replies_of(heap, row),
        _ => {}
    }
    Ok(bytes)
}

/// What has to be given, where so many bytes are to be written.
fn given_of(due: &Due, count: usize) -> Given {
    match *due {
        Due::Finds(verdict, _) => Given::Judged(verdict, count),
        Due::Answers(answer) => Given::Answer(answer),
        Due::Ends => Given::Ended,
        Due::Refuses(number, layer) => Given::Refused(Refusal {
            number,
            index: 0,
            layer,
        }),
        _ => Given::Count(count),
    }
}

/// The board after a step: zero, but for a step that has none.
fn board_after(step: &Step) -> [u8; 16] {
    match step {
        Step::Close | Step::GiveUp | Step::Filed(_) | Step::FiledReading(_) => [USED; 16],
        _ => [0; 16],
    }
}

/// One call of a table, with an output that is marked throughout: what is not written stays. A refusal leaves the desk.
/// A failed assertion says which call it was.
pub fn makes_in(
    rt: &impl Abort,
    heap: Global,
    which: Which,
    seat: &mut Seat,
    call: &Call,
    output: &mut [u8],
) -> Result<(), Fail> {
    let before = *seat.office.desk();
    let expected = bytes_of(heap, &call.1)?;
    let mut board = [USED; 16];
    let given = make(seat, &call.0, output, &mut board);
    assert_eq!(rt; given, given_of(&call.1, expected.len()), "{which}");
    assert!(rt; board == board_after(&call.0), "the board of {which}");
    if let Given::Refused(_) = given {
        assert!(rt; before == *seat.office.desk(), "the desk of {which}");
    }
    assert!(rt; only_begins(output, &expected), "the output of {which}");
    Ok(())
}

/// One call of a table, with an output that is longer than it has to be.
pub fn makes(
    rt: &impl Abort,
    heap: Global,
    which: Which,
    seat: &mut Seat,
    call: &Call,
) -> Result<(), Fail> {
    makes_in(rt, heap, which, seat, call, &mut [MARKED; 900])
}

/// All calls of a table, one after the other. A failed assertion names the call, counted from 0.
pub fn run(rt: &impl Abort, heap: Global, seat: &mut Seat, calls: &[Call]) -> Result<(), Fail> {
    for (i, call) in calls.iter().enumerate() {
        makes(rt, heap, Which::Call(i), seat, call)?;
    }
    Ok(())
}

/// All calls of a table, at a fresh office of client 3.
pub fn run_fresh(rt: &impl Abort, heap: Global, f: u8, calls: &[Call]) -> Result<(), Fail> {
    run(rt, heap, &mut Seat::new(f, 3, 0), calls)
}

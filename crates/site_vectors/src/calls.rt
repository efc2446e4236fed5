//! Calls of a site under test: what it is told, and what it has to reply.
use crate::lines::Said;
use crate::unchanged::same_titles;
use message::Refusal;
use object::titles::Titles;
use site::site::Site;
use site::state::State;
use std::alloc::Global;
use std::process::Abort;
use std::test::Fail;
use tables::fields::Line;
use tables::output::{MARKED, only_begins};
use tables::trusting::Trusting;

/// What has to come of a call.
#[derive(Clone, Copy)]
pub enum Due {
    /// these records; none for a ROUND
    Replies(&'static [Said]),
    /// a refusal: its number, the index and the layer
    Refuses(u8, usize, u8),
}

/// A message, and what has to come of it.
#[derive(Clone, Copy)]
pub struct Call(pub &'static [Said], pub Due);

/// A titles site with a notary that trusts.
pub type Tested = Site<Trusting, Titles>;

/// A fresh site, number 0 of a pool of 3f+1.
pub fn fresh(f: u8) -> Tested {
    Site::new(f, 0, Trusting {}, Titles::new())
}

/// A site of f = 1 in a state.
pub fn at_state(state: State) -> Tested {
    Site::resume(1, 0, Trusting {}, Titles::new(), state)
}

/// The bytes of a message.
pub fn message_of(heap: Global, records: &[Said]) -> Result<Vec<u8>, Fail> {
    let lines: Vec<Line> = records.iter().map(|record| record.told()).collect(heap)?;
    joined(heap, &lines)
}

/// The bytes of a reply.
fn reply_of(heap: Global, records: &[Said]) -> Result<Vec<u8>, Fail> {
    let lines: Vec<Line> = records.iter().map(|record| record.replied()).collect(heap)?;
    joined(heap, &lines)
}

/// Records end to end.
fn joined(heap: Global, lines: &[Line]) -> Result<Vec<u8>, Fail> {
    Ok(Vec::from_slice(heap, lines.as_flattened())?)
}

/// The bytes that have to be written: none where the call is refused.
fn expected_of(heap: Global, due: Due) -> Result<Vec<u8>, Fail> {
    match due {
        Due::Replies(records) => reply_of(heap, records),
        Due::Refuses(_, _, _) => Ok(Vec::new(heap)),
    }
}

/// A call with a board that holds other bytes: it is zero after. A refusal leaves the state and the object.
fn leaves(
    rt: &impl Abort,
    site: &mut Tested,
    message: &[u8],
    output: &mut [u8],
    i: usize,
) -> Result<usize, Refusal> {
    let before = *site.state();
    let object = *site.object();
    let mut board = [7; 16];
    let got = site.call(message, output, &mut board);
    assert!(rt; board == [0; 16], "the board of call {i}");
    if got.is_err() {
        assert!(rt; before == *site.state(), "the state of call {i}");
        assert!(rt;
            same_titles(&object, site.object()),
            "the object of call {i}"
        );
    }
    got
}

/// The call returned what is due: the count of the bytes written, or the refusal.
fn returned(rt: &impl Abort, got: Result<usize, Refusal>, due: Due, written: usize, i: usize) {
    match (got, due) {
        (Ok(count), Due::Replies(_)) => assert_eq!(rt; count, written, "call {i}"),
        (Err(refusal), Due::Refuses(number, index, layer)) => assert_eq!(rt;
            refusal,
            Refusal {
                number,
                index,
                layer,
            },
            "call {i}"
        ),
        (Ok(_), Due::Refuses(_, _, _)) => panic!(rt; "call {i} is not refused"),
        (Err(_), Due::Replies(_)) => panic!(rt; "call {i} is refused"),
    }
}

/// Call i of a table. The output is longer than it has to be, and its other bytes stay.
fn makes(
    rt: &impl Abort,
    heap: Global,
    site: &mut Tested,
    call: &Call,
    i: usize,
) -> Result<(), Fail> {
    let message = message_of(heap, call.0)?;
    let expected = expected_of(heap, call.1)?;
    let mut output = [MARKED; 900];
    let got = leaves(rt, site, &message, &mut output, i);
    returned(rt, got, call.1, expected.len(), i);
    assert!(rt; only_begins(&output, &expected), "the output of call {i}");
    Ok(())
}

/// All calls of a table, one after the other. A failed assertion names the call, counted from 0.
pub fn run(rt: &impl Abort, heap: Global, site: &mut Tested, calls: &[Call]) -> Result<(), Fail> {
    for (i, call) in calls.iter().enumerate() {
        makes(rt, heap, site, call, i)?;
    }
    Ok(())
}

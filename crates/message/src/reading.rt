//! The message layer: the buffers of the call, and the message's length, form and fields.
ghost use Rattle.message.specs.Checks.{fitted, whole, first_outside, read_form};
ghost use Rattle.message.specs.Sizes.{Readable};
ghost use Rattle.std.specs.Prelude.{◌≡◌, IfOk};

use crate::faults::MessageFault;
use crate::form::Form;
use crate::limits::{BOARD, LEAST_ROOM, MOST_RECORDS};
use crate::records::{records, statement_at};
use crate::telling::form_of;
use record::limits::RECORD;

/// SHORT: the output has room for the longest reply, and the board has its sixteen bytes.
pub fn fitting(room: usize, board: usize) -> Result<(), MessageFault>
    ensures { result ≡ fitted room board }
{
    if room >= LEAST_ROOM && board == BOARD {
        Ok(())
    } else {
        Err(MessageFault::Short)
    }
}

/// Whether a message is 1 to 38 whole records.
pub fn is_whole(message: &[u8]) -> bool
    ensures { result ≡ whole message.now }
{
    let n = records(message);
    message.len() % RECORD == 0 && 1 <= n && n <= MOST_RECORDS
}

/// The first record with a field out of range.
pub fn first_outside(f: u8, message: &[u8]) -> Option<usize>
    ensures { result ≡ first_outside f message.now }
{
    (0..records(message)).find(|i| !statement_at(message, *i).in_range(f))
}

/// LENGTH, KIND and FIELD: the form of a message whose records are each in range.
#[tactic(auto, using(crate::proofs::Read::readable))]
pub fn read_form(f: u8, message: &[u8]) -> Result<Form, MessageFault>
    ensures value { result ≡ read_form f message.now }
    ensures readable { IfOk result (λ form. Readable f message.now form) }
{
    if !is_whole(message) {
        return Err(MessageFault::Length);
    }
    let form = form_of(f, message).ok_or(MessageFault::Kind)?;
    first_outside(f, message).map_or(Ok(form), |i| Err(MessageFault::Field(i)))
}

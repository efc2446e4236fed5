//! The checks of a message, in their order.
ghost use Rattle.message.specs.Checks.{certified, read_form, checks, buffers_fit};
ghost use Rattle.message.specs.Saying.{sent_or, Held};
ghost use Rattle.std.specs.Prelude.{◌≡◌, length, replicate, IfOk, if◌then◌else◌};

use crate::board::Counting;
use crate::by_form::Formed;
use crate::faults::CertificateFault;
use crate::limits::BOARD;
use crate::reading::{fitting, read_form};
use crate::said::Message;
use notary::Notary;

/// Checks 2 to 10. The board has sixteen bytes, which the checks may change.
fn certified<'a, N: Notary>(
    f: u8,
    notary: &N,
    message: &'a [u8],
    board: &mut [u8; BOARD],
) -> Result<Message<'a>, CertificateFault>
    ensures value { sent_or result ≡ certified f (N.Notary.means notary.now) message.now (read_form f message.now) }
    ensures parts { IfOk result (λ held. Held f message.now held) }
{
    let form = read_form(f, message)?;
    let formed = Formed { f, message, form };
    formed.agreed()?;
    formed.clash()?;
    formed.distinct(board)?;
    formed.vouched(notary)?;
    formed.reached()?;
    formed.ordered()?;
    Ok(formed.holding())
}

/// The ten checks. `room` is the length of the output. The board is left with sixteen zero bytes, and only where it or
/// the output is unfit as it was.
pub fn check<'a, N: Notary>(
    f: u8,
    notary: &N,
    message: &'a [u8],
    room: usize,
    board: &mut [u8],
) -> Result<Message<'a>, CertificateFault>
    ensures value { sent_or result ≡ checks f (N.Notary.means notary.now) message.now room (length board.old) }
    ensures parts { IfOk result (λ held. Held f message.now held) }
    ensures board { board.new ≡ (if buffers_fit room (length board.old) then replicate 16 0 else board.old) }
{
    fitting(room, board.len())?;
    let counting = Counting { board };
    let board = <&mut [u8; BOARD]>::try_from(&mut *counting.board).unwrap();
    certified(f, notary, message, board)
}

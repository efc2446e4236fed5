//! The buffers of a call: an output of at least 880 bytes, and a board of sixteen, which is zero once the call returns.
ghost use Rattle.std.specs.Prelude.{◌≡◌, ◌≤◌, length, OnOk};
ghost use Rattle.message.specs.Checks.{fitted as buffers_fitted};
ghost use Rattle.office.specs.Calls.{board_after};
ghost use Rattle.office.specs.Taking.{in_certificate};

use message::CertificateFault;
use message::board::Counting;
use message::reading::fitting;

/// SHORT, and then the board with zeros, whatever it had.
pub(crate) fn ready(room: usize, board: &mut [u8]) -> Result<(), CertificateFault>
    ensures value { result ≡ in_certificate (buffers_fitted room (length board.old)) }
    ensures board { board.new ≡ board_after room board.old }
    ensures room { OnOk result (880 ≤ room) }
{
    fitting(room, board.len())?;
    let _counting = Counting { board };
    Ok(())
}

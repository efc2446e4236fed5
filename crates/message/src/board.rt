//! The board: sixteen bytes of the caller's on which distinct signers are counted.
ghost use Rattle.std.specs.Prelude.{◌≡◌, ◌<◌, length, replicate, IfSome};
ghost use Rattle.message.specs.Checks.{first_again};
ghost use Rattle.message.specs.Records.{records};

use crate::group::Group;
use crate::limits::BOARD;
use crate::records::statement_at;

/// Holds the board while signers are counted, and clears it at its end, whatever the outcome.
pub struct Counting<'a> {
    pub board: &'a mut [u8],
}

impl Drop for Counting<'_> {
    fn drop(self)
        ensures { self.exit.0.now ≡ replicate (length self.entry.board.now) 0 }
    {
        clear(self.board);
        let Counting { board: _ } = self;
    }
}

/// Clears every byte of a board.
fn clear(board: &mut [u8])
    ensures { board.new ≡ replicate (length board.old) 0 }
{
    board.fill(0);
}

/// The first record of a group whose signer has signed an earlier one of it. A signer's board byte is 1 once it has signed.
/// The index is looped over: that is this project's form for the records of a group.
pub(crate) fn first_again(group: &Group, board: &mut [u8; BOARD]) -> Option<usize>
    ensures value { result ≡ first_again group.now.part.bytes.now }
    ensures within { IfSome result (λ k. k < records group.now.part.bytes.now) }
{
    let part = group.part;
    clear(board);
    for k in 0..part.count() {
        let signer = usize::from(statement_at(part.bytes, k).signer);
        if board[signer] != 0 {
            return Some(k);
        }
        board[signer] = 1;
    }
    None
}

//! The office's calls that tell an answer.
ghost use Rattle.assurance.specs.InBook.{WriteInBook, ReadingInBook, VerdictInBook};
ghost use Rattle.message.specs.Forms.{quorum as quorum_of};
ghost use Rattle.office.specs.Calls.{Leaves, close_call, ComesBack, judge_call, judge_reading_call};
ghost use Rattle.office.specs.Laws.{Exact, OneAnswer};
ghost use Rattle.office.specs.Sending.{WriteConfirmed, Worth, ReadingWorth};
ghost use Rattle.record.specs.declared.kind.Kind.TheVariants.{Answer as an_answer, ReadAnswer as a_read_answer};
ghost use Rattle.std.specs.Prelude.{◌≡◌, take, IfOk};

use message::Refusal;
use notary::Notary;
use object::Object;
use office::{Judged, Office, Ticket, Unspent};

// The clauses of the office's own calls are said again, `same` too: these calls promise all that those do.

/// CLOSE, at the office of a pool whose sites keep objects of the kind O.
///
/// The answer is that of a write which stands in the pool's book, and is due to it there, in every life of the pool in which sound
/// sites wrote what the office has filed from them.
pub fn close<N: Notary, O: Object>(office: &mut Office<N>, ticket: Ticket) -> Result<u64, Unspent>
    ensures desk { office.new.desk ≡ (close_call office.old.figures.f office.old.figures.client office.old.desk ticket).desk }
    ensures result { result ≡ (close_call office.old.figures.f office.old.figures.client office.old.desk ticket).result }
    ensures confirmed { IfOk result (λ a. WriteConfirmed office.old.figures.f office.old.figures.client (N.means office.old.notary) office.old.desk.write a) }
    ensures in_book { IfOk result (λ a. WriteInBook O.rules office.old.figures.f office.old.figures.client (N.means office.old.notary) office.old.desk a) }
    ensures back { ComesBack ticket office.old.desk office.new.desk result }
    ensures same { (office.new.notary ≡ office.old.notary) × (office.new.figures ≡ office.old.figures) }
{
    office.close(ticket)
}

/// JUDGE over the replies to the write. Where the verdict is DONE, the write stands in the pool's book with this answer.
pub fn judge<N: Notary, O: Object>(
    office: &Office<N>,
    output: &mut [u8],
    board: &mut [u8],
) -> Result<Judged, Refusal>
    ensures leaves { Leaves (judge_call office.now.figures.f office.now.figures.client office.now.desk output.old board.old) office.now.desk output.new board.new result }
    ensures exact { IfOk result (λ j. Exact an_answer (quorum_of office.now.figures.f) office.now.desk.replies.at j.verdict) }
    ensures only { IfOk result (λ j. OneAnswer an_answer (quorum_of office.now.figures.f) office.now.desk.replies.at j.verdict) }
    ensures worth { IfOk result (λ j. Worth office.now.figures.f office.now.figures.client (N.means office.now.notary) office.now.desk j.verdict (take j.count output.new)) }
    ensures in_book { IfOk result (λ j. VerdictInBook (WriteInBook O.rules office.now.figures.f office.now.figures.client (N.means office.now.notary) office.now.desk) j.verdict) }
{
    office.judge(output, board)
}

/// JUDGE over the replies to the question. Where the verdict is DONE, the answer is what a look at the pool's book gives, and no
/// write stands past it that was confirmed before a sound site answered the question.
pub fn judge_reading<N: Notary, O: Object>(
    office: &Office<N>,
    output: &[u8],
    board: &mut [u8],
) -> Result<Judged, Refusal>
    ensures leaves { Leaves (judge_reading_call office.now.figures.f office.now.desk output.now board.old) office.now.desk output.now board.new result }
    ensures exact { IfOk result (λ j. Exact a_read_answer (quorum_of office.now.figures.f) office.now.desk.readings.at j.verdict) }
    ensures only { IfOk result (λ j. OneAnswer a_read_answer (quorum_of office.now.figures.f) office.now.desk.readings.at j.verdict) }
    ensures worth { IfOk result (λ j. ReadingWorth office.now.figures.f office.now.figures.client (N.means office.now.notary) office.now.desk j.verdict) }
    ensures in_book { IfOk result (λ j. VerdictInBook (ReadingInBook O.rules office.now.figures.f office.now.figures.client (N.means office.now.notary) office.now.desk) j.verdict) }
{
    office.judge_reading(output, board)
}

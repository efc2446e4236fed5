//! JUDGE, over the replies to the write, and over those to the question.
ghost use Rattle.message.specs.Forms.{quorum as quorum_of};
ghost use Rattle.office.specs.Calls.{Leaves, judge_call, judge_reading_call, judge_write};
ghost use Rattle.office.specs.Laws.{Warranted, ReadingWarranted, Exact, OneAnswer};
ghost use Rattle.office.specs.Sending.{Worth, ReadingWorth};
ghost use Rattle.record.specs.declared.kind.Kind.TheVariants.{Answer as an_answer, ReadAnswer as a_read_answer};
ghost use Rattle.std.specs.Prelude.{take, IfOk};

use crate::buffers::ready;
use crate::judging::Hearing;
use crate::office::Office;
use crate::verdict::Judged;
use crate::writing::write_group;
use message::{Refusal, quorum};
use notary::Notary;

impl<N: Notary> Office<N> {
    /// The verdict over the replies to the write, and why it is given.
    fn verdict(&self, output: &mut [u8], board: &mut [u8]) -> Result<Judged, Refusal>
        ensures leaves { Leaves (judge_call self.now.figures.f self.now.figures.client self.now.desk output.old board.old) self.now.desk output.new board.new result }
        ensures right { IfOk result (λ j. Warranted (quorum_of self.now.figures.f) self.now.figures.client self.now.desk.write self.now.desk.replies.at j.verdict (judge_write self.now.figures.f self.now.figures.client self.now.desk).sites) }
    {
        ready(output.len(), board)?;
        let hearing = Hearing {
            q: quorum(self.figures.f),
            slots: self.desk.replies.view(),
        };
        let found = hearing.judge(self.figures.client, &self.desk.write);
        let count = match &found.group {
            Some(group) => write_group(hearing.slots, group, output),
            None => 0,
        };
        Ok(Judged {
            verdict: found.verdict,
            count,
        })
    }

    /// JUDGE: the verdict over the replies to the write. CERTIFY, BACK and CLASH write their records.
    ///
    /// DONE is given exactly where a quorum of ANSWERs is alike, and WAIT only where no quorum is heard. No two quorums
    /// give two answers; the answer of DONE is that of a quorum; what CERTIFY and BACK write passes the checks of every site as a WRITE-2;
    /// what CLASH writes passes them as a RESOLVE with any good REQUEST behind it; and the site of CATCH has the latest reply.
    pub fn judge(&self, output: &mut [u8], board: &mut [u8]) -> Result<Judged, Refusal>
        ensures leaves { Leaves (judge_call self.now.figures.f self.now.figures.client self.now.desk output.old board.old) self.now.desk output.new board.new result }
        ensures exact { IfOk result (λ j. Exact an_answer (quorum_of self.now.figures.f) self.now.desk.replies.at j.verdict) }
        ensures only { IfOk result (λ j. OneAnswer an_answer (quorum_of self.now.figures.f) self.now.desk.replies.at j.verdict) }
        ensures worth { IfOk result (λ j. Worth self.now.figures.f self.now.figures.client (N.means self.now.notary) self.now.desk j.verdict (take j.count output.new)) }
    {
        self.verdict(output, board)
    }

    /// The verdict over the replies to the question, and why it is given.
    fn reading_verdict(&self, output: &[u8], board: &mut [u8]) -> Result<Judged, Refusal>
        ensures leaves { Leaves (judge_reading_call self.now.figures.f self.now.desk output.now board.old) self.now.desk output.now board.new result }
        ensures right { IfOk result (λ j. ReadingWarranted (quorum_of self.now.figures.f) self.now.desk.readings.at j.verdict) }
    {
        ready(output.len(), board)?;
        let hearing = Hearing {
            q: quorum(self.figures.f),
            slots: self.desk.readings.view(),
        };
        Ok(Judged {
            verdict: hearing.judge_reading(),
            count: 0,
        })
    }

    /// The verdict over the replies to the question: DONE, CATCH or WAIT. It writes nothing.
    ///
    /// DONE is given exactly where a quorum of READ-ANSWERs is alike, and WAIT only where no quorum is heard. No
    /// two quorums give two answers, the answer of DONE is that of a quorum, and the site of CATCH has the latest reply.
    pub fn judge_reading(&self, output: &[u8], board: &mut [u8]) -> Result<Judged, Refusal>
        ensures leaves { Leaves (judge_reading_call self.now.figures.f self.now.desk output.now board.old) self.now.desk output.now board.new result }
        ensures exact { IfOk result (λ j. Exact a_read_answer (quorum_of self.now.figures.f) self.now.desk.readings.at j.verdict) }
        ensures only { IfOk result (λ j. OneAnswer a_read_answer (quorum_of self.now.figures.f) self.now.desk.readings.at j.verdict) }
        ensures worth { IfOk result (λ j. ReadingWorth self.now.figures.f self.now.figures.client (N.means self.now.notary) self.now.desk j.verdict) }
    {
        self.reading_verdict(output, board)
    }
}

//! Taking a reply: its checks, and where it is filed.
ghost use Rattle.office.specs.Taking.{is_reply, read_reply, lent, standing as standing_of, filing, desk_or, done_or, beside_write, beside_question, filed_on};
ghost use Rattle.std.specs.Prelude.{◌≡◌};

use crate::desk::{Desk, Standing};
use message::reading::is_whole;
use message::{MessageFault, SiteFault};
use record::limits::RECORD;
use record::{Kind, Record, Statement};

/// Whether a statement is a reply.
fn is_reply(says: &Statement) -> bool
    ensures { result ≡ is_reply says.now }
{
    says.is(Kind::Grant) || says.is(Kind::Answer) || says.is(Kind::ReadAnswer)
}

/// LENGTH, KIND and FIELD: the one record of a message that is a reply.
pub(crate) fn read_reply(f: u8, message: &[u8]) -> Result<&[u8; RECORD], MessageFault>
    ensures { lent result ≡ read_reply f message.now }
{
    if !is_whole(message) {
        return Err(MessageFault::Length);
    }
    let Ok(bytes) = <&[u8; RECORD]>::try_from(message) else {
        return Err(MessageFault::Kind);
    };
    let says = Statement::read(bytes);
    if !is_reply(&says) {
        return Err(MessageFault::Kind);
    }
    if !says.in_range(f) {
        return Err(MessageFault::Field(0));
    }
    Ok(bytes)
}

impl Desk {
    /// How a GRANT or an ANSWER stands to the open write.
    fn beside_write(&self, client: u8, says: &Statement) -> Standing
        ensures { result ≡ beside_write client self.now.write says.now }
    {
        match &self.write {
            Some(write) => if says.is(Kind::Grant) || write.is_claimed(client, &says.claim()) {
                Standing::Like
            } else {
                Standing::Unlike
            },
            None => Standing::Unasked,
        }
    }

    /// How a READ-ANSWER stands to the open question.
    fn beside_question(&self, client: u8, says: &Statement) -> Standing
        ensures { result ≡ beside_question client self.now.question says.now }
    {
        match &self.question {
            Some(question) => if question.is_answered(client, says) {
                Standing::Like
            } else {
                Standing::Unlike
            },
            None => Standing::Unasked,
        }
    }

    /// How a reply stands to what is open.
    pub(crate) fn standing(&self, client: u8, says: &Statement) -> Standing
        ensures { result ≡ standing_of client self.now says.now }
    {
        if says.is(Kind::ReadAnswer) {
            self.beside_question(client, says)
        } else {
            self.beside_write(client, says)
        }
    }

    /// Files a reply in its signer's slot, in place.
    fn put(&mut self, reply: &Record)
        ensures desk { self.new ≡ filed_on self.old reply.now }
        ensures stays { self.new.write ≡ self.old.write }
    {
        if reply.statement.is(Kind::ReadAnswer) {
            self.readings.take_in(reply);
        } else {
            self.replies.take_in(reply);
        }
    }

    /// Files a vouched reply, where something is open that it could reply to.
    pub(crate) fn accept(&mut self, client: u8, reply: &Record) -> Result<(), SiteFault>
        ensures desk { self.new ≡ desk_or self.old (filing client self.old reply.now) }
        ensures result { result ≡ done_or (filing client self.old reply.now) }
        ensures stays { self.new.write ≡ self.old.write }
    {
        match self.standing(client, &reply.statement) {
            Standing::Unasked => Err(SiteFault::Nothing),
            Standing::Unlike | Standing::Like => {
                self.put(reply);
                Ok(())
            }
        }
    }
}

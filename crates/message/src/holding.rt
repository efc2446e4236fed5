//! The parts of a message by its form.
ghost use Rattle.message.specs.Saying.{sent, said_of, Held};
ghost use Rattle.std.specs.Prelude.{◌≡◌};

use crate::by_form::Formed;
use crate::form::Form;
use crate::part::Part;
use crate::said::Message;
use crate::telling::quorum;

impl<'a> Formed<'a> {
    /// The parts of the input that the message consists of.
    pub(crate) fn holding(&self) -> Message<'a>
        ensures says { sent result ≡ said_of self.now.f self.now.message.now self.now.form }
        ensures parts { Held self.now.f self.now.message.now result }
    {
        let message = self.message;
        let q = quorum(self.f);
        let all = self.whole().part;
        match self.form {
            Form::Write1 => Message::Write1 { request: all },
            Form::Read => Message::Read { question: all },
            Form::Write2 => Message::Write2 { certificate: all },
            Form::Resolve => Message::Resolve {
                grants: Part::of(message, 0, q),
                request: Part::of(message, q, 1),
            },
            Form::Round { grants, requests } => Message::Round {
                starts: Part::of(message, 0, q),
                grants: Part::of(message, q, grants),
                requests: Part::of(message, q + grants, requests),
            },
            Form::ShowGrant => Message::ShowGrant { shown: all },
            Form::ShowCert => Message::ShowCert,
        }
    }
}

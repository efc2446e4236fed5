//! What a refused call returns.
ghost use Rattle.std.specs.Prelude.{◌≡◌};
ghost use Rattle.message.specs.Refusals.{name_of, refusal_at, refusal_of_message, refusal_of_certificate, refusal_of};

use crate::faults::{CertificateFault, MessageFault, SiteFault};

/// A refusal: its number, the index of the record that it is about, and the layer that refused: 1 message,
/// 2 certificate, 3 site or office.
#[derive(Clone, Copy, PartialEq, Eq, Debug)]
pub struct Refusal {
    pub number: u8,
    pub index: usize,
    pub layer: u8,
}

impl Refusal {
    /// A word that does not fit what a site or an office is asked: FIELD of layer 3.
    pub const UNFIT: Refusal = Refusal {
        number: 4,
        index: 0,
        layer: 3,
    };

    /// The name of the refusal, by its number; no other number has one. By number, since whoever has a refusal has no fault any more.
    pub fn name(&self) -> &'static str
        ensures { result.now ≡ name_of self.now.number }
    {
        match self.number {
            1 => "SHORT",
            2 => "LENGTH",
            3 => "KIND",
            4 => "FIELD",
            5 => "MIXED",
            6 => "SAME",
            7 => "TWICE",
            8 => "UNVOUCHED",
            9 => "LOW",
            10 => "ORDER",
            11 => "WAIT",
            12 => "OLD",
            13 => "SPENT",
            14 => "BUSY",
            15 => "AHEAD",
            16 => "STALE",
            17 => "TAKEN",
            18 => "GAP",
            19 => "USED-UP",
            20 => "TOO-FAR",
            21 => "NONE",
            _ => "",
        }
    }
}

/// Layer 1: the message. Here, and in the two conversions below, each fault has its numbers, which the rules of this project give it.
impl From<MessageFault> for Refusal {
    ghost from_gives = { λ fault refusal. refusal ≡ refusal_of_message fault };

    fn from(fault: MessageFault) -> Refusal {
        match fault {
            MessageFault::Short => refused(1, 0, 1),
            MessageFault::Length => refused(2, 0, 1),
            MessageFault::Kind => refused(3, 0, 1),
            MessageFault::Field(i) => refused(4, i, 1),
        }
    }
}

/// Layer 2: the certificates.
impl From<CertificateFault> for Refusal {
    ghost from_gives = { λ fault refusal. refusal ≡ refusal_of_certificate fault };

    fn from(fault: CertificateFault) -> Refusal {
        match fault {
            CertificateFault::Message(fault) => fault.into(),
            CertificateFault::Mixed(i) => refused(5, i, 2),
            CertificateFault::Same => refused(6, 0, 2),
            CertificateFault::Twice(i) => refused(7, i, 2),
            CertificateFault::Unvouched(i) => refused(8, i, 2),
            CertificateFault::Low(i) => refused(9, i, 2),
            CertificateFault::Order(i) => refused(10, i, 2),
        }
    }
}

/// Layer 3: the site or office.
impl From<SiteFault> for Refusal {
    ghost from_gives = { λ fault refusal. refusal ≡ refusal_of fault };

    fn from(fault: SiteFault) -> Refusal {
        match fault {
            SiteFault::Certificate(fault) => fault.into(),
            SiteFault::Wait => refused(11, 0, 3),
            SiteFault::Old(r) => refused(12, r, 3),
            SiteFault::Spent(r) => refused(13, r, 3),
            SiteFault::Busy(r) => refused(14, r, 3),
            SiteFault::Ahead => refused(15, 0, 3),
            SiteFault::Stale => refused(16, 0, 3),
            SiteFault::Taken => refused(17, 0, 3),
            SiteFault::Gap => refused(18, 0, 3),
            SiteFault::UsedUp(r) => refused(19, r, 3),
            SiteFault::TooFar => refused(20, 0, 3),
            SiteFault::Nothing => refused(21, 0, 3),
        }
    }
}

fn refused(number: u8, index: usize, layer: u8) -> Refusal
    ensures { result ≡ refusal_at number index layer }
{
    Refusal {
        number,
        index,
        layer,
    }
}

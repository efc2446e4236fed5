//! Why a call is refused, in three layers: the message, its certificates, the site. `?` carries a lower layer's fault up.
ghost use Rattle.message.specs.declared.faults.CertificateFault.TheVariants.{Message as in_message};
ghost use Rattle.message.specs.declared.faults.SiteFault.TheVariants.{Certificate as in_certificate};
ghost use Rattle.std.specs.Prelude.{◌≡◌};

/// The message itself is unfit. An index is that of the first offending record.
#[derive(Clone, Copy, PartialEq, Eq, Debug)]
pub enum MessageFault {
    /// the output or the board is unfit
    Short,
    /// not 1 to 38 whole records
    Length,
    /// no message form
    Kind,
    /// a field out of range
    Field(usize),
}

/// The message has a form, and its records do not support each other. An index is that of the first offending record.
#[derive(Clone, Copy, PartialEq, Eq, Debug)]
pub enum CertificateFault {
    Message(MessageFault),
    /// a record unlike the first of its group
    Mixed(usize),
    /// a RESOLVE whose GRANTs make one claim throughout
    Same,
    /// a signer again in its group
    Twice(usize),
    /// a record that the notary does not accept
    Unvouched(usize),
    /// a START above the target
    Low(usize),
    /// a REQUEST whose client is not above the one before
    Order(usize),
}

/// The message is good, and a site or an office refuses what it asks. An index is that of the REQUEST in question.
#[derive(Clone, Copy, PartialEq, Eq, Debug)]
pub enum SiteFault {
    Certificate(CertificateFault),
    Wait,
    Old(usize),
    Spent(usize),
    Busy(usize),
    Ahead,
    Stale,
    Taken,
    Gap,
    UsedUp(usize),
    TooFar,
    Nothing,
}

impl From<MessageFault> for CertificateFault {
    ghost from_gives = { λ e r. r ≡ in_message e };

    fn from(fault: MessageFault) -> CertificateFault {
        CertificateFault::Message(fault)
    }
}

impl From<CertificateFault> for SiteFault {
    ghost from_gives = { λ e r. r ≡ in_certificate e };

    fn from(fault: CertificateFault) -> SiteFault {
        SiteFault::Certificate(fault)
    }
}

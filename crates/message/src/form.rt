//! The forms of a message.

/// What a message is, told by the kinds of its records.
#[derive(Clone, Copy)]
pub enum Form {
    /// one REQUEST
    Write1,
    /// one QUESTION
    Read,
    /// a quorum of GRANTs
    Write2,
    /// a quorum of GRANTs and one REQUEST
    Resolve,
    /// a quorum of STARTs, then GRANTs, none or a quorum, then REQUESTs
    Round { grants: usize, requests: usize },
    /// asks for a GRANT
    ShowGrant,
    /// asks for the current certificate
    ShowCert,
}

//! An office to which all this applies. There is nothing to run: the contract is the theorem.
ghost use Rattle.assurance.specs.OfficeExample.{HasAnOffice};

/// There is a life of real bytes that meets the premises, with an office that has filed replies of two sound sites and of one that is not,
/// and is told the answer to its write and to its question.
pub fn has_an_office()
    ensures { HasAnOffice }
{}

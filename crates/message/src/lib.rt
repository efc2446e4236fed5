//! Messages: everything that reaches a site as bytes.
//!
//! A message is records end to end. `check` makes the ten checks of a message, in their order, and returns it as parts
//! of the caller's bytes, or the first fault with the lowest index of a record that offends. `docs/MESSAGES.md` has
//! the forms, the checks and the table of refusals.
//!
//! What it promises, for all bytes, every f, every notary, every length of the output and every board:
//! - `check` returns what `checks` in `specs/Checks.antt` says. A message that it returns holds the parts of the input that its
//!   form has, and says what its form says.
//! - The board is left with sixteen zero bytes, also after a refusal; only where a buffer is unfit is it left as it was.
//! - A message is accepted exactly where it has a form and every fact of `Passed` in `specs/Laws.antt` holds of it, and
//!   otherwise the fault that is named is there and none that comes before it is (`laws`).
//! - A fault's number, index and layer are those of one definition, `refusal_of`.
//!
//! What it leaves to others: whether a seal is good is the notary's question. What a site does with a message, and
//! whether it is ready for it, is the site's; its faults are declared here, so that all have one table.
#![tactic(auto)]

pub mod agreement;
pub mod board;
mod by_form;
mod certificate;
pub mod checking;
pub mod faults;
pub mod form;
mod group;
mod holding;
pub mod laws;
pub mod limits;
pub mod part;
pub mod reading;
pub mod records;
pub mod refusal;
pub mod request;
mod rounds;
pub mod said;
pub mod telling;
mod vouched;

pub use checking::check;
pub use faults::{CertificateFault, MessageFault, SiteFault};
pub use form::Form;
pub use part::Part;
pub use refusal::Refusal;
pub use request::Request;
pub use said::Message;
pub use telling::quorum;

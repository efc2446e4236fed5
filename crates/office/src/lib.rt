//! An office: the member's end of the protocol, over any notary.
//!
//! An office writes through the pool and reads from it. BEGIN opens a write and gives a ticket for it, TAKE takes in the replies of the
//! sites, JUDGE says what they come to and which records to send next, CLOSE gives the answer for the ticket, and GIVE UP ends the
//! write without one. QUERY asks a question, whose replies have slots and a judge of their own. `docs/OFFICE.md` tells it call by call.
//!
//! What it promises: each call leaves desk, output, board and result exactly as `specs/Calls.antt` says, for any bytes and any buffers;
//! a refusal changes neither the office nor the output, and the board is zero after every call but one whose buffers do not fit. A ticket
//! that is let go unspent is refused when the program is proved.
//!
//! What it leaves to others: it sends nothing, seals nothing and makes no nonces. It allocates nothing.
#![tactic(auto)]

pub mod asking;
mod buffers;
pub mod desk;
pub mod figures;
mod filing;
pub mod fitting;
mod judging;
mod lateness;
mod likeness;
mod likening;
pub mod office;
pub mod slots;
mod taking;
pub mod ticket;
pub mod verdict;
mod writes;
mod writing;

pub use fitting::check_figures;
pub use office::Office;
pub use ticket::{Begun, Ticket, Unspent};
pub use verdict::{Judged, Verdict};

//! Offices in a rehearsal: their calls, and whole exchanges between an office and the sites that it reaches.
//!
//! An office and the ticket of its open write are kept together in a `Seat`, which is proved to lose no ticket: the
//! ticket that it holds is that of the open write, and one that is let go gives its write up first. The wording of
//! what an exchange prints is tested, not proved.
#![tactic(auto)]

mod buffers;
pub mod calls;
pub mod conduct;
pub mod network;
pub mod people;
pub mod reading;
pub mod rehearsal;
pub mod replies;
pub mod rounds;
pub mod seat;
pub mod seats;
mod turn;
pub mod writing;

//! A pool of sites in one process, with the transcript of what was handed to them.
//!
//! `Pool::new` makes 3f + 1 fresh sites, and `Pool::deliver` hands bytes to one of them, as the network would. What it promises:
//! - the site steps exactly as its call says, the other sites stay, and the transcript has one entry more;
//! - whatever life the pool is that of, with whichever of its sites sound, after the call it is that of the life with this
//!   call, and under the premises it keeps one book;
//! - where there is no such site, or no memory for the transcript, nothing changes.
//!
//! What it leaves to others: which messages are sent and lost, and who lies. A site that is not sound is one about which
//! nothing is said, so a caller may hand out any records that such a site could have signed.
#![tactic(auto)]

mod entry;
mod noting;
mod pool;
mod starting;

pub use entry::{Entry, Undelivered};
pub use pool::Pool;

//! A pool of either kind of object, over the keyed notary.
ghost use Rattle.std.specs.Prelude.{◌≤◌};

use message::Refusal;
use notary::KeyedNotary;
use object::slots::Slots;
use object::titles::Titles;
use pool::{Entry, Pool, Undelivered};
use site::state::State;
use std::alloc::{AllocError, Global};
use text::words::Kept;

/// A pool of titles or of slots.
#[derive(Drop)]
pub enum AnyPool {
    Titles(Pool<KeyedNotary, Titles>),
    Slots(Pool<KeyedNotary, Slots>),
}

// Each method has a match of its own, since a pool's type names its object: one value for both would be a `dyn` that is
// handed out, or a trait of these same methods.
impl AnyPool {
    /// A fresh pool.
    pub fn new(
        heap: Global,
        f: u8,
        kept: Kept,
        notary: &KeyedNotary,
    ) -> Result<AnyPool, AllocError> {
        match kept {
            Kept::Titles => Ok(AnyPool::Titles(Pool::new(heap, f, *notary, Titles::new())?)),
            Kept::Slots => Ok(AnyPool::Slots(Pool::new(heap, f, *notary, Slots::new())?)),
        }
    }

    /// Hands a message to a site.
    pub fn deliver(
        &mut self,
        heap: Global,
        site: u8,
        message: &[u8],
        output: &mut [u8],
        board: &mut [u8],
    ) -> Result<Result<usize, Refusal>, Undelivered> {
        match self {
            AnyPool::Titles(pool) => pool.deliver(heap, site, message, output, board),
            AnyPool::Slots(pool) => pool.deliver(heap, site, message, output, board),
        }
    }

    /// The state of a site, if the pool has it.
    pub fn state(&self, site: u8) -> Option<State> {
        let at = usize::from(site);
        match self {
            AnyPool::Titles(pool) => pool.sites().get(at).map(|site| *site.state()),
            AnyPool::Slots(pool) => pool.sites().get(at).map(|site| *site.state()),
        }
    }

    /// How many sites the pool has.
    pub fn count(&self) -> usize {
        match self {
            AnyPool::Titles(pool) => pool.sites().len(),
            AnyPool::Slots(pool) => pool.sites().len(),
        }
    }

    /// How many faulty sites the pool stands.
    pub fn faulty(&self) -> u8
        ensures { result ≤ 5 }
    {
        match self.count() {
            0..=6 => 1,
            7..=9 => 2,
            10..=12 => 3,
            13..=15 => 4,
            _ => 5,
        }
    }

    /// What was handed to the sites, the oldest call first.
    pub fn transcript(&self) -> &[Entry] {
        match self {
            AnyPool::Titles(pool) => pool.transcript(),
            AnyPool::Slots(pool) => pool.transcript(),
        }
    }

    /// Which kind of object the pool keeps.
    pub fn kept(&self) -> Kept {
        match self {
            AnyPool::Titles(_) => Kept::Titles,
            AnyPool::Slots(_) => Kept::Slots,
        }
    }
}

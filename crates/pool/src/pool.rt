//! The sites of a pool, and handing a message to one of them.
ghost use Rattle.std.specs.Prelude.{◌≡◌, ◌≤◌, [], map, length, vec_len, vec_capacity, OnOk};
ghost use Rattle.pool.specs.Delivering.{Delivers, moment};
ghost use Rattle.pool.specs.Lives.{InLives};
ghost use Rattle.pool.specs.Views.{heard, views};
ghost use Rattle.site.specs.Life.{put};

use crate::entry::{Entry, Undelivered};
use message::Refusal;
use notary::Notary;
use object::Object;
use site::site::Site;
use std::alloc::Global;

/// A pool of 3f + 1 sites, over any notary and any object.
#[derive(Drop)]
pub struct Pool<N: Notary, O: Object> {
    pub(crate) sites: Vec<Site<N, O>>,
    pub(crate) transcript: Vec<Entry>,
}

/// Keeps the bytes that a call wrote. There is room for as many as its output has.
fn fill(written: &mut Vec<u8>, res: &Result<usize, Refusal>, output: &[u8])
    requires empty { written.old.items ≡ [] }
    requires none { vec_len written.old ≡ 0 }
    requires room { length output.now ≤ vec_capacity written.old }
    ensures { written.new.items ≡ put res.now output.now }
{
    if let Ok(n) = res {
        let n = (*n).min(output.len());
        let _ = written.extend_from_slice(&output[0..n]);
        written.shrink_to_fit();
    }
}

impl<N: Notary, O: Object> Pool<N, O> {
    /// The sites, by their numbers.
    pub fn sites(&self) -> &[Site<N, O>]
        ensures { result.now ≡ self.now.sites.items }
    {
        self.sites.as_slice()
    }

    /// What was handed to the sites, the oldest call first.
    pub fn transcript(&self) -> &[Entry]
        ensures { result.now ≡ self.now.transcript.items }
    {
        self.transcript.as_slice()
    }

    /// Hands a message to a site, with an output for the reply and a board, and gives what the site's call returned.
    // The result in the result is plain: the outer one says whether the message came to a site, the inner one is what the site said.
    pub fn deliver(
        &mut self,
        heap: Global,
        site: u8,
        message: &[u8],
        output: &mut [u8],
        board: &mut [u8],
    ) -> Result<Result<usize, Refusal>, Undelivered>
        ensures delivers { Delivers (moment O.rules N.means O.holds self.old output.old board.old) site message.now (moment O.rules N.means O.holds self.new output.new board.new) result }
        ensures lives { OnOk result (InLives O.rules (views O.rules N.means O.holds self.old.sites.items) (map heard self.old.transcript.items) record { site = site; message = message.now; output = output.old; board = board.old } (views O.rules N.means O.holds self.new.sites.items) (map heard self.new.transcript.items)) }
    {
        let at = usize::from(site);
        if at >= self.sites.len() {
            return Err(Undelivered::NoSite);
        }
        self.transcript.reserve(1)?;
        let message_kept = Vec::from_slice(heap, message)?;
        let mut written = Vec::with_capacity(heap, output.len())?;
        let result = self.sites[at].call(message, output, board);
        fill(&mut written, &result, output);
        self.transcript
            .push_reserved(Entry::of(site, message_kept, result, written));
        Ok(result)
    }
}

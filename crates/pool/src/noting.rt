//! Making an entry of the transcript.
ghost use Rattle.pool.specs.Views.{heard};
ghost use Rattle.std.specs.Prelude.{◌≡◌};

use crate::entry::Entry;
use message::Refusal;

impl Entry {
    /// The entry of a call: made of four values, and converted from none of them.
    pub(crate) fn of(
        site: u8,
        message: Vec<u8>,
        res: Result<usize, Refusal>,
        written: Vec<u8>,
    ) -> Entry
        ensures { heard result ≡ record { site = site; message = message.items; result = res; written = written.items } }
    {
        Entry {
            site,
            message,
            result: res,
            written,
        }
    }
}

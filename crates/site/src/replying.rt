//! Writing a reply into the caller's output.
ghost use Rattle.std.specs.Prelude.{◌≡◌, ◌*◌, ◌≤◌, ◌++◌, length, take, drop};
ghost use Rattle.message.specs.Forms.{quorum as quorum_of};
ghost use Rattle.site.specs.Call.{certificate_bytes, reply_bytes};
ghost use Rattle.site.specs.Fit.{fit_figures};

use crate::figures::Figures;
use crate::reply::Reply;
use crate::state::{CERTIFICATE, State};
use message::quorum;

/// Fills the output's first bytes, and says how many. The rest stays.
fn put(output: &mut [u8], bytes: &[u8]) -> usize
    requires { length bytes.now ≤ length output.old }
    ensures count { result ≡ length bytes.now }
    ensures after { output.new ≡ bytes.now ++ drop (length bytes.now) output.old }
{
    let n = bytes.len();
    output[0..n].copy_from_slice(bytes);
    n
}

/// Writes a reply, and says how many bytes it has.
pub fn write_reply(figures: &Figures, state: &State, reply: &Reply, output: &mut [u8]) -> usize
    requires { 880 ≤ length output.old }
    ensures count { result ≡ length (reply_bytes figures.now.f state.now reply.now) }
    ensures after { output.new ≡ reply_bytes figures.now.f state.now reply.now ++ drop (length (reply_bytes figures.now.f state.now reply.now)) output.old }
{
    match reply {
        Reply::Silent => 0,
        Reply::Says(statement) => put(output, &statement.unsealed()),
        Reply::Shows => match &state.ledger.current {
            Some(current) => put(output, certificate(figures, &current.certificate)),
            None => 0,
        },
    }
}

/// The bytes of a certificate that is kept.
fn certificate<'a>(figures: &Figures, kept: &'a [u8; CERTIFICATE]) -> &'a [u8]
    ensures bytes { result.now ≡ take (80 * quorum_of figures.now.f) kept.now }
    ensures long { length result.now ≤ 880 }
{
    &kept[0..80 * quorum(figures.f)]
}

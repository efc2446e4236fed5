//! A site over the keyed notary, with seals that another implementation made: tools/site_seals.py prints them.
use crate::claims::{FIRST, TRANSFER};
use crate::lines::Said;
use crate::lines::Said::{Answer, Grant, Request, ShowCert};
use notary::KeyedNotary;
use object::titles::Titles;
use site::site::Site;
use std::alloc::Global;
use std::process::Abort;
use std::test::Fail;
use tables::fields::Line;

const REQUEST_SEAL: &[u8; 32] =
    b"\x0f\xad\x0e\x44\x0c\x02\xb5\x4c\x19\x45\x19\xe3\xfd\xcf\x2d\x4f\x15\x18\xea\x74\x0d\x97\x10\x25\x47\x94\x7f\x40\x0d\xd4\x75\x99";

const GRANT_SEAL_2: &[u8; 32] =
    b"\x2f\xab\xf9\x9d\x2a\xcc\x49\xb1\x09\x06\xb6\x1a\xde\xf3\x32\x8b\x5e\xdf\xc8\x7c\x0a\x13\x2a\x91\x7c\xba\xdb\x03\x26\x0b\xf8\x4d";

const GRANT_SEAL_0: &[u8; 32] =
    b"\x84\x94\xe1\x1b\x1a\xfb\x31\xeb\xc1\x09\xc1\x03\xdb\x4f\x65\x85\x96\xc0\xaf\x35\x82\xa3\x6e\x50\x0c\x6d\xdc\x2e\x38\x29\x76\x0c";

const GRANT_SEAL_3: &[u8; 32] =
    b"\x8c\x45\xe6\x1c\x06\x49\x79\xd9\x0c\x85\xb5\x4d\x31\x56\x68\xbb\x16\x53\x99\x78\x6e\xcb\x1c\x31\x5e\xb7\x62\xa3\xd3\x91\x2c\xf2";

/// A site that knows keys: site i's is 32 bytes of value 16 + i, client i's 32 bytes of value 32 + i.
fn keyed() -> Site<KeyedNotary, Titles> {
    let mut sites = [[0; 32]; 16];
    let mut clients = [[0; 32]; 16];
    for (value, key) in (16..32u8).zip(sites.iter_mut()) {
        *key = [value; 32];
    }
    for (value, key) in (32..48u8).zip(clients.iter_mut()) {
        *key = [value; 32];
    }
    Site::new(1, 0, KeyedNotary::new(&sites, &clients), Titles::new())
}

/// A record with a seal.
fn sealed(said: Said, seal: &[u8; 32]) -> Line {
    let mut line = said.told();
    line[48..80].copy_from_slice(seal);
    line
}

/// A certificate of client 1's first claim, with the seals of three sites.
fn certificate(heap: Global, seals: [&[u8; 32]; 3]) -> Result<Vec<u8>, Fail> {
    let mut bytes = Vec::new(heap);
    bytes.extend_from_slice(&sealed(Grant(2, FIRST), seals[0]))?;
    bytes.extend_from_slice(&sealed(Grant(0, FIRST), seals[1]))?;
    bytes.extend_from_slice(&sealed(Grant(3, FIRST), seals[2]))?;
    Ok(bytes)
}

/// The site replies with these bytes.
fn replies(
    rt: &impl Abort,
    site: &mut Site<KeyedNotary, Titles>,
    message: &[u8],
    expected: &[u8],
) -> Result<(), Fail> {
    let mut output = [0; 880];
    let Ok(count) = site.call(message, &mut output, &mut [0; 16]) else {
        return Err(Fail::new("refused"));
    };
    assert!(rt; count == expected.len() && count <= 880);
    assert!(rt; &output[0..count] == expected);
    Ok(())
}

/// The site does not find a record vouched for.
fn unvouched(
    rt: &impl Abort,
    site: &mut Site<KeyedNotary, Titles>,
    message: &[u8],
    index: usize,
) -> Result<(), Fail> {
    let Err(refusal) = site.call(message, &mut [0; 880], &mut [0; 16]) else {
        return Err(Fail::new("not refused"));
    };
    assert!(rt; refusal.number == 8 && refusal.index == index && refusal.layer == 2);
    Ok(())
}

#[test]
fn seals_are_judged_and_kept(rt: HostRuntime) -> Result<(), Fail> {
    let mut site = keyed();
    let asks = Request(1, 1, TRANSFER);
    unvouched(&rt, &mut site, &sealed(asks, GRANT_SEAL_0), 0)?;
    replies(
        &rt,
        &mut site,
        &sealed(asks, REQUEST_SEAL),
        &Grant(0, FIRST).replied(),
    )?;
    let swapped = certificate(rt.alloc(), [GRANT_SEAL_2, GRANT_SEAL_3, GRANT_SEAL_0])?;
    unvouched(&rt, &mut site, &swapped, 1)?;
    let good = certificate(rt.alloc(), [GRANT_SEAL_2, GRANT_SEAL_0, GRANT_SEAL_3])?;
    replies(&rt, &mut site, &good, &Answer(0, FIRST, 3).replied())?;
    replies(&rt, &mut site, &ShowCert.told(), &good)
}

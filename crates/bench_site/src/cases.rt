//! The messages of each case, made before the clock starts. bench/site.rs has the same recipe.
use notary::{KeyedNotary, MEMBERS, seal_record};
use record::{Claim, Operation, Statement};
use sha256::Sealer;
use std::alloc::{AllocError, Global};

/// How many calls a site gets before a fresh one takes its place.
pub const LAP: u32 = 256;

/// One case: a fresh site gets the first message once, and then each of the others.
#[derive(Drop)]
pub struct Case {
    pub name: &'static str,
    pub f: u8,
    pub first: Vec<u8>,
    pub messages: Vec<Vec<u8>>,
}

/// The key of site i is 32 bytes of value 16 + i, that of client i 32 bytes of value 32 + i.
fn site_key(i: u8) -> [u8; 32] {
    [i.wrapping_add(16); 32]
}

fn client_key(i: u8) -> [u8; 32] {
    [i.wrapping_add(32); 32]
}

/// The notary that knows these keys.
pub fn notary() -> KeyedNotary {
    let mut sites = [[0; 32]; MEMBERS];
    let mut clients = [[0; 32]; MEMBERS];
    for (i, (site, client)) in (0..16).zip(sites.iter_mut().zip(clients.iter_mut())) {
        *site = site_key(i);
        *client = client_key(i);
    }
    KeyedNotary::new(&sites, &clients)
}

/// Issues, transfers and surrenders of the titles in turn.
fn operation(k: u32) -> Operation {
    let mut operation = [0; 16];
    operation[0] = (k % 3 + 1) as u8;
    operation[1] = (k % 64) as u8;
    operation[2] = (k % 16) as u8;
    operation
}

/// The certificate for place k: client k mod 16 has its request number k done in round 0.
fn certificate(heap: Global, f: u8, k: u32) -> Result<Vec<u8>, AllocError> {
    let claim = Claim {
        client: (k % 16) as u8,
        number: k,
        round: 0,
        place: k,
        operation: operation(k),
    };
    let mut bytes = Vec::new(heap);
    for site in 0..f.saturating_mul(2).saturating_add(1) {
        let grant = Statement::grant(site, &claim).unsealed();
        bytes.extend_from_slice(&seal_record(&Sealer::new(&site_key(site)), &grant))?;
    }
    Ok(bytes)
}

/// The same message for each call of a lap.
fn repeated(heap: Global, message: &[u8]) -> Result<Vec<Vec<u8>>, AllocError> {
    (0..LAP)
        .map(|_| Vec::from_slice(heap, message))
        .try_collect(heap)
}

/// A request that waits, so that each reply is the GRANT that is out.
pub fn write_1(heap: Global, f: u8) -> Result<Case, AllocError> {
    let request = Statement::request(1, 1, &operation(1)).unsealed();
    let request = seal_record(&Sealer::new(&client_key(1)), &request);
    Ok(Case {
        name: "WRITE-1",
        f,
        first: request.to_vec(heap)?,
        messages: repeated(heap, &request)?,
    })
}

/// Certificates of one place after the other, each of which is done.
pub fn write_2(heap: Global, f: u8) -> Result<Case, AllocError> {
    Ok(Case {
        name: "WRITE-2",
        f,
        first: certificate(heap, f, 1)?,
        messages: (2..LAP + 2)
            .map(|k| certificate(heap, f, k))
            .try_collect(heap)?,
    })
}

/// A question about a title, after one write.
pub fn read(heap: Global, f: u8) -> Result<Case, AllocError> {
    let question = Statement::question(1, &operation(0), 7).unsealed();
    let question = seal_record(&Sealer::new(&client_key(1)), &question);
    Ok(Case {
        name: "READ",
        f,
        first: certificate(heap, f, 1)?,
        messages: repeated(heap, &question)?,
    })
}

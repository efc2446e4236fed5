//! The published examples.
ghost use Rattle.std.specs.Prelude.{◌<◌};

use sha256::{Hasher, Sealer, hash, hmac};
use std::process::Abort;

/// The value of a hexadecimal digit in lower case.
fn digit(c: u8) -> u8
    ensures { result < 16 }
{
    match c {
        b'0'..=b'9' => c - b'0',
        b'a'..=b'f' => c - b'a' + 10,
        _ => 0,
    }
}

/// The 32 bytes that 64 hexadecimal digits name.
fn bytes(hex: &[u8; 64]) -> [u8; 32] {
    let mut out = [0; 32];
    for (byte, digits) in out.iter_mut().zip(hex.chunks_exact(2)) {
        if let [high, low] = digits {
            *byte = 16 * digit(*high) + digit(*low);
        }
    }
    out
}

fn digests(rt: &impl Abort, message: &[u8], hex: &[u8; 64]) {
    assert_eq!(rt; hash(message), bytes(hex));
}

fn seals(rt: &impl Abort, key: &[u8], message: &[u8], hex: &[u8; 64]) {
    assert_eq!(rt; hmac(key, message), bytes(hex));
    assert_eq!(rt;
        Sealer::new(key).seal(message),
        bytes(hex),
        "under the prepared key"
    );
}

#[test]
fn empty_message(rt: HostRuntime) {
    digests(
        &rt,
        b"",
        b"e3b0c44298fc1c149afbf4c8996fb92427ae41e4649b934ca495991b7852b855",
    );
}

#[test]
fn one_block(rt: HostRuntime) {
    digests(
        &rt,
        b"abc",
        b"ba7816bf8f01cfea414140de5dae2223b00361a396177a9cb410ff61f20015ad",
    );
}

#[test]
fn two_blocks_of_448_bits(rt: HostRuntime) {
    digests(
        &rt,
        b"abcdbcdecdefdefgefghfghighijhijkijkljklmklmnlmnomnopnopq",
        b"248d6a61d20638b8e5c026930c3e6039a33ce45964ff2167f6ecedd419db06c1",
    );
}

#[test]
fn two_blocks_of_896_bits(rt: HostRuntime) {
    digests(
        &rt,
        b"abcdefghbcdefghicdefghijdefghijkefghijklfghijklmghijklmnhijklmnoijklmnopjklmnopqklmnopqrlmnopqrsmnopqrstnopqrstu",
        b"cf5b16a778af8380036ce59e7b0492370b249b11e8f07a51afac45037afee9d1",
    );
}

#[test]
fn one_million_letters(rt: HostRuntime) {
    let part = [b'a'; 100];
    let mut hasher = Hasher::new();
    for _ in 0..10_000 {
        hasher.update(&part);
    }
    assert_eq!(rt;
        hasher.finish(),
        bytes(b"cdc76e5c9914fb9281a1c7e284d73e67f1809a48a497200e046d39ccc7112cd0")
    );
}

#[test]
fn rfc_4231_case_1(rt: HostRuntime) {
    seals(
        &rt,
        &[0x0b; 20],
        b"Hi There",
        b"b0344c61d8db38535ca8afceaf0bf12b881dc200c9833da726e9376c2e32cff7",
    );
}

#[test]
fn rfc_4231_case_2(rt: HostRuntime) {
    seals(
        &rt,
        b"Jefe",
        b"what do ya want for nothing?",
        b"5bdcc146bf60754e6a042426089575c75a003f089d2739839dec58b964ec3843",
    );
}

#[test]
fn rfc_4231_case_3(rt: HostRuntime) {
    seals(
        &rt,
        &[0xaa; 20],
        &[0xdd; 50],
        b"773ea91e36800e46854db8ebd09181a72959098b3ef8c122d9635514ced565fe",
    );
}

#[test]
fn rfc_4231_case_4(rt: HostRuntime) {
    let key = [
        0x01, 0x02, 0x03, 0x04, 0x05, 0x06, 0x07, 0x08, 0x09, 0x0a, 0x0b, 0x0c, 0x0d, 0x0e, 0x0f,
        0x10, 0x11, 0x12, 0x13, 0x14, 0x15, 0x16, 0x17, 0x18, 0x19,
    ];
    seals(
        &rt,
        &key,
        &[0xcd; 50],
        b"82558a389a443c0ea4cc819899f2083a85f0faa3e578f8077a2e3ff46729665b",
    );
}

/// The RFC prints the first 128 bits of this one.
#[test]
fn rfc_4231_case_5(rt: HostRuntime) {
    let seal = hmac(&[0x0c; 20], b"Test With Truncation");
    let printed = [
        0xa3, 0xb6, 0x16, 0x74, 0x73, 0x10, 0x0e, 0xe0, 0x6e, 0x0c, 0x79, 0x6c, 0x29, 0x55, 0x55,
        0x2b,
    ];
    assert_eq!(rt; &seal[0..16], &printed[0..16]);
}

#[test]
fn rfc_4231_case_6(rt: HostRuntime) {
    seals(
        &rt,
        &[0xaa; 131],
        b"Test Using Larger Than Block-Size Key - Hash Key First",
        b"60e431591ee0b67f0d8a26aacbf5b77f8e0bc6213728c5140546040f0ee37f54",
    );
}

#[test]
fn rfc_4231_case_7(rt: HostRuntime) {
    seals(
        &rt,
        &[0xaa; 131],
        b"This is a test using a larger than block-size key and a larger than block-size data. The key needs to be hashed before being used by the HMAC algorithm.",
        b"9b09ffa71b942fcb27635fbcd5b0e944bfdc63644f0713938a7f51535c3a35e2",
    );
}

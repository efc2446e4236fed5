// Records, byte by byte.
use record::Record;
use std::alloc::Global;
use std::process::Abort;
use std::test::Fail;
use text::hex::from_hex;

// A record's bytes, and the fields that they hold.
#[derive(Clone, Copy)]
struct Vector {
    hex: &'static str,
    kind: u8,
    signer: u8,
    client: u8,
    number: u32,
    round: u32,
    place: u32,
    operation: &'static str,
    answer: u64,
    nonce: u64,
}

const RECORDS: [Vector; 9] = [
    // a request
    Vector {
        hex: "010707000102030400000000000000000102030405060708090a0b0c0d0e0f1000000000000000000000000000000000e0e1e2e3e4e5e6e7e8e9eaebecedeeeff0f1f2f3f4f5f6f7f8f9fafbfcfdfeff",
        kind: 1,
        signer: 7,
        client: 7,
        number: 16909060,
        round: 0,
        place: 0,
        operation: "0102030405060708090a0b0c0d0e0f10",
        answer: 0,
        nonce: 0,
    },
    // a grant
    Vector {
        hex: "020309000000000500000006000000070102030405060708090a0b0c0d0e0f10000000000000000000000000000000000000000000000000000000000000000000000000000000000000000000000000",
        kind: 2,
        signer: 3,
        client: 9,
        number: 5,
        round: 6,
        place: 7,
        operation: "0102030405060708090a0b0c0d0e0f10",
        answer: 0,
        nonce: 0,
    },
    // a question
    Vector {
        hex: "030f0f000000000000000000000000000102030405060708090a0b0c0d0e0f1000000000000000001122334455667788ffffffffffffffffffffffffffffffffffffffffffffffffffffffffffffffff",
        kind: 3,
        signer: 15,
        client: 15,
        number: 0,
        round: 0,
        place: 0,
        operation: "0102030405060708090a0b0c0d0e0f10",
        answer: 0,
        nonce: 1234605616436508552,
    },
    // an answer
    Vector {
        hex: "040000000000000177359400773594100102030405060708090a0b0c0d0e0f10fedcba987654321000000000000000000000000000000000000000000000000000000000000000000000000000000000",
        kind: 4,
        signer: 0,
        client: 0,
        number: 1,
        round: 2000000000,
        place: 2000000016,
        operation: "0102030405060708090a0b0c0d0e0f10",
        answer: 18364758544493064720,
        nonce: 0,
    },
    // a read answer
    Vector {
        hex: "050201000000000000000000000000000102030405060708090a0b0c0d0e0f10000000000098967e00000000000000010000000000000000000000000000000000000000000000000000000000000000",
        kind: 5,
        signer: 2,
        client: 1,
        number: 0,
        round: 0,
        place: 0,
        operation: "0102030405060708090a0b0c0d0e0f10",
        answer: 9999998,
        nonce: 1,
    },
    // a start
    Vector {
        hex: "0601000000000000000000040000000300000000000000000000000000000000000000000000000000000000000000000000000000000000000000000000000000000000000000000000000000000000",
        kind: 6,
        signer: 1,
        client: 0,
        number: 0,
        round: 4,
        place: 3,
        operation: "00000000000000000000000000000000",
        answer: 0,
        nonce: 0,
    },
    // a show-grant
    Vector {
        hex: "0700000000000000000000000000000100000000000000000000000000000000000000000000000000000000000000000000000000000000000000000000000000000000000000000000000000000000",
        kind: 7,
        signer: 0,
        client: 0,
        number: 0,
        round: 0,
        place: 1,
        operation: "00000000000000000000000000000000",
        answer: 0,
        nonce: 0,
    },
    // a show-cert
    Vector {
        hex: "0800000000000000000000000000000000000000000000000000000000000000000000000000000000000000000000000000000000000000000000000000000000000000000000000000000000000000",
        kind: 8,
        signer: 0,
        client: 0,
        number: 0,
        round: 0,
        place: 0,
        operation: "00000000000000000000000000000000",
        answer: 0,
        nonce: 0,
    },
    // a mark
    Vector {
        hex: "0203100000000004000000040000000800000000000000000000000000000000000000000000000000000000000000000000000000000000000000000000000000000000000000000000000000000000",
        kind: 2,
        signer: 3,
        client: 16,
        number: 4,
        round: 4,
        place: 8,
        operation: "00000000000000000000000000000000",
        answer: 0,
        nonce: 0,
    },
];

// The 80 bytes that a text writes.
fn bytes(heap: Global, hex: &str) -> Result<[u8; 80], Fail> {
    let all = from_hex(heap, hex)?.ok_or("no hexadecimal text")?;
    Ok(
        <[u8; 80]>::try_from(all.as_slice())
            .ok()
            .ok_or("not 80 bytes")?,
    )
}

fn fields(rt: &impl Abort, heap: Global, v: &Vector, read: &Record) -> Result<(), Fail> {
    let says = &read.statement;
    assert_eq!(rt; says.kind, v.kind);
    assert_eq!(rt; says.signer, v.signer);
    assert_eq!(rt; says.client, v.client);
    assert_eq!(rt; says.spare, 0);
    assert_eq!(rt; says.number, v.number);
    assert_eq!(rt; says.round, v.round);
    assert_eq!(rt; says.place, v.place);
    let operation = from_hex(heap, v.operation)?.ok_or("no hexadecimal text")?;
    assert!(rt; says.operation.as_slice() == operation.as_slice());
    assert_eq!(rt; says.answer, v.answer);
    assert_eq!(rt; says.nonce, v.nonce);
    Ok(())
}

#[test]
fn records_are_read_and_written(rt: HostRuntime) -> Result<(), Fail> {
    let heap = rt.alloc();
    for v in RECORDS.iter() {
        let raw = bytes(heap, v.hex)?;
        let read = Record::read(&raw);
        fields(&rt, heap, v, &read)?;
        assert!(rt; read.to_bytes() == raw);
        assert!(rt; read.statement.in_range(1));
    }
    Ok(())
}

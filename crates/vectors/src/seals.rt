// Records sealed by another implementation: tools/seals.py prints this table.
use console::seals::{seal, vouch};
use std::alloc::Global;
use std::test::Fail;

// A key, a statement, and the seal that belongs to them, in hexadecimal.
#[derive(Clone, Copy)]
struct Sealed {
    key: &'static str,
    statement: &'static str,
    seal: &'static str,
}

const SEALED: [Sealed; 6] = [
    Sealed {
        key: "1010101010101010101010101010101010101010101010101010101010101010",
        statement: "010000000000000100000000000000000105010000000000000000000000000000000000000000000000000000000000",
        seal: "a45835cf6e2946730c6672aead194a5cc5088527e42d33026428dd8ea9886344",
    },
    Sealed {
        key: "000102030405060708090a0b0c0d0e0f101112131415161718191a1b1c1d1e1f",
        statement: "0203090000000007000000020000000b000102030405060708090a0b0c0d0e0f00000000000000000000000000000000",
        seal: "d90fee46e410b8b76eff3251e4af49c9a562395a1fcd9b71f77762f942000e69",
    },
    Sealed {
        key: "ffffffffffffffffffffffffffffffffffffffffffffffffffffffffffffffff",
        statement: "030f0f00000000000000000000000000013f00000000000000000000000000000000000000000000ffffffffffffffff",
        seal: "64d239415afb90327698727a2f7e09a8e2fe0b232921cf583cc1a0811df3e462",
    },
    Sealed {
        key: "1010101010101010101010101010101010101010101010101010101010101010",
        statement: "040f10007735940077359400773594100000000000000000000000000000000000000000000000000000000000000000",
        seal: "96c45df4c16ca8bba5507f665252275b0db331a94e31bcd35737993a25907fa3",
    },
    Sealed {
        key: "000102030405060708090a0b0c0d0e0f101112131415161718191a1b1c1d1e1f",
        statement: "0502010000000000000000000000000001030000000000000000000000000000000000000098967e0000000000000001",
        seal: "9977a717fc8b34614694362bb0b8edf4b8c89048564fefbce2978997312d3b47",
    },
    Sealed {
        key: "ffffffffffffffffffffffffffffffffffffffffffffffffffffffffffffffff",
        statement: "060100000000000000000004000000030000000000000000000000000000000000000000000000000000000000000000",
        seal: "5153dc01d2c32811d7e42fef1ebda33f5688cf6dc4e4d2196898658b0824aa5b",
    },
];

const NO_SEAL: &str = "0000000000000000000000000000000000000000000000000000000000000000";

// A statement and a seal as one record, with an end of the line where it is printed.
fn joined(heap: Global, statement: &str, seal: &str, end: &str) -> Result<String, Fail> {
    Ok(format!(in heap; "{statement}{seal}{end}")?)
}

#[test]
fn seals_are_those_of_another_implementation(rt: HostRuntime) -> Result<(), Fail> {
    let heap = rt.alloc();
    for row in SEALED.iter() {
        let blank = joined(heap, row.statement, NO_SEAL, "")?;
        let full = joined(heap, row.statement, row.seal, "")?;
        let printed = seal(heap, row.key, blank.as_str())?;
        assert!(rt; printed.as_str() == joined(heap, row.statement, row.seal, "\n")?.as_str());
        assert!(rt; vouch(heap, row.key, full.as_str())?.as_str() == "vouched\n");
        assert!(rt; vouch(heap, row.key, blank.as_str())?.as_str() == "not vouched\n");
    }
    Ok(())
}

#[test]
fn what_cannot_be_sealed_is_said(rt: HostRuntime) -> Result<(), Fail> {
    let heap = rt.alloc();
    let full = joined(heap, SEALED[0].statement, SEALED[0].seal, "")?;
    assert!(rt;
        seal(heap, "00", full.as_str())?.as_str()
            == "a key is 32 bytes, written as 64 hexadecimal digits\n"
    );
    assert!(rt;
        seal(heap, NO_SEAL, "00")?.as_str()
            == "a record is 80 bytes, written as 160 hexadecimal digits\n"
    );
    // that both are hexadecimal is looked at before how long they are
    assert!(rt;
        seal(heap, "00", "0g")?.as_str()
            == "a record is 80 bytes, written as 160 hexadecimal digits\n"
    );
    assert!(rt;
        vouch(heap, NO_SEAL, "0g")?.as_str()
            == "a record is 80 bytes, written as 160 hexadecimal digits\n"
    );
    assert!(rt; vouch(heap, NO_SEAL, full.as_str())?.as_str() == "not vouched\n");
    Ok(())
}

// Boards after the checks of a message, and notaries that accept nothing.
use console::explain::explain_with_keys;
use notary::BookNotary;
use std::test::Fail;

// A board that comes in dirty is zero after, also where the message is refused; one of another length stays.
#[test]
fn boards_are_cleared(rt: HostRuntime) {
    let notary = BookNotary::new(b"");
    let mut board = [7u8; 16];
    assert!(rt; message::check(1, &notary, &[0; 80], 880, &mut board).is_err());
    assert!(rt; board == [0; 16]);
    let mut dirty = [7u8; 16];
    assert!(rt; message::check(1, &notary, &[0; 80], 879, &mut dirty).is_err());
    assert!(rt; dirty == [7; 16]);
    let mut long = [7u8; 17];
    assert!(rt; message::check(1, &notary, &[0; 80], 880, &mut long).is_err());
    assert!(rt; long == [7; 17]);
}

// one REQUEST, and one SHOW-CERT
const REQUEST: &str =
    "0101010000000001000000000000000002050300000000000000000000000000000000000000000000000000000000000000000000000000000000000000000000000000000000000000000000000000";

const SHOW_CERT: &str =
    "0800000000000000000000000000000000000000000000000000000000000000000000000000000000000000000000000000000000000000000000000000000000000000000000000000000000000000";

// 32 bytes of zeros
const KEY: &str = "0000000000000000000000000000000000000000000000000000000000000000\n";

// Under other keys no record is vouched for; a SHOW needs no seal.
#[test]
fn seals_are_judged_by_keys(rt: HostRuntime) -> Result<(), Fail> {
    let keys = KEY.repeat(rt.alloc(), 32)?;
    let text = explain_with_keys(rt.alloc(), "1", REQUEST, keys.as_str())?;
    assert!(rt;
        text.as_str()
            .starts_with("refused 8 UNVOUCHED, index 0, layer 2\n")
    );
    let shown = explain_with_keys(rt.alloc(), "1", SHOW_CERT, keys.as_str())?;
    assert!(rt; shown.as_str().starts_with("SHOW-CERT\n"));
    let short = explain_with_keys(rt.alloc(), "1", REQUEST, KEY)?;
    assert!(rt; short.as_str().starts_with("a key file has 32 lines"));
    let long = KEY.repeat(rt.alloc(), 33)?;
    let text = explain_with_keys(rt.alloc(), "1", REQUEST, long.as_str())?;
    assert!(rt; text.as_str().starts_with("a key file has 32 lines"));
    Ok(())
}

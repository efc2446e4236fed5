// The limits of fields, at, below and above.
use record::{Claim, Operation, Statement};

const ZERO: Operation = [0; 16];

fn grant(site: u8, client: u8, number: u32, round: u32, place: u32, code: u8) -> Statement {
    let mut operation = ZERO;
    operation[0] = code;
    Statement::grant(
        site,
        &Claim {
            client,
            number,
            round,
            place,
            operation,
        },
    )
}

#[test]
fn claims_have_limits(rt: HostRuntime) {
    assert!(rt; grant(3, 15, 1, 0, 1, 1).in_range(1));
    assert!(rt; !grant(4, 15, 1, 0, 1, 1).in_range(1));
    assert!(rt; grant(15, 15, 1, 0, 1, 1).in_range(5));
    assert!(rt; !grant(16, 15, 1, 0, 1, 1).in_range(5));
    assert!(rt; !grant(3, 17, 1, 0, 1, 1).in_range(1));
    assert!(rt; !grant(3, 15, 0, 0, 1, 1).in_range(1));
    assert!(rt; !grant(3, 15, 1, 0, 0, 1).in_range(1));
    assert!(rt; grant(3, 15, 4_294_967_295, 2_000_000_000, 2_000_000_016, 1).in_range(1));
    assert!(rt; !grant(3, 15, 1, 2_000_000_001, 1, 1).in_range(1));
    assert!(rt; !grant(3, 15, 1, 0, 2_000_000_017, 1).in_range(1));
}

#[test]
fn marks_bear_their_round(rt: HostRuntime) {
    assert!(rt; grant(3, 16, 7, 7, 1, 0).in_range(1));
    assert!(rt; !grant(3, 16, 8, 7, 1, 0).in_range(1));
    assert!(rt; !grant(3, 16, 7, 7, 1, 1).in_range(1));
    assert!(rt; !grant(3, 16, 0, 0, 1, 0).in_range(1));
}

#[test]
fn requests_and_questions_are_their_clients(rt: HostRuntime) {
    assert!(rt; Statement::request(15, 1, &ZERO).in_range(1));
    assert!(rt; !Statement::request(16, 1, &ZERO).in_range(1));
    assert!(rt; !Statement::request(15, 0, &ZERO).in_range(1));
    assert!(rt; Statement::question(0, &ZERO, 0).in_range(1));
    assert!(rt; !Statement::question(16, &ZERO, 0).in_range(1));
    let mut other = Statement::request(15, 1, &ZERO);
    other.signer = 14;
    assert!(rt; !other.in_range(1));
}

#[test]
fn starts_and_shows_have_limits(rt: HostRuntime) {
    assert!(rt; Statement::start(3, 2_000_000_000, 2_000_000_016).in_range(1));
    assert!(rt; !Statement::start(3, 2_000_000_001, 0).in_range(1));
    assert!(rt; !Statement::start(4, 0, 0).in_range(1));
    assert!(rt; Statement::show_grant(1).in_range(1));
    assert!(rt; !Statement::show_grant(0).in_range(1));
    assert!(rt; !Statement::show_grant(2_000_000_017).in_range(1));
    assert!(rt; Statement::show_cert().in_range(1));
}

// A statement with one field more than its kind uses, each field in turn, and with a kind that there is not.
fn spoiled(says: &Statement) -> [Statement; 5] {
    let says = *says;
    let mut operation = says.operation;
    operation[15] = 1;
    [
        Statement { spare: 1, ..says },
        Statement { answer: 1, ..says },
        Statement { nonce: 1, ..says },
        Statement { operation, ..says },
        Statement { kind: 9, ..says },
    ]
}

#[test]
fn what_a_kind_does_not_use_is_zero(rt: HostRuntime) {
    let start = Statement::start(0, 0, 0);
    for other in spoiled(&start) {
        assert!(rt; !other.in_range(1));
    }
    for other in spoiled(&Statement::show_cert()) {
        assert!(rt; !other.in_range(1));
    }
    let mut none = start;
    none.kind = 0;
    assert!(rt; !none.in_range(1));
}

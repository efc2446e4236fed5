// Every answer of both objects.
use object::Object;
use object::slots::Slots;
use object::titles::Titles;
use text::deed::Deed;

fn ask(titles: &mut Titles, client: u8, deed: Deed) -> u64 {
    titles.perform(client, &deed.operation())
}

fn pay(slots: &mut Slots, client: u8, account: u8, amount: u32) -> u64 {
    slots.perform(client, &Deed::Move { account, amount }.operation())
}

fn holder(titles: &Titles, title: u8) -> u64 {
    titles.look(&Deed::Title { title }.operation())
}

fn balance(slots: &Slots, account: u8) -> u64 {
    slots.look(&Deed::Account { account }.operation())
}

#[test]
fn titles_answer_in_order(rt: HostRuntime) {
    let mut t = Titles::new();
    assert_eq!(rt;
        ask(
            &mut t,
            0,
            Deed::Issue {
                title: 64,
                receiver: 1,
            },
        ),
        1
    );
    assert_eq!(rt;
        ask(
            &mut t,
            0,
            Deed::Issue {
                title: 63,
                receiver: 16,
            },
        ),
        1
    );
    assert_eq!(rt;
        ask(
            &mut t,
            1,
            Deed::Transfer {
                title: 63,
                receiver: 1,
            },
        ),
        3
    );
    assert_eq!(rt; ask(&mut t, 1, Deed::Surrender { title: 63 }), 3);
    assert_eq!(rt;
        ask(
            &mut t,
            1,
            Deed::Issue {
                title: 63,
                receiver: 15,
            },
        ),
        2
    );
    assert_eq!(rt;
        ask(
            &mut t,
            0,
            Deed::Issue {
                title: 63,
                receiver: 15,
            },
        ),
        0
    );
    assert_eq!(rt;
        ask(
            &mut t,
            1,
            Deed::Issue {
                title: 63,
                receiver: 15,
            },
        ),
        3
    );
    assert_eq!(rt;
        ask(
            &mut t,
            0,
            Deed::Transfer {
                title: 63,
                receiver: 2,
            },
        ),
        2
    );
    assert_eq!(rt;
        ask(
            &mut t,
            15,
            Deed::Transfer {
                title: 63,
                receiver: 2,
            },
        ),
        0
    );
    assert_eq!(rt; ask(&mut t, 15, Deed::Surrender { title: 63 }), 2);
    assert_eq!(rt; ask(&mut t, 2, Deed::Surrender { title: 63 }), 0);
    assert_eq!(rt; ask(&mut t, 2, Deed::Surrender { title: 63 }), 3);
}

#[test]
fn titles_are_shown(rt: HostRuntime) {
    let mut t = Titles::new();
    assert_eq!(rt; holder(&t, 0), 16);
    assert_eq!(rt;
        ask(
            &mut t,
            0,
            Deed::Issue {
                title: 0,
                receiver: 9,
            },
        ),
        0
    );
    assert_eq!(rt; holder(&t, 0), 9);
    assert_eq!(rt; ask(&mut t, 9, Deed::Surrender { title: 0 }), 0);
    assert_eq!(rt; holder(&t, 0), 17);
    assert_eq!(rt; holder(&t, 63), 16);
    assert_eq!(rt; holder(&t, 64), 9_999_998);
    assert_eq!(rt; t.look(&[2; 16]), 9_999_999);
    assert_eq!(rt; t.look(&[0; 16]), 9_999_999);
}

#[test]
fn unknown_codes_change_nothing(rt: HostRuntime) {
    let mut t = Titles::new();
    assert_eq!(rt;
        ask(
            &mut t,
            0,
            Deed::Issue {
                title: 1,
                receiver: 4,
            },
        ),
        0
    );
    assert_eq!(rt; t.perform(0, &[0; 16]), 9_999_999);
    assert_eq!(rt; t.perform(0, &[4; 16]), 9_999_999);
    assert_eq!(rt; t.perform(255, &[255; 16]), 9_999_999);
    assert_eq!(rt; holder(&t, 1), 4);
    assert!(rt; t.take_back());
    assert_eq!(rt; holder(&t, 1), 16);
}

#[test]
fn a_refused_write_is_taken_back_too(rt: HostRuntime) {
    let mut t = Titles::new();
    assert!(rt; !t.take_back());
    assert_eq!(rt;
        ask(
            &mut t,
            0,
            Deed::Issue {
                title: 1,
                receiver: 4,
            },
        ),
        0
    );
    assert_eq!(rt;
        ask(
            &mut t,
            0,
            Deed::Issue {
                title: 1,
                receiver: 4,
            },
        ),
        3
    );
    assert!(rt; t.take_back());
    assert_eq!(rt; holder(&t, 1), 4);
    assert!(rt; !t.take_back());
    assert_eq!(rt; holder(&t, 1), 4);
}

#[test]
fn slots_answer_in_order(rt: HostRuntime) {
    let mut s = Slots::new();
    assert_eq!(rt; pay(&mut s, 0, 16, 1), 1);
    assert_eq!(rt; pay(&mut s, 16, 0, 0), 1);
    assert_eq!(rt; pay(&mut s, 255, 255, 1), 1);
    assert_eq!(rt; pay(&mut s, 0, 15, 1_000_001), 2);
    assert_eq!(rt; pay(&mut s, 1, 15, 1), 2);
    assert_eq!(rt; pay(&mut s, 0, 15, 1_000_000), 0);
    assert_eq!(rt; balance(&s, 0), 0);
    assert_eq!(rt; balance(&s, 15), 1_000_000);
    assert_eq!(rt; pay(&mut s, 15, 15, 1_000_000), 0);
    assert_eq!(rt; balance(&s, 15), 1_000_000);
    assert_eq!(rt; pay(&mut s, 15, 3, 16_909_060), 2);
    assert_eq!(rt; balance(&s, 16), 9_999_998);
    assert_eq!(rt; s.perform(0, &[2; 16]), 9_999_999);
    assert_eq!(rt; s.look(&[2; 16]), 9_999_999);
}

#[test]
fn amounts_have_four_bytes(rt: HostRuntime) {
    let mut s = Slots::new();
    assert_eq!(rt;
        s.perform(0, &[1, 2, 0, 1, 2, 3, 9, 9, 9, 9, 9, 9, 9, 9, 9, 9]),
        0
    );
    assert_eq!(rt; balance(&s, 2), 66_051);
    assert_eq!(rt; balance(&s, 0), 933_949);
    assert_eq!(rt;
        s.perform(0, &[1, 2, 1, 0, 0, 0, 0, 0, 0, 0, 0, 0, 0, 0, 0, 0]),
        2
    );
    assert!(rt; s.take_back());
    assert_eq!(rt; balance(&s, 2), 66_051);
    assert!(rt; !s.take_back());
}

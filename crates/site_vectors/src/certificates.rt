//! SHOW-CERT gives the certificate as it came: its GRANTs in their order, with their seals.
use crate::calls::Due::Replies;
use crate::calls::{Call, fresh, run};
use crate::claims::{FIRST, TRANSFER};
use crate::lines::Claim;
use crate::lines::Said::{Answer, Grant, ShowCert, Shown};
use std::test::Fail;

const NEXT: Claim = Claim(2, 1, 0, 2, TRANSFER);

// A certificate that is answered from what was done is not kept; the next write's is.
static SMALL: [Call; 5] = [
    Call(
        &[Grant(3, FIRST), Grant(0, FIRST), Grant(2, FIRST)],
        Replies(&[Answer(0, FIRST, 3)]),
    ),
    Call(
        &[Grant(0, FIRST), Grant(1, FIRST), Grant(2, FIRST)],
        Replies(&[Answer(0, FIRST, 3)]),
    ),
    Call(
        &[ShowCert],
        Replies(&[Shown(3, FIRST), Shown(0, FIRST), Shown(2, FIRST)]),
    ),
    Call(
        &[Grant(2, NEXT), Grant(1, NEXT), Grant(0, NEXT)],
        Replies(&[Answer(0, NEXT, 3)]),
    ),
    Call(
        &[ShowCert],
        Replies(&[Shown(2, NEXT), Shown(1, NEXT), Shown(0, NEXT)]),
    ),
];

// At f = 5 a certificate has eleven GRANTs and fills 880 bytes.
static LARGE: [Call; 2] = [
    Call(
        &[
            Grant(15, FIRST),
            Grant(0, FIRST),
            Grant(2, FIRST),
            Grant(4, FIRST),
            Grant(6, FIRST),
            Grant(8, FIRST),
            Grant(10, FIRST),
            Grant(12, FIRST),
            Grant(14, FIRST),
            Grant(1, FIRST),
            Grant(3, FIRST),
        ],
        Replies(&[Answer(0, FIRST, 3)]),
    ),
    Call(
        &[ShowCert],
        Replies(&[
            Shown(15, FIRST),
            Shown(0, FIRST),
            Shown(2, FIRST),
            Shown(4, FIRST),
            Shown(6, FIRST),
            Shown(8, FIRST),
            Shown(10, FIRST),
            Shown(12, FIRST),
            Shown(14, FIRST),
            Shown(1, FIRST),
            Shown(3, FIRST),
        ]),
    ),
];

#[test]
fn certificates_are_kept(rt: HostRuntime) -> Result<(), Fail> {
    run(&rt, rt.alloc(), &mut fresh(1), &SMALL)?;
    run(&rt, rt.alloc(), &mut fresh(5), &LARGE)
}

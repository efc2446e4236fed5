//! Buffers and lengths that are refused. An output or a board that does not fit is left alone.
use crate::calls::{Tested, fresh};
use crate::claims::{FIRST, TRANSFER};
use crate::lines::Said::{Grant, Request};
use message::Refusal;
use site::state::FRESH;
use std::process::Abort;
use std::test::Fail;
use tables::output::{MARKED, only_begins};

const SHORT: Refusal = Refusal {
    number: 1,
    index: 0,
    layer: 1,
};

const LENGTH: Refusal = Refusal {
    number: 2,
    index: 0,
    layer: 1,
};

/// A fresh site refuses the message, and stays fresh.
fn refuses(
    rt: &impl Abort,
    site: &mut Tested,
    message: &[u8],
    output: &mut [u8],
    board: &mut [u8],
    due: Refusal,
) -> Result<(), Fail> {
    let Err(refusal) = site.call(message, output, board) else {
        return Err(Fail::new("not refused"));
    };
    assert!(rt; refusal.number == due.number);
    assert!(rt; refusal.index == due.index && refusal.layer == due.layer);
    assert!(rt; FRESH == *site.state());
    Ok(())
}

#[test]
fn short_outputs(rt: HostRuntime) -> Result<(), Fail> {
    let mut output = [MARKED; 879];
    let mut board = [7; 16];
    let message = Request(1, 1, TRANSFER).told();
    refuses(&rt, &mut fresh(1), &message, &mut output, &mut board, SHORT)?;
    assert!(rt; board == [7; 16]);
    assert!(rt; only_begins(&output, &[]));
    Ok(())
}

#[test]
fn unfit_boards(rt: HostRuntime) -> Result<(), Fail> {
    let mut output = [MARKED; 880];
    let message = Request(1, 1, TRANSFER).told();
    let mut short = [7; 15];
    refuses(&rt, &mut fresh(1), &message, &mut output, &mut short, SHORT)?;
    let mut long = [7; 17];
    refuses(&rt, &mut fresh(1), &message, &mut output, &mut long, SHORT)?;
    assert!(rt; short == [7; 15] && long == [7; 17]);
    assert!(rt; only_begins(&output, &[]));
    Ok(())
}

// An output of exactly 880 bytes is enough.
#[test]
fn the_shortest_output(rt: HostRuntime) -> Result<(), Fail> {
    let mut output = [MARKED; 880];
    let mut board = [7; 16];
    let message = Request(1, 1, TRANSFER).told();
    let Ok(count) = fresh(1).call(&message, &mut output, &mut board) else {
        return Err(Fail::new("refused"));
    };
    assert!(rt; count == 80 && board == [0; 16]);
    assert!(rt; only_begins(&output, &Grant(0, FIRST).replied()));
    Ok(())
}

/// A message of another length than 1 to 38 whole records.
fn not_whole(rt: &impl Abort, message: &[u8]) -> Result<(), Fail> {
    let mut output = [MARKED; 880];
    let mut board = [7; 16];
    refuses(rt, &mut fresh(1), message, &mut output, &mut board, LENGTH)?;
    assert!(rt; board == [0; 16]);
    assert!(rt; only_begins(&output, &[]));
    Ok(())
}

#[test]
fn lengths(rt: HostRuntime) -> Result<(), Fail> {
    not_whole(&rt, &[])?;
    not_whole(&rt, &[1; 79])?;
    not_whole(&rt, &[1; 81])?;
    not_whole(&rt, &[1; 3120])?;
    let mut output = [MARKED; 880];
    let mut board = [7; 16];
    let kind = Refusal {
        number: 3,
        index: 0,
        layer: 1,
    };
    refuses(
        &rt,
        &mut fresh(1),
        &[1; 3040],
        &mut output,
        &mut board,
        kind,
    )
}

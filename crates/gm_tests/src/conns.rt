//! The table of connections.

use crate::checks::{must, same};
use gm_conns::Conns;
use gm_notes::ApplyError;
use std::alloc::AllocError;
use std::process::Abort;
use std::test::Fail;

// Puts bytes into room that is reserved for them.
fn put_checked(
    rt: &impl Abort,
    conns: &mut Conns,
    slot: u32,
    bytes: &[u8],
) -> Result<(), AllocError> {
    must(rt, conns.is_open(slot));
    conns.reserve_out(slot, bytes.len())?;
    must(rt, conns.is_open(slot));
    assert!(rt; conns.waiting(slot).room() >= bytes.len());
    conns.put_out(slot, bytes);
    Ok(())
}

fn assert_drains(rt: &impl Abort, conns: &mut Conns, slot: u32, bytes: &[u8]) {
    must(rt, conns.is_open(slot));
    let mut waiting = conns.drain(slot);
    same(rt, "what waits", &waiting.first(), &bytes);
    let count = waiting.first().len();
    waiting.advance(count);
    must(rt, waiting.is_empty());
}

fn assert_able(rt: &impl Abort, conns: &Conns, slot: u32, i: usize, ability: Option<(u32, u32)>) {
    must(rt, conns.is_open(slot));
    same(rt, "an ability", &conns.able(slot, i), &ability);
}

fn add_abilities(rt: &impl Abort, conns: &mut Conns) -> Result<(), AllocError> {
    for (f, timeout) in [(7, 0), (3, 5), (7, 9)] {
        must(rt, conns.is_open(0));
        conns.can_do(0, f, timeout)?;
    }
    for (i, ability) in [(0, Some((7, 9))), (1, Some((3, 5))), (2, None)] {
        assert_able(rt, conns, 0, i, ability);
    }
    Ok(())
}

fn read_abilities(rt: &impl Abort, conns: &Conns) {
    must(rt, conns.is_open(0));
    same(rt, "a timeout", &conns.timeout_of(0, 3), &Some(5));
    same(rt, "a count", &conns.able_count(7), &1);
}

// Gives an id, sends bytes and closes.
fn end(rt: &impl Abort, conns: &mut Conns) -> Result<(), AllocError> {
    must(rt, conns.is_open(0));
    conns.set_id(0, b"id")?;
    put_checked(rt, conns, 0, b"hi")?;
    assert_drains(rt, conns, 0, b"hi");
    assert_drains(rt, conns, 0, b"");
    must(rt, conns.is_open(0));
    conns.close(0);
    must(rt, !conns.is_open(0));
    Ok(())
}

#[test]
fn conns_ample(rt: HostRuntime) -> Result<(), Fail> {
    let mut conns = Conns::new(rt.alloc(), 2)?;
    for (addr, opened) in [
        (b"a", Ok(0)),
        (b"b", Ok(1)),
        (b"c", Err(ApplyError::NoSlot)),
    ] {
        same(&rt, "an opening", &conns.open(addr), &opened);
    }
    add_abilities(&rt, &mut conns)?;
    read_abilities(&rt, &conns);
    end(&rt, &mut conns)?;
    same(&rt, "an opening", &conns.open(b"d"), &Ok(0));
    assert_able(&rt, &conns, 0, 0, None);
    Ok(())
}

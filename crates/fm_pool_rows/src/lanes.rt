//! A lane in one thread: tickets, the order of what comes out, and refusals.

use fm_steal::lane;
use std::test::Fail;

#[test]
fn tickets(rt: HostRuntime) -> Result<(), Fail> {
    let alloc = rt.alloc();
    let (mut own, mut thieves) = lane::<u8>(alloc, 4, 1)?;
    assert_eq!(rt; own.put(b'a'), Ok(0));
    assert_eq!(rt; own.put(b'b'), Ok(1));
    assert_eq!(rt; own.put(b'c'), Ok(2));
    assert_eq!(rt; thieves[0].steal(&rt), Some((0, b'a')));
    assert_eq!(rt; own.pop(), Some((1, b'b')));
    let Ok(left) = own.close(alloc, thieves) else {
        panic!(rt; "no memory")
    };
    assert_eq!(rt; left.as_slice(), [(2, b'c')].as_slice());
    Ok(())
}

#[test]
fn a_full_lane(rt: HostRuntime) -> Result<(), Fail> {
    let alloc = rt.alloc();
    let (mut own, thieves) = lane::<u8>(alloc, 1, 0)?;
    assert_eq!(rt; own.put(b'a'), Ok(0));
    assert_eq!(rt; own.put(b'b'), Err(b'b'));
    let Ok(left) = own.close(alloc, thieves) else {
        panic!(rt; "no memory")
    };
    assert_eq!(rt; left.as_slice(), [(0, b'a')].as_slice());
    Ok(())
}

// Numbers by their places, as some come and go.

use gz_ranks::{Ranks, Slot};
use std::test::Fail;

#[test]
fn numbers_come_and_go(rt: HostRuntime) -> Result<(), Fail> {
    let alloc = rt.alloc();
    let mut ranks = Ranks::new();
    ranks.push(Slot::new(alloc, 2)?);
    ranks.push(Slot::new(alloc, 3)?);
    ranks.push(Slot::new(alloc, 5)?);
    ranks.push(Slot::new(alloc, 9)?);
    assert_eq!(rt; ranks.nth(1), Some(3));
    assert_eq!(rt; ranks.nth(3), Some(9));
    ranks.remove(3);
    ranks.remove(4);
    assert_eq!(rt; ranks.len(), 3);
    assert_eq!(rt; ranks.nth(1), Some(5));
    assert_eq!(rt; ranks.nth(3), None);
    Ok(())
}

//! Sets of numbers.

use nf_spot::NumberSet;
use std::test::Fail;

#[test]
fn a_set_has_what_was_put_in(rt: HostRuntime) -> Result<(), Fail> {
    let mut set = NumberSet::new(rt.alloc(), 3)?;
    assert_eq!(rt; set.any(), None);
    set.set(2, true);
    set.set(0, true);
    set.set(2, true);
    assert!(rt; set.contains(0));
    assert!(rt; !set.contains(1));
    assert!(rt; set.contains(2));
    assert!(rt; !set.is_full());
    set.set(1, true);
    assert!(rt; set.is_full());
    set.set(0, false);
    set.set(2, false);
    set.set(2, false);
    assert_eq!(rt; set.any(), Some(1));
    Ok(())
}

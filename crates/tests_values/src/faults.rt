//! How want of memory prints.

use nf_bag::OpFault;
use nf_command::UsageFault;
use std::test::Fail;

#[test]
fn want_of_memory_prints_its_name(rt: HostRuntime) -> Result<(), Fail> {
    let alloc = rt.alloc();
    let operator = OpFault::Mem.copy()?;
    assert_eq!(rt; format!(in alloc; "{operator}")?.as_str(), "Mem");
    let usage = UsageFault::Mem;
    assert_eq!(rt; format!(in alloc; "{usage}")?.as_str(), "Mem");
    Ok(())
}

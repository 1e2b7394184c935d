//! What is printed.

use cell_pools::PoolFault;
use node_table::OpenFault;
use patch_graph::EdgeFault;
use std::alloc::Global;
use std::fmt;
use std::process::Abort;
use std::test::Fail;

/// It prints as this text.
pub(super) fn assert_text<T: fmt::Display>(
    rt: &impl Abort,
    alloc: Global,
    shown: &T,
    text: &str,
) -> Result<(), Fail> {
    let printed = format!(in alloc; "{}", shown)?;
    assert!(rt; printed.as_str() == text, "{printed} in place of {text}");
    Ok(())
}

/// Each fault prints. That it prints these words and no others is proved; that it prints at all is not.
#[test]
fn faults_print(rt: HostRuntime) -> Result<(), Fail> {
    let alloc = rt.alloc();
    let size = "a pool's size is 1 to 2000";
    assert_text(&rt, alloc, &PoolFault::BadSize, size)?;
    assert_text(&rt, alloc, &OpenFault::BadName, "this is no name")?;
    assert_text(&rt, alloc, &EdgeFault::Cycle, "a cycle of filters")
}

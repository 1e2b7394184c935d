//! Each fault of the engine and of a session prints. That it prints these words and no others is proved; that it prints
//! at all is not.

use node_table::ClientId;
use seq_engine::EngineFault;
use seq_session::SessionFault;
use std::alloc::Global;
use std::fmt;
use std::process::Abort;
use std::test::Fail;

fn check_text<T: fmt::Display>(
    rt: &impl Abort,
    alloc: Global,
    shown: &T,
    text: &str,
) -> Result<(), Fail> {
    assert!(rt; format!(in alloc; "{}", shown)?.as_str() == text);
    Ok(())
}

#[test]
fn faults_print(rt: HostRuntime) -> Result<(), Fail> {
    let alloc = rt.alloc();
    let client = ClientId::new(191).ok_or("a client number")?;
    let failed = "an earlier call found no memory";
    let unread = "the script of client 191 cannot be read";
    let unwritten = "the log of client 191 cannot be written";
    check_text(&rt, alloc, &EngineFault::Failed, failed)?;
    check_text(&rt, alloc, &SessionFault::Read { client }, unread)?;
    check_text(&rt, alloc, &SessionFault::Write { client }, unwritten)?;
    check_text(
        &rt,
        alloc,
        &SessionFault::WriteListing,
        "the listing cannot be written",
    )
}

//! Each fault prints. That it prints these words and no others is proved; that it prints at all is not.

use byte_io::{DeviceFault, OutOfMemory, SinkFault};
use midi_wire::WireFault;
use smf_files::{QuantityFault, TracksFault, WriteFault};
use smf_grammar::{ChunkFault, PairFault};
use std::alloc::Global;
use std::fmt;
use std::process::Abort;
use std::test::Fail;
use tempo_clock::MapFault;

fn check_text<T: fmt::Display>(
    rt: &impl Abort,
    alloc: Global,
    shown: &T,
    text: &str,
) -> Result<(), Fail> {
    assert!(rt; format!(in alloc; "{}", shown)?.as_str() == text);
    Ok(())
}

fn check_devices(rt: &impl Abort, alloc: Global) -> Result<(), Fail> {
    let nothing = SinkFault::TookNothing;
    check_text(rt, alloc, &OutOfMemory, "out of memory")?;
    check_text(rt, alloc, &DeviceFault::Broken, "the device is broken")?;
    check_text(rt, alloc, &nothing, "the device took no byte")
}

fn check_files(rt: &impl Abort, alloc: Global) -> Result<(), Fail> {
    let event = WriteFault::BadEvent { index: 3 };
    let pair = TracksFault::BadPair { track: 1, pair: 2 };
    check_text(rt, alloc, &QuantityFault::Short, "the quantity is cut")?;
    check_text(rt, alloc, &PairFault::NoStatus, "no running status")?;
    check_text(rt, alloc, &ChunkFault::Missing, "no chunk")?;
    check_text(rt, alloc, &event, "event 3 can't be written")?;
    check_text(rt, alloc, &pair, "pair 2 of track 1 can't be written")
}

#[test]
fn faults_print(rt: HostRuntime) -> Result<(), Fail> {
    let alloc = rt.alloc();
    let failed = "an earlier call found no memory";
    check_devices(&rt, alloc)?;
    check_files(&rt, alloc)?;
    check_text(&rt, alloc, &WireFault::Failed, failed)?;
    check_text(&rt, alloc, &MapFault::BadMap, "no tempo map")
}

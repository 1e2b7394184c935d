//! The calls that a session is made of.

ghost use Rattle.std.specs.Prelude.{◌≡◌, IfOk};
ghost use Rattle.seq_session.specs.Merging.{sorted_inputs};

use super::queues::{EARLIER, EQUAL_MOMENTS, LATER, OF_BOTH};
use super::session::{Part, assert_text};
use agenda_heap::HeapAgenda;
use node_table::ClientId;
use seq_engine::{is_timed, run};
use seq_session::*;
use std::alloc::Global;
use std::process::Abort;
use std::test::Fail;

#[test]
fn wants_a_name_for_each_file(rt: HostRuntime) -> Result<(), Fail> {
    let names = [Vec::from_slice(rt.alloc(), b"m.mid")?];
    assert!(rt; NamedFiles::new(&names, &[]).is_none());
    Ok(())
}

/// The reading of a script, for a run without files.
fn read(alloc: Global, part: &Part, until: u64) -> Result<ScriptRead, Fail>
    ensures { IfOk result (λ r. sorted_inputs r.inputs ≡ r.inputs) }
{
    let client = ClientId::new(part.client).ok_or("a client number")?;
    let files = NamedFiles::new(&[], &[]).ok_or("no files")?;
    Ok(parse_script(alloc, client, part.script.as_bytes(), &files, until)?)
}

#[test]
fn merges_by_moment(rt: HostRuntime) -> Result<(), Fail> {
    let alloc = rt.alloc();
    let until = EQUAL_MOMENTS.until;
    let reads = [
        read(alloc, &LATER, until)?,
        read(alloc, &OF_BOTH, until)?,
        read(alloc, &EARLIER, until)?,
    ];
    let merged = merge(alloc, &reads)?;
    assert!(rt; merged.lines.as_slice() == [1, 2, 3, 4, 1, 2, 3, 1, 2, 3, 4, 4, 5, 5].as_slice());
    assert_log(&rt, alloc, &reads[1], &merged, OF_BOTH.log)
}

/// The log of a client in the run of a merged list.
fn assert_log(
    rt: &impl Abort,
    alloc: Global,
    read: &ScriptRead,
    merged: &Merged,
    log: &str,
) -> Result<(), Fail> {
    let until = EQUAL_MOMENTS.until;
    let inputs = merged.inputs.as_slice();
    assert!(rt; is_timed(inputs, until));
    let run = run(alloc, &[], HeapAgenda::new(alloc), inputs, until)?;
    let text = log_text(alloc, read, merged, &run)?;
    assert_text(rt, text.as_slice(), log);
    Ok(())
}

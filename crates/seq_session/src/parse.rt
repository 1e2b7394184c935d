//! The reading of a client's script.

ghost use Rattle.std.specs.Prelude.{◌≡◌, map, IfOk, OnOk};
ghost use Rattle.script_text.specs.Scripts.{script};
ghost use Rattle.seq_session.specs.AllLogs.{clients_read};
ghost use Rattle.seq_session.specs.Merging.{sorted_inputs, AreSorted};
ghost use Rattle.seq_session.specs.Sessions.{script_reading, script_clients};

use crate::named_files::NamedFiles;
use crate::source::Script;
use memory::OutOfMemory;
use node_table::ClientId;
use script_text::ScriptRead;
use std::alloc::Global;

/// The reading of a client's script, for a run that has these files and ends at `until`.
pub fn parse_script(
    alloc: Global,
    client: ClientId,
    text: &[u8],
    files: &NamedFiles<'_, '_>,
    until: u64,
) -> Result<ScriptRead, OutOfMemory>
    ensures reading { IfOk result (λ r. r ≡ script client files.now.names until text.now) }
    ensures sorted { IfOk result (λ r. sorted_inputs r.inputs ≡ r.inputs) }
{
    script_text::parse_script(alloc, client, text, files.names(), until)
}

/// The readings of the scripts of a session that has these files and ends at `until`.
pub fn parse_all(
    alloc: Global,
    scripts: &[Script],
    files: &NamedFiles<'_, '_>,
    until: u64,
) -> Result<Vec<ScriptRead>, OutOfMemory>
    ensures readings { IfOk result (λ rs. rs.items ≡ map (script_reading files.now until) scripts.now) }
{
    let mut reads = Vec::new(alloc);
    for one in scripts {
        reads.push(parse_script(alloc, one.client, one.text.as_slice(), files, until)?)?;
    }
    Ok(reads)
}

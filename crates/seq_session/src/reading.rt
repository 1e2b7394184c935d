//! The scripts of a session, read from their devices.

ghost use Rattle.std.specs.Prelude.{◌≡◌, ◌++◌, false, is_some, IfOk, OnOk, IfErr, IfSome};
ghost use Rattle.seq_session.specs.Rising.{AreRising};
ghost use Rattle.seq_session.specs.Sessions.{script_clients};
ghost use Rattle.seq_session.specs.Devices.{clients, AreSound, IsRead, ReadsOn, reader_blamed, ReadersTell, IsAmong, IsReading};

use crate::fault::SessionFault;
use crate::source::{Script, ScriptSource};
use byte_io::{Source, read_to};
use memory::Items;
use script_text::MOST_SCRIPT;
use std::alloc::Global;

/// Reads one script.
fn read_one<R: Source>(alloc: Global, source: &mut ScriptSource<R>) -> Result<Script, SessionFault>
    requires sound { R.failed source.old.reader ≡ false }
    ensures read { IfOk result (λ s. IsRead R.HasLeft source.old source.new s) }
    ensures client { source.new.client ≡ source.old.client }
    ensures mark { R.failed source.new.reader ≡ is_some (reader_blamed result) }
    ensures blamed { IfSome (reader_blamed result) (λ k. k ≡ source.old.client) }
    ensures only { IfErr result IsReading }
{
    match read_to(alloc, &mut source.reader, MOST_SCRIPT + 1) {
        Ok(text) => Ok(Script {
            client: source.client,
            text: Items::new(text),
        }),
        Err(_) => {
            if source.reader.has_failed() {
                return Err(SessionFault::Read {
                    client: source.client,
                });
            }
            Err(SessionFault::OutOfMemory)
        }
    }
}

/// Reads the scripts in order, and puts them after those that were read before.
pub(crate) fn read_all<R: Source>(
    alloc: Global,
    sources: &mut [ScriptSource<R>],
    scripts: &mut Vec<Script>,
) -> Result<(), SessionFault>
    requires rising { AreRising (clients sources.old) }
    requires sound { AreSound R.failed sources.old }
    ensures read { OnOk result
        (ReadsOn R.HasLeft sources.old sources.new scripts.old.items scripts.new.items) }
    ensures of_clients { OnOk result
        (script_clients scripts.new.items
        ≡ script_clients scripts.old.items ++ clients sources.old) }
    ensures clients { clients sources.new ≡ clients sources.old }
    ensures marks { ReadersTell R.failed (reader_blamed result) sources.new }
    ensures blamed { IfSome (reader_blamed result) (λ k. IsAmong k (clients sources.old)) }
    ensures only { IfErr result IsReading }
{
    let Some((first, more)) = sources.split_first_mut() else {
        return Ok(());
    };
    scripts.push(read_one(alloc, first)?)?;
    read_all(alloc, more, scripts)
}

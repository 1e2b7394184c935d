//! Where the scripts of a session come from.

ghost use Rattle.std.specs.Prelude.{◌↔◌, IsTrue};
ghost use Rattle.seq_session.specs.Rising.{AreRising};
ghost use Rattle.seq_session.specs.Devices.{clients, AreSound, AreOpen};

use byte_io::{Sink, Source};
use memory::Items;
use node_table::ClientId;

/// A client, and the device that its script is read from.
#[derive(Drop)]
pub struct ScriptSource<R> {
    pub client: ClientId,
    pub reader: R,
}

/// A client's script, as it was read.
#[derive(Drop)]
pub struct Script {
    pub client: ClientId,
    pub text: Items<u8>,
}

/// Whether each client's number is above the one before, as `stream_sessions` and `run_scripts` ask.
pub fn clients_rise<R>(scripts: &[ScriptSource<R>]) -> bool
    ensures { IsTrue result ↔ AreRising (clients scripts.now) }
{
    let Some((first, more)) = scripts.split_first() else {
        return true;
    };
    let mut low = first.client.number();
    for source in more {
        let client = source.client.number();
        if client <= low {
            return false;
        }
        low = client;
    }
    true
}

/// Whether no reader has failed, as `stream_sessions` and `run_scripts` ask.
pub fn readers_are_sound<R: Source>(scripts: &[ScriptSource<R>]) -> bool
    ensures { IsTrue result ↔ AreSound R.failed scripts.now }
{
    match scripts.split_first() {
        Some((first, more)) => !first.reader.has_failed() && readers_are_sound(more),
        None => true,
    }
}

/// Whether no log has failed, as `stream_sessions` asks.
pub fn logs_are_open<W: Sink>(logs: &[W]) -> bool
    ensures { IsTrue result ↔ AreOpen W.failed logs.now }
{
    match logs.split_first() {
        Some((first, more)) => !first.has_failed() && logs_are_open(more),
        None => true,
    }
}

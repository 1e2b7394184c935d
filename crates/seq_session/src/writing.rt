//! The logs of a session, written to their devices.

ghost use Rattle.std.specs.Prelude.{◌≡◌, false, is_err, map, length, OnOk, OnErr, IfErr, IfSome, IsSome};
ghost use Rattle.byte_io.specs.Moved.{Took, TookPart};
ghost use Rattle.seq_session.specs.Rising.{AreRising};
ghost use Rattle.seq_session.specs.Sessions.{script_clients};
ghost use Rattle.seq_session.specs.Devices.{Wrote, WroteUpTo, IsTold, LogsTell, log_of_fault, log_blamed, IsAmong, AreOpen};

use crate::fault::SessionFault;
use crate::source::Script;
use byte_io::{Sink, write_all};
use node_table::ClientId;

/// Writes the log of a client.
fn write_one<W: Sink>(client: ClientId, log: &mut W, text: &[u8]) -> Result<(), SessionFault>
    requires sound { W.failed log.old ≡ false }
    ensures written { OnOk result (Took W.HasTaken log.old text.now log.new) }
    ensures part { OnErr result (TookPart W.HasTaken log.old text.now log.new) }
    ensures mark { IsTold (W.failed log.new) (W.takes_some log.new) (is_err result) }
    ensures fault { IfErr result (λ e. e ≡ SessionFault.Write client) }
{
    if write_all(log, text).is_err() {
        return Err(SessionFault::Write { client });
    }
    Ok(())
}

/// Writes the listing.
pub(crate) fn write_listing<W: Sink>(listing: &mut W, text: &[u8]) -> Result<(), SessionFault>
    requires sound { W.failed listing.old ≡ false }
    ensures written { OnOk result (Took W.HasTaken listing.old text.now listing.new) }
    ensures part { OnErr result (TookPart W.HasTaken listing.old text.now listing.new) }
    ensures mark { IsTold (W.failed listing.new) (W.takes_some listing.new) (is_err result) }
    ensures fault { IfErr result (λ e. e ≡ SessionFault.WriteListing) }
{
    if write_all(listing, text).is_err() {
        return Err(SessionFault::WriteListing);
    }
    Ok(())
}

/// Writes the logs in order. The scripts tell whose they are.
pub(crate) fn write_logs<W: Sink>(
    scripts: &[Script],
    logs: &mut [W],
    texts: &[Vec<u8>],
) -> Result<(), SessionFault>
    requires rising { AreRising (script_clients scripts.now) }
    requires logs { length logs.old ≡ length scripts.now }
    requires texts { length texts.now ≡ length scripts.now }
    requires sound { AreOpen W.failed logs.old }
    ensures wrote { OnOk result
        (Wrote W.HasTaken logs.old logs.new (map (λ t. t.items) texts.now)) }
    ensures part { IfSome (log_blamed result) (λ k. WroteUpTo W.HasTaken k
        (script_clients scripts.now) logs.old logs.new (map (λ t. t.items) texts.now)) }
    ensures marks { LogsTell W.failed W.takes_some (log_blamed result)
        (script_clients scripts.now) logs.new }
    ensures blamed { IfSome (log_blamed result) (λ k. IsAmong k (script_clients scripts.now)) }
    ensures only { IfErr result (λ e. IsSome (log_of_fault e)) }
{
    let Some((log, more)) = logs.split_first_mut() else {
        return Ok(());
    };
    write_one(scripts[0].client, log, texts[0].as_slice())?;
    write_logs(&scripts[1..], more, &texts[1..])
}

//! Tempo entries.

ghost use Rattle.std.specs.Prelude.{◌≡◌, ◌∷◌, [], if◌then◌else◌, IfOk, IfErr, OnOk};
ghost use Rattle.smf_grammar.specs.Contents.{in_order, last_at_each, default_entry};

use smf_grammar::SmfFault;
use std::alloc::Global;
use tempo_clock::TempoEntry;

/// Puts tempos in order of tick; those at one tick stay in their order.
fn sort(tempos: &mut Vec<TempoEntry>) -> Result<(), SmfFault>
    ensures ok { OnOk result (tempos.new.items ≡ in_order (λ e. e.tick) tempos.old.items) }
    ensures err { IfErr result (λ x. x ≡ SmfFault.OutOfMemory) }
{
    match tempos.sort_by_key(|e| e.tick) {
        Ok(()) => Ok(()),
        Err(_) => Err(SmfFault::OutOfMemory),
    }
}

/// Of several at one tick the last.
fn last_at_each(alloc: Global, tempos: &[TempoEntry]) -> Result<Vec<TempoEntry>, SmfFault>
    ensures ok { IfOk result (λ kept. kept.items ≡ last_at_each tempos.now) }
    ensures err { IfErr result (λ x. x ≡ SmfFault.OutOfMemory) }
{
    let mut kept = Vec::new(alloc);
    for i in 0..tempos.len() {
        let entry = tempos[i];
        if tempos.len() - i > 1 && tempos[i + 1].tick == entry.tick {
            continue;
        }
        if kept.push(entry).is_err() {
            return Err(SmfFault::OutOfMemory);
        }
    }
    Ok(kept)
}

/// The entries of a file whose tracks set these tempos, none where its division counts frames.
pub(crate) fn entries_from(
    alloc: Global,
    metrical: bool,
    tempos: Vec<TempoEntry>,
) -> Result<Vec<TempoEntry>, SmfFault>
    ensures ok { IfOk result (λ kept. kept.items
        ≡ (if metrical then last_at_each (default_entry ∷ in_order (λ e. e.tick) tempos.items)
        else [])) }
    ensures err { IfErr result (λ x. x ≡ SmfFault.OutOfMemory) }
{
    let mut tempos = tempos;
    if !metrical {
        return Ok(Vec::new(alloc));
    }
    sort(&mut tempos)?;
    let default_entry = TempoEntry {
        tick: 0,
        tempo: 500_000,
    };
    if tempos.insert(0, default_entry).is_err() {
        return Err(SmfFault::OutOfMemory);
    }
    last_at_each(alloc, tempos.as_slice())
}

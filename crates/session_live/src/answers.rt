//! The answers to lines.

ghost use Rattle.std.specs.Prelude.{◌≡◌, ◌≤◌, ◌∷◌, ◌++◌, [], map, None, Some, OnOk};
ghost use Rattle.seq_settle.specs.Next.{next_moment};
ghost use Rattle.seq_state.specs.Step.{step, settle};
ghost use Rattle.session_live.specs.Answers.{ended, part_text, parts_text};
ghost use Rattle.session_live.specs.Answers as part;
ghost use Rattle.session_live.specs.Lines.{Heard};
ghost use Rattle.session_live.specs.Talk.{counted, next_number, AreCounts};

use crate::heard::HeardLines;
use crate::parts::{Writer, push_fronted, push_next};
use agenda_heap::Agenda;
use memory::OutOfMemory;
use node_table::ClientId;
use script_text::SkipReason;
use seq_engine::Engine;
use seq_state::Input;

/// Adds when something is due next, with which each answer ends.
fn end<A: Agenda>(engine: &mut Engine<'_, '_, A>, text: &mut Vec<u8>) -> Result<(), OutOfMemory>
    ensures engine { engine.new ≡ engine.old }
    ensures text { OnOk result (text.new.items
        ≡ text.old.items ++ part_text (part.Next (next_moment engine.old.state))) }
{
    let Ok(moment) = engine.next_due() else {
        return Err(OutOfMemory);
    };
    push_next(text, moment)
}

/// Skips a line that names this client, or none.
pub(crate) fn skip<A: Agenda>(
    engine: &mut Engine<'_, '_, A>,
    heard: &mut HeardLines,
    writer: &mut Writer,
    client: &Option<ClientId>,
    why: SkipReason,
    text: &mut Vec<u8>,
) -> Result<(), OutOfMemory>
    ensures engine { OnOk result (engine.new ≡ engine.old) }
    ensures counts { (h : Heard) → AreCounts heard.old.said heard.old.loose h →
        OnOk result (AreCounts heard.new.said heard.new.loose (counted h client.now)) }
    ensures text { (h : Heard) → AreCounts heard.old.said heard.old.loose h →
        OnOk result (text.new.items ≡ text.old.items ++ parts_text
        (ended (part.Skips client.now (next_number h client.now) why ∷ []) engine.old.state)) }
{
    let number = heard.count(client)?;
    writer.push_skipped(text, client, number, why)?;
    end(engine, text)
}

/// Takes an input.
pub(crate) fn take<A: Agenda>(
    engine: &mut Engine<'_, '_, A>,
    heard: &mut HeardLines,
    writer: &mut Writer,
    input: &Input,
    text: &mut Vec<u8>,
) -> Result<(), OutOfMemory>
    requires { engine.old.moment ≤ input.now.moment }
    ensures files { OnOk result (engine.new.files ≡ engine.old.files) }
    ensures state { OnOk result
        (engine.new.state ≡ (step engine.old.files engine.old.state input.now).state) }
    ensures moment { OnOk result (engine.new.moment ≡ input.now.moment) }
    ensures counts { (h : Heard) → AreCounts heard.old.said heard.old.loose h →
        OnOk result (AreCounts heard.new.said heard.new.loose (counted h (Some input.now.actor))) }
    ensures text { (h : Heard) → AreCounts heard.old.said heard.old.loose h →
        let n = next_number h (Some input.now.actor) in
        let out = step engine.old.files engine.old.state input.now in
        OnOk result (text.new.items ≡ text.old.items ++ parts_text
        (ended (map part.Comes out.delivered ++ part.Answers n input.now out.reply ∷ [])
        out.state)) }
{
    let number = heard.count(&Some(input.actor))?;
    // No run has so many inputs.
    if engine.steps() >= u64::MAX - 1 {
        return Err(OutOfMemory);
    }
    let Ok(out) = engine.step(input) else {
        return Err(OutOfMemory);
    };
    writer.push_comes(text, out.delivered.as_slice())?;
    writer.push_answer(text, input.actor, input.moment, number, &out.reply)?;
    end(engine, text)
}

/// Lets time pass up to a moment, in nanoseconds.
pub(crate) fn wait<A: Agenda>(
    engine: &mut Engine<'_, '_, A>,
    heard: &mut HeardLines,
    writer: &mut Writer,
    moment: u64,
    text: &mut Vec<u8>,
) -> Result<(), OutOfMemory>
    requires { engine.old.moment ≤ moment }
    ensures files { OnOk result (engine.new.files ≡ engine.old.files) }
    ensures state { OnOk result (engine.new.state ≡ (settle engine.old.state moment).state) }
    ensures moment { OnOk result (engine.new.moment ≡ moment) }
    ensures counts { (h : Heard) → AreCounts heard.old.said heard.old.loose h →
        OnOk result (AreCounts heard.new.said heard.new.loose (counted h None)) }
    ensures text { let out = settle engine.old.state moment in
        OnOk result (text.new.items ≡ text.old.items ++ parts_text
        (ended (map part.Comes out.delivered) out.state)) }
{
    heard.count(&None)?;
    let Ok(delivered) = engine.settle(moment) else {
        return Err(OutOfMemory);
    };
    writer.push_comes(text, delivered.as_slice())?;
    end(engine, text)
}

/// Adds the listing.
pub(crate) fn list<A: Agenda>(
    engine: &mut Engine<'_, '_, A>,
    heard: &mut HeardLines,
    text: &mut Vec<u8>,
) -> Result<(), OutOfMemory>
    ensures engine { OnOk result (engine.new ≡ engine.old) }
    ensures counts { (h : Heard) → AreCounts heard.old.said heard.old.loose h →
        OnOk result (AreCounts heard.new.said heard.new.loose (counted h None)) }
    ensures text { OnOk result (text.new.items ≡ text.old.items ++ parts_text
        (ended (part.Lists engine.old.state ∷ []) engine.old.state)) }
{
    heard.count(&None)?;
    let Ok(listing) = engine.listing() else {
        return Err(OutOfMemory);
    };
    push_fronted(text, b"list ", listing.as_slice())?;
    end(engine, text)
}

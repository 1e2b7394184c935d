//! What a run loses.

ghost use Rattle.std.specs.Prelude.{◌≡◌, ◌++◌, OnOk};
ghost use Rattle.std.specs.List.{flat_map};
ghost use Rattle.seq_engine.specs.Losses.{all_losses, loss_in};

use crate::engine::Engine;
use agenda_heap::Agenda;
use memory::OutOfMemory;
use node_table::{ClientId, FIRST_CLIENT, LAST_CLIENT};

/// Messages that found no room in the input pool of a client.
#[derive(Clone, Copy, Debug, PartialEq, Eq)]
pub struct Loss {
    pub client: ClientId,
    /// How many they were; the count stays at 2^64 - 1.
    pub messages: u64,
}

/// Adds what a client has lost since it opened, if it has.
pub(crate) fn add_loss<A: Agenda>(
    engine: &Engine<'_, '_, A>,
    client: ClientId,
    losses: &mut Vec<Loss>,
) -> Result<(), OutOfMemory>
    ensures { OnOk result (losses.new.items ≡ losses.old.items ++ loss_in engine.now.state client) }
{
    let messages = engine.lost(client);
    if messages > 0 {
        losses.push(Loss { client, messages })?;
    }
    Ok(())
}

/// Adds what the clients have lost that are open, by number.
pub(crate) fn add_losses<A: Agenda>(
    engine: &Engine<'_, '_, A>,
    losses: &mut Vec<Loss>,
) -> Result<(), OutOfMemory>
    ensures { OnOk result (losses.new.items ≡ losses.old.items ++ all_losses engine.now.state) }
{
    for number in FIRST_CLIENT..LAST_CLIENT + 1 {
        let client = ClientId::new(number).unwrap();
        add_loss(engine, client, losses)?;
    }
    Ok(())
}

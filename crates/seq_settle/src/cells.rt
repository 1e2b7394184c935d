//! The cells of all playbacks.

ghost use Rattle.std.specs.Prelude.{◌≡◌, ℕ, List, [], ◌∷◌, None, Some, IsSome, IsTrue, IfOk, OnOk};
ghost use Rattle.std.specs.FinMap as map;
ghost use Rattle.std.specs.Option.{option_map};
ghost use Rattle.cell_pools.specs.Cells.{size_of, client_at, IsTaken};
ghost use Rattle.seq_state.specs.State.{DueMessage};
ghost use Rattle.seq_settle.specs.Cells.{PlaybackCell, with_rest};
ghost use Rattle.seq_settle.specs.Sends.{head_of, IsFirstOf, IsWithoutFirst};

use crate::head::{PlaybackHead, PoppedMessage};
use crate::playback::Playback;
use cell_pools::{CellKey, CellStore};
use memory::OutOfMemory;
use node_table::ClientId;

/// The playbacks of all clients, each in a cell.
pub type Cells<'b> = CellStore<Playback<'b>>;

/// What the cell under a key says of itself.
pub(crate) fn head_at(cells: &CellStore<Playback<'_>>, key: CellKey) -> Option<PlaybackHead>
    ensures { result ≡ option_map head_of (map.get cells.now.cells key) }
{
    let client = cells.client_of(key)?;
    let playing = cells.get(key)?;
    Some(playing.head(client))
}

/// Takes the first event off a cell, and drops the cell where it was the last.
pub(crate) fn pop_first(
    cells: &mut CellStore<Playback<'_>>,
    key: CellKey,
) -> Result<Option<PoppedMessage>, OutOfMemory>
    ensures event { IfOk result (λ r. IsFirstOf cells.old.cells key r) }
    ensures rest { OnOk result (IsWithoutFirst cells.old.cells key cells.new.cells) }
    ensures sizes { OnOk result ((client : ℕ) →
        size_of cells.new client ≡ size_of cells.old client) }
{
    let Some(client) = cells.client_of(key) else {
        return Ok(None);
    };
    let Some(popped) = next_of(cells, key, client)? else {
        return Ok(None);
    };
    drop_spent(cells, key, &popped.head);
    Ok(Some(popped))
}

/// Takes a cell whose only event is a message that was scheduled, with that.
#[inline(always)]
pub(crate) fn pop_scheduled(
    cells: &mut CellStore<Playback<'_>>,
    key: CellKey,
) -> Result<Option<PoppedMessage>, OutOfMemory>
    ensures event { IfOk result (λ r. IsSome r → IsFirstOf cells.old.cells key r) }
    ensures rest { IfOk result (λ r. IsSome r →
        IsWithoutFirst cells.old.cells key cells.new.cells) }
    ensures last { IfOk result (λ r. (p : PoppedMessage) → r ≡ Some p → p.head.due ≡ None) }
    ensures none { IfOk result (λ r. r ≡ None → cells.new ≡ cells.old) }
    ensures sizes { OnOk result ((client : ℕ) →
        size_of cells.new client ≡ size_of cells.old client) }
{
    if !is_scheduled_at(cells, key) {
        return Ok(None);
    }
    let Some((client, playing)) = cells.take_owned(key) else {
        unreachable!()
    };
    Ok(Some(playing.into_popped(client)?))
}

/// Whether a cell is there whose only event is a message that was scheduled.
#[inline(always)]
fn is_scheduled_at(cells: &CellStore<Playback<'_>>, key: CellKey) -> bool
    ensures there { IsTrue result → IsSome (map.get cells.now.cells key) }
    ensures alone { IsTrue result → (c : PlaybackCell) → map.get cells.now.cells key ≡ Some c →
        (e : DueMessage) × (c.1.events ≡ e ∷ []) }
{
    match cells.get(key) {
        Some(playing) => playing.is_scheduled(),
        None => false,
    }
}

/// Drops a cell that has no event left.
fn drop_spent(cells: &mut CellStore<Playback<'_>>, key: CellKey, head: &PlaybackHead)
    ensures spent { head.now.due ≡ None → IsTaken cells.old cells.new key }
    ensures left { IsSome head.now.due → cells.new ≡ cells.old }
{
    if head.due.is_none() {
        drop_cell(cells, key);
    }
}

/// Drops a cell, if it is there.
#[inline(always)]
pub(crate) fn drop_cell(cells: &mut CellStore<Playback<'_>>, key: CellKey)
    ensures { IsTaken cells.old cells.new key }
{
    cells.take(key);
}

/// Takes the first event of a cell.
///
/// It is passed whose the cell is, since the store cannot be asked that while it lends the cell.
fn next_of(
    cells: &mut CellStore<Playback<'_>>,
    key: CellKey,
    client: ClientId,
) -> Result<Option<PoppedMessage>, OutOfMemory>
    requires { client_at cells.old key ≡ Some client }
    ensures event { IfOk result (λ r. IsFirstOf cells.old.cells key r) }
    ensures rest { OnOk result ((c : PlaybackCell) (e : DueMessage) (es : List DueMessage) →
        map.get cells.old.cells key ≡ Some c
        → c.1.events ≡ e ∷ es →
        cells.new.cells ≡ map.insert cells.old.cells key (c.0, with_rest c.1 es)) }
    ensures sizes { OnOk result ((other : ℕ) →
        size_of cells.new other ≡ size_of cells.old other) }
{
    match cells.get_mut(key) {
        Some(playing) => playing.pop_first(client),
        None => Ok(None),
    }
}

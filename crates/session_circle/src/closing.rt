//! Whether the circle round a client is closed in one session, strangers' scripts among those that are run.

ghost use Rattle.std.specs.Prelude.{◌≡◌, ◌≢◌, ◌==◌, ◌≤◌, ◌<◌, ◌+◌, ◌-◌, ◌^◌, ◌↔◌, ℕ, not, ◌&&◌, None, IsTrue, IfOk, OnOk};
ghost use Rattle.std.specs.List.{list_any};
ghost use Rattle.seq_state.specs.Step.{step, IsTimed, IsRefusal};
ghost use Rattle.seq_state.specs.Circle.{IsClosed};
ghost use Rattle.seq_engine.specs.Begun.{seen_at_start};
ghost use Rattle.seq_circle.specs.Least.{is_member, IsLeastCircle};
ghost use Rattle.seq_session.specs.Merging.{inputs_of};
ghost use Rattle.seq_session.specs.Sessions.{session};
ghost use Rattle.session_circle.specs.Closing.{aims_inside, reaches_in, IsFirstReach, SeesMembersAlone, IsLogOfMembers};

use crate::circle::SessionCircle;
use agenda_heap::{Agenda, HeapAgenda};
use memory::OutOfMemory;
use node_table::ClientId;
use seq_circle::{Joined, is_inner, target_of};
use seq_engine::Engine;
use seq_session::{NamedFiles, Script};
use seq_state::{Command, Input, Reply};
use std::alloc::Global;

fn has_joined(joined: &[Joined], client: ClientId) -> bool
    ensures { result ≡ list_any (λ j. j.client == client) joined.now }
{
    joined.iter().any(|j| j.client == client)
}

fn is_member(owner: ClientId, joined: &[Joined], client: ClientId) -> bool
    ensures { result ≡ is_member owner joined.now client }
{
    client == owner || has_joined(joined, client)
}

/// Whether a command joins or parts at a target inside.
fn aims_inside(owner: ClientId, joined: &[Joined], command: &Command) -> bool
    ensures { result ≡ aims_inside owner (is_member owner joined.now) command.now }
{
    match target_of(command) {
        Some(target) => is_inner(owner, &target, is_member(owner, joined, target.client)),
        None => false,
    }
}

/// Whether a stranger joins or parts at a target inside.
fn reaches_in(owner: ClientId, joined: &[Joined], input: &Input) -> bool
    ensures { result ≡ reaches_in owner (is_member owner joined.now) input.now }
{
    !is_member(owner, joined, input.actor) && aims_inside(owner, joined, &input.command)
}

fn is_refusal(reply: &Reply) -> bool
    ensures { IsTrue result ↔ IsRefusal reply.now }
{
    match reply {
        Reply::Refused(_) => true,
        Reply::Done
        | Reply::Messages(_)
        | Reply::Queue { .. }
        | Reply::Received(_)
        | Reply::Pools { .. } => false,
    }
}

/// Whether a stranger joins or parts at a target inside, and is not refused.
fn is_reached(owner: ClientId, joined: &[Joined], input: &Input, refused: bool) -> bool
    ensures { result ≡ (not refused && reaches_in owner (is_member owner joined.now) input.now) }
{
    !refused && reaches_in(owner, joined, input)
}

/// Takes an input, and says whether it is refused.
fn refuses<A: Agenda>(engine: &mut Engine<'_, '_, A>, input: &Input) -> Result<bool, OutOfMemory>
    requires in_time { engine.old.moment ≤ input.now.moment }
    requires counted { engine.old.steps < 2 ^ 64 - 1 }
    ensures state { OnOk result (engine.new ≡ record engine.old {
      state = (step engine.old.files engine.old.state input.now).state;
      moment = input.now.moment;
      steps = engine.old.steps + 1;
    }) }
    ensures refused { IfOk result (λ b. IsTrue b
        ↔ IsRefusal (step engine.old.files engine.old.state input.now).reply) }
{
    match engine.step(input) {
        Ok(out) => Ok(is_refusal(&out.reply)),
        Err(_) => Err(OutOfMemory),
    }
}

/// Takes the inputs in order, up to the first by which a stranger reaches in.
// The engine is lent, so that it is dropped in one place.
fn first_reach_on<A: Agenda>(
    engine: &mut Engine<'_, '_, A>,
    owner: ClientId,
    joined: &[Joined],
    inputs: &[Input],
) -> Result<Option<usize>, OutOfMemory>
    requires timed { (end : ℕ) × IsTimed inputs.now end }
    requires begun { engine.old ≡ seen_at_start engine.old.files }
    ensures { IfOk result (λ first. IsFirstReach engine.old.files owner
        (is_member owner joined.now) inputs.now first) }
{
    for (place, input) in inputs.iter().enumerate() {
        let refused = refuses(engine, input)?;
        if is_reached(owner, joined, input, refused) {
            return Ok(Some(place));
        }
    }
    Ok(None)
}

/// The place of the first input by which a stranger reaches into the circle, as `circle_of_scripts` found it, where
/// these very scripts are run with the same files up to the same end; none where the circle is closed in this session.
pub fn first_reach(
    alloc: Global,
    owner: ClientId,
    scripts: &[Script],
    files: &NamedFiles<'_, '_>,
    until: u64,
    found: &SessionCircle,
) -> Result<Option<usize>, OutOfMemory>
    requires inputs { found.now.merged.inputs ≡ inputs_of (session files.now until scripts.now) }
    requires least { IsLeastCircle owner found.now.merged.inputs found.now.circle.joined.items }
    ensures first { IfOk result (λ first. IsFirstReach files.now.files owner
        (is_member owner found.now.circle.joined.items) found.now.merged.inputs first) }
    ensures closed { IfOk result (λ first. first ≡ None → IsClosed files.now.files owner
        (is_member owner found.now.circle.joined.items) found.now.merged.inputs) }
    ensures not_closed { IfOk result (λ first. first ≢ None → IsClosed files.now.files owner
        (is_member owner found.now.circle.joined.items) found.now.merged.inputs → ⊥) }

    // Where it is closed, the owner sees what it sees of the run of the members' inputs alone, and so does its log.
    ensures isolated { IfOk result (λ first. first ≡ None → SeesMembersAlone files.now.files owner
        (is_member owner found.now.circle.joined.items) found.now.merged.inputs until) }
    ensures alone { IfOk result (λ first. first ≡ None → IsLogOfMembers files.now until scripts.now
        owner (is_member owner found.now.circle.joined.items)) }
{
    let mut engine = Engine::new(alloc, files.files(), HeapAgenda::new(alloc));
    first_reach_on(
        &mut engine,
        owner,
        found.circle.joined.as_slice(),
        found.merged.inputs.as_slice(),
    )
}

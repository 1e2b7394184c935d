//! The inputs that may matter to a circle, whoever its members are.

ghost use Rattle.std.specs.Prelude.{◌≡◌, ◌++◌, IfOk, OnOk};
ghost use Rattle.seq_state.specs.Table.{queue_named};
ghost use Rattle.seq_circle.specs.Least.{place_if, places_where};
ghost use Rattle.seq_circle.specs.Mending.{making_of};
ghost use Rattle.seq_circle.specs.Mattering.{is_joinable_made, is_of_another, matters};

use crate::asking::{is_joinable, making_of, queue_named, target_of};
use memory::OutOfMemory;
use node_table::ClientId;
use seq_state::{Command, Input};
use std::alloc::Global;

/// Whether a command makes a node that anyone may join.
fn makes_joinable(command: &Command) -> bool
    ensures { result ≡ is_joinable_made (making_of command.now) }
{
    match making_of(command) {
        Some(made) => is_joinable(made.caps),
        None => false,
    }
}

/// Whether a command names a queue of another client than the actor. One that names the actor's own asks for the
/// actor, who is there already where it counts.
fn names_anothers_queue(actor: ClientId, command: &Command) -> bool
    ensures { result ≡ is_of_another actor (queue_named command.now) }
{
    match queue_named(command) {
        Some(queue) => queue.client != actor,
        None => false,
    }
}

/// Whether an input can ask for a client, leave a circle open or reach out of one: most can't.
fn matters(input: &Input) -> bool
    ensures { result ≡ matters input.now }
{
    target_of(&input.command).is_some()
        || makes_joinable(&input.command)
        || names_anothers_queue(input.actor, &input.command)
}

/// Adds a place, where its input passes.
pub(crate) fn push_if(
    places: &mut Vec<usize>,
    place: usize,
    passes: bool,
) -> Result<(), OutOfMemory>
    ensures { OnOk result (places.new.items ≡ places.old.items ++ place_if passes place) }
{
    if !passes {
        return Ok(());
    }
    places.push(place)?;
    Ok(())
}

/// The places of the inputs that may matter, rising. They are the same for each owner, so who looks for many circles
/// finds them once.
pub fn places_that_matter(alloc: Global, inputs: &[Input]) -> Result<Vec<usize>, OutOfMemory>
    ensures { IfOk result (λ v. v.items ≡ places_where matters inputs.now) }
{
    let mut places = Vec::new(alloc);
    for (place, input) in inputs.iter().enumerate() {
        push_if(&mut places, place, matters(input))?;
    }
    Ok(places)
}

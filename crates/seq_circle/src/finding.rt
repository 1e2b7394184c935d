//! How the members of the least circle are found.

ghost use Rattle.std.specs.Prelude.{◌≡◌, ◌+◌, ◌<◌, ◌≤◌, [], nat_lt, OnOk, IfOk, length, slice_get, Some};
ghost use Rattle.seq_circle.specs.Finding.{missing_client, found_after, found_after_all, absent_count};
ghost use Rattle.seq_circle.specs.Least.{is_member, IsLeastCircle, places_where};
ghost use Rattle.seq_circle.specs.Mattering.{matters};

use crate::asking::asked_client;
use crate::members::{Joined, Members};
use memory::OutOfMemory;
use node_table::ClientId;
use seq_state::Input;
use std::alloc::Global;

/// The client that an input asks for, where a member says it and that client is not there.
fn missing_client(members: &Members, input: &Input) -> Option<ClientId>
    ensures { result ≡ missing_client members.now.owner members.now.joined.items input.now }
{
    if !members.has(input.actor) {
        return None;
    }
    let client = asked_client(members, &input.command)?;
    if members.has(client) {
        return None;
    }
    Some(client)
}

/// Adds the client that an input asks for, where it is missing.
fn join_missing(members: &mut Members, input: &Input, place: usize) -> Result<(), OutOfMemory>
    ensures owner { members.new.owner ≡ members.old.owner }
    ensures joined { OnOk result (members.new.joined.items
        ≡ found_after members.old.owner members.old.joined.items place input.now) }
    ensures fewer { OnOk result (length members.new.joined.items
        + absent_count members.new.owner members.new.joined.items
        ≤ length members.old.joined.items
        + absent_count members.old.owner members.old.joined.items) }
{
    let Some(client) = missing_client(members, input) else {
        return Ok(());
    };
    members.join(Joined { client, place })
}

/// Goes once over the inputs that may matter, and adds whom they ask for: no other asks for anyone who is missing. Says
/// whether anyone was added.
fn join_all(members: &mut Members, inputs: &[Input], places: &[usize]) -> Result<bool, OutOfMemory>
    requires { places.now ≡ places_where matters inputs.now }
    ensures owner { members.new.owner ≡ members.old.owner }
    ensures joined { OnOk result (members.new.joined.items
        ≡ found_after_all members.old.owner members.old.joined.items 0 inputs.now) }
    ensures more { IfOk result (λ b. b
        ≡ nat_lt (length members.old.joined.items) (length members.new.joined.items)) }
    ensures fewer { OnOk result (length members.new.joined.items
        + absent_count members.new.owner members.new.joined.items
        ≤ length members.old.joined.items
        + absent_count members.old.owner members.old.joined.items) }
{
    let before = members.joined.len();
    for place in places {
        join_missing(members, &inputs[*place], *place)?;
    }
    Ok(before < members.joined.len())
}

/// The members that a circle round this owner has to have.
pub(crate) fn least_of(
    alloc: Global,
    owner: ClientId,
    inputs: &[Input],
    places: &[usize],
) -> Result<Members, OutOfMemory>
    requires { places.now ≡ places_where matters inputs.now }
    ensures owner { IfOk result (λ m. m.owner ≡ owner) }
    ensures least { IfOk result (λ m. IsLeastCircle owner inputs.now m.joined.items) }
{
    let mut members = Members::new(alloc, owner);
    while join_all(&mut members, inputs, places)? {}
    Ok(members)
}

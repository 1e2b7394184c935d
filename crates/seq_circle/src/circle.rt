//! The least circle of clients round an owner.

ghost use Rattle.std.specs.Prelude.{◌≡◌, ◌≢◌, [], IsTrue, IfOk};
ghost use Rattle.seq_circle.specs.Shut.{is_shut};
ghost use Rattle.seq_circle.specs.Least.{is_member, IsLeastCircle, NoneIsShut, places_where, opens_circle, reaches_out};
ghost use Rattle.seq_circle.specs.Mattering.{matters};

use crate::asking::{aims_outside, opens};
use crate::finding::least_of;
use crate::mattering::{places_that_matter, push_if};
use crate::members::{Joined, Members};
use memory::OutOfMemory;
use node_table::ClientId;
use seq_state::Input;
use std::alloc::Global;

/// The least circle round an owner in which all are whom its members ask for.
#[derive(Drop)]
pub struct Circle {
    /// The members beside the owner, each after one that asks for it.
    pub joined: Vec<Joined>,
    /// The places of the inputs by which a member makes a node inside that anyone may join, rising: none where the
    /// circle is shut.
    pub openings: Vec<usize>,
    /// The places of the owner's inputs that join or part at a target outside, rising: strangers may change what is
    /// answered to these, and to no others where the circle is shut.
    pub apart: Vec<usize>,
}

/// Whether a member makes a node inside that anyone may join.
fn opens_circle(members: &Members, input: &Input) -> bool
    ensures { result ≡ opens_circle members.now.owner members.now.joined.items input.now }
{
    members.has(input.actor) && opens(members.owner, input.actor, &input.command)
}

/// Whether the owner joins or parts at a target outside.
fn reaches_out(members: &Members, input: &Input) -> bool
    ensures { result ≡ reaches_out members.now.owner members.now.joined.items input.now }
{
    input.actor == members.owner && aims_outside(members, &input.command)
}

/// The places of the inputs that leave the circle open.
fn openings_of(
    alloc: Global,
    members: &Members,
    inputs: &[Input],
    places: &[usize],
) -> Result<Vec<usize>, OutOfMemory>
    requires { places.now ≡ places_where matters inputs.now }
    ensures { IfOk result (λ v. v.items
        ≡ places_where (opens_circle members.now.owner members.now.joined.items) inputs.now) }
{
    let mut found = Vec::new(alloc);
    for place in places {
        push_if(&mut found, *place, opens_circle(members, &inputs[*place]))?;
    }
    Ok(found)
}

/// The places of the owner's inputs whose outcome strangers may change.
fn apart_of(
    alloc: Global,
    members: &Members,
    inputs: &[Input],
    places: &[usize],
) -> Result<Vec<usize>, OutOfMemory>
    requires { places.now ≡ places_where matters inputs.now }
    ensures { IfOk result (λ v. v.items
        ≡ places_where (reaches_out members.now.owner members.now.joined.items) inputs.now) }
{
    let mut found = Vec::new(alloc);
    for place in places {
        push_if(&mut found, *place, reaches_out(members, &inputs[*place]))?;
    }
    Ok(found)
}

/// What `circle_of` finds, by the places that `places_that_matter` gives: no other input is looked at. It takes a pass
/// over these for each round of members that ask for others, at most 64, and two more.
pub fn circle_among(
    alloc: Global,
    owner: ClientId,
    inputs: &[Input],
    places: &[usize],
) -> Result<Circle, OutOfMemory>
    requires { places.now ≡ places_where matters inputs.now }
    ensures least { IfOk result (λ c. IsLeastCircle owner inputs.now c.joined.items) }
    ensures openings { IfOk result (λ c. c.openings.items
        ≡ places_where (opens_circle owner c.joined.items) inputs.now) }
    ensures apart { IfOk result (λ c. c.apart.items
        ≡ places_where (reaches_out owner c.joined.items) inputs.now) }
    ensures shut { IfOk result (λ c. c.openings.items ≡ []
        → IsTrue (is_shut owner (is_member owner c.joined.items) inputs.now)) }
    ensures open { IfOk result (λ c. c.openings.items ≢ [] → NoneIsShut owner inputs.now) }
{
    let members = least_of(alloc, owner, inputs, places)?;
    let openings = openings_of(alloc, &members, inputs, places)?;
    let apart = apart_of(alloc, &members, inputs, places)?;
    Ok(Circle {
        joined: members.joined,
        openings,
        apart,
    })
}

/// The least circle round an owner in which all are whom its members ask for, and the inputs that leave it open. Where
/// there are such inputs, no circle round the owner is shut. Inputs that can't matter are passed over once; the others
/// take a pass for each round of members that ask for others, at most 64, and two more.
pub fn circle_of(alloc: Global, owner: ClientId, inputs: &[Input]) -> Result<Circle, OutOfMemory>
    ensures least { IfOk result (λ c. IsLeastCircle owner inputs.now c.joined.items) }
    ensures openings { IfOk result (λ c. c.openings.items
        ≡ places_where (opens_circle owner c.joined.items) inputs.now) }
    ensures apart { IfOk result (λ c. c.apart.items
        ≡ places_where (reaches_out owner c.joined.items) inputs.now) }
    ensures shut { IfOk result (λ c. c.openings.items ≡ []
        → IsTrue (is_shut owner (is_member owner c.joined.items) inputs.now)) }
    ensures open { IfOk result (λ c. c.openings.items ≢ [] → NoneIsShut owner inputs.now) }
{
    let places = places_that_matter(alloc, inputs)?;
    circle_among(alloc, owner, inputs, places.as_slice())
}

//! The circles round all clients of a session.

ghost use Rattle.std.specs.Prelude.{◌≡◌, ◌↔◌, [], IsTrue, IfOk};
ghost use Rattle.std.specs.List.{All};
ghost use Rattle.seq_session.specs.Merging.{inputs_of, lines_of, merge_of, AreSorted};
ghost use Rattle.seq_session.specs.Sessions.{session};
ghost use Rattle.session_circle.specs.Found.{AreFoundAmong, AreCirclesOf};

use memory::OutOfMemory;
use node_table::ClientId;
use seq_circle::{Circle, circle_among, places_that_matter};
use seq_session::{Merged, NamedFiles, Script, ScriptRead, merge, parse_all};
use seq_state::Input;
use std::alloc::Global;

/// A client, and the least circle round it.
#[derive(Drop)]
pub struct OwnedCircle {
    pub owner: ClientId,
    pub circle: Circle,
}

/// The least circles round the clients of a session.
#[derive(Drop)]
pub struct SessionCircles {
    /// The inputs of the session, with their lines.
    pub merged: Merged,
    /// One for each script, in their order, with places among these inputs.
    pub circles: Vec<OwnedCircle>,
}

/// The least circle round the client of each script.
fn circles_among(
    alloc: Global,
    scripts: &[Script],
    inputs: &[Input],
) -> Result<Vec<OwnedCircle>, OutOfMemory>
    ensures { IfOk result (λ v. AreFoundAmong inputs.now scripts.now v.items) }
{
    let places = places_that_matter(alloc, inputs)?;
    let mut circles = Vec::new(alloc);
    for script in scripts {
        let owner = script.client;
        let circle = circle_among(alloc, owner, inputs, places.as_slice())?;
        circles.push(OwnedCircle { owner, circle })?;
    }
    Ok(circles)
}

/// The least circle round the client of each script, in the session of these readings.
pub(crate) fn circles_of_readings(
    alloc: Global,
    scripts: &[Script],
    reads: &[ScriptRead],
) -> Result<SessionCircles, OutOfMemory>
    requires { AreSorted reads.now }
    ensures merged { IfOk result (λ s. s.merged ≡ merge_of reads.now) }
    ensures found { IfOk result (λ s.
        AreFoundAmong s.merged.inputs scripts.now s.circles.items) }
{
    let merged = merge(alloc, reads)?;
    let circles = circles_among(alloc, scripts, merged.inputs.as_slice())?;
    Ok(SessionCircles { merged, circles })
}

/// The least circle round each client that has a script, and whether it is shut: what `circle_of_scripts` says of each.
/// All inputs are gone over once, and for each circle only those that may matter to one.
pub fn circles_of_scripts(
    alloc: Global,
    scripts: &[Script],
    files: &NamedFiles<'_, '_>,
    until: u64,
) -> Result<SessionCircles, OutOfMemory>
    ensures inputs { IfOk result (λ s. s.merged.inputs
        ≡ inputs_of (session files.now until scripts.now)) }
    ensures lines { IfOk result (λ s. s.merged.lines
        ≡ lines_of (session files.now until scripts.now)) }
    ensures circles { IfOk result (λ s.
        AreCirclesOf files.now until scripts.now s.circles.items) }
{
    let reads = parse_all(alloc, scripts, files, until)?;
    circles_of_readings(alloc, scripts, reads.as_slice())
}

/// Whether each of the circles is shut.
pub fn are_all_shut(found: &SessionCircles) -> bool
    ensures { IsTrue result
        ↔ All (λ c. c.circle.openings.items ≡ []) found.now.circles.items }
{
    found
        .circles
        .iter()
        .all(|one| one.circle.openings.is_empty())
}

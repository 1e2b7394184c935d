//! The circle round a client, from the scripts of a session.

ghost use Rattle.std.specs.Prelude.{◌≡◌, ◌≢◌, [], IfOk};
ghost use Rattle.seq_circle.specs.Least.{is_member, IsLeastCircle, NoneIsShut, places_where, opens_circle, reaches_out};
ghost use Rattle.seq_session.specs.Merging.{inputs_of, lines_of, merge_of, AreSorted};
ghost use Rattle.seq_session.specs.Sessions.{session};
ghost use Rattle.session_circle.specs.Found.{IsFoundAmong};
ghost use Rattle.session_circle.specs.Laws.{NoScriptMatters, NoByteChanges, AreOutside};

use memory::OutOfMemory;
use node_table::ClientId;
use seq_circle::{Circle, circle_of};
use seq_session::{Merged, NamedFiles, Script, ScriptRead, merge, parse_all};
use std::alloc::Global;

/// The least circle round a client in a session.
#[derive(Drop)]
pub struct SessionCircle {
    /// The inputs of the session, with their lines.
    pub merged: Merged,
    /// The circle, with places among these inputs.
    pub circle: Circle,
}

/// The least circle round a client in the session of these readings.
pub(crate) fn circle_of_readings(
    alloc: Global,
    owner: ClientId,
    reads: &[ScriptRead],
) -> Result<SessionCircle, OutOfMemory>
    requires { AreSorted reads.now }
    ensures merged { IfOk result (λ c. c.merged ≡ merge_of reads.now) }
    ensures found { IfOk result (λ c. IsFoundAmong c.merged.inputs owner c.circle) }
{
    let merged = merge(alloc, reads)?;
    let circle = circle_of(alloc, owner, merged.inputs.as_slice())?;
    Ok(SessionCircle { merged, circle })
}

/// The least circle round a client, from the scripts of a session, and whether it is shut. The files and the end, in
/// nanoseconds, are those of the run that is meant: lines past the end say nothing. The client may have no script.
/// What `shut` and `every_byte` promise asks that the clients of the scripts rise, and is about sessions in which the
/// members have these scripts and no others: a member that has none here stays silent there.
pub fn circle_of_scripts(
    alloc: Global,
    owner: ClientId,
    scripts: &[Script],
    files: &NamedFiles<'_, '_>,
    until: u64,
) -> Result<SessionCircle, OutOfMemory>
    ensures inputs { IfOk result (λ c. c.merged.inputs
        ≡ inputs_of (session files.now until scripts.now)) }
    ensures lines { IfOk result (λ c. c.merged.lines
        ≡ lines_of (session files.now until scripts.now)) }
    ensures least { IfOk result (λ c. IsLeastCircle owner c.merged.inputs c.circle.joined.items) }
    ensures openings { IfOk result (λ c. c.circle.openings.items
        ≡ places_where (opens_circle owner c.circle.joined.items) c.merged.inputs) }
    ensures apart { IfOk result (λ c. c.circle.apart.items
        ≡ places_where (reaches_out owner c.circle.joined.items) c.merged.inputs) }

    // Where it is shut, no script of a stranger changes the owner's log, but for the outcomes at targets outside.
    ensures shut { IfOk result (λ c. c.circle.openings.items ≡ [] → NoScriptMatters files.now until
        scripts.now owner (is_member owner c.circle.joined.items)) }

    // These are the outcomes that `apart` names, and where it names none, none of its bytes is changed.
    ensures outside { IfOk result (λ c. AreOutside files.now until scripts.now owner
        (is_member owner c.circle.joined.items) c.merged.lines c.circle.apart.items) }
    ensures every_byte { IfOk result (λ c. c.circle.openings.items ≡ [] → c.circle.apart.items ≡ []
        → NoByteChanges files.now until scripts.now owner (is_member owner c.circle.joined.items)) }

    // Where it is open, no circle is shut.
    ensures open { IfOk result (λ c. c.circle.openings.items ≢ []
        → NoneIsShut owner c.merged.inputs) }
{
    let reads = parse_all(alloc, scripts, files, until)?;
    circle_of_readings(alloc, owner, reads.as_slice())
}

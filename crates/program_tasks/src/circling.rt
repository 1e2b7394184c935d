//! The circle round a client of a session, as text.

ghost use Rattle.std.specs.Prelude.{◌≡◌, IfErr, IfOk};
ghost use Rattle.program_tasks.specs.Circles.{answer_of, IsCircleFound, IsCircleTold, IsOfLines};

use crate::answer::{CircleAnswer, CircleTold};
use crate::program_fault::ProgramFault;
use node_table::ClientId;
use seq_session::{NamedFiles, Script};
use session_circle::{
    EveryEnd, NO_END, SessionCircle, circle_for_every_end, circle_of_scripts, circle_text,
    first_reach, reach_text,
};
use std::alloc::Global;

/// The least circle round a client: where the session has no end, for every end.
fn circle_found(
    alloc: Global,
    owner: ClientId,
    scripts: &[Script],
    files: &NamedFiles<'_, '_>,
    until: u64,
) -> Result<SessionCircle, ProgramFault<'static>>
    ensures found { IfOk result (IsCircleFound files.now until scripts.now owner) }
    ensures fault { IfErr result (IsOfLines files.now until scripts.now) }
{
    if until < NO_END {
        return Ok(circle_of_scripts(alloc, owner, scripts, files, until)?);
    }
    match circle_for_every_end(alloc, owner, scripts, files)? {
        EveryEnd::Found(found) => Ok(found),
        EveryEnd::GoesBack { client, line } => {
            let client = client.number();
            Err(ProgramFault::GoesBack { client, line })
        }
    }
}

/// The circle round a client, as text; behind it, where `in_session` says so, whether it is closed in this session.
pub(crate) fn circle_told(
    alloc: Global,
    owner: ClientId,
    in_session: bool,
    scripts: &[Script],
    files: &NamedFiles<'_, '_>,
    until: u64,
) -> Result<CircleTold, ProgramFault<'static>>
    ensures told { IfOk result (λ t.
        IsCircleTold files.now until scripts.now owner in_session t.answer t.text.items) }
    ensures fault { IfErr result (IsOfLines files.now until scripts.now) }
{
    let found = circle_found(alloc, owner, scripts, files, until)?;
    let answer = answer_of(found.circle.openings.as_slice());
    let mut text = circle_text(alloc, owner, scripts, &found)?;
    if in_session {
        let first = first_reach(alloc, owner, scripts, files, until, &found)?;
        text.extend_from_slice(reach_text(alloc, &found, first)?.as_slice())?;
    }
    Ok(CircleTold { text, answer })
}

/// A circle is shut where nothing leaves it open.
fn answer_of(openings: &[usize]) -> CircleAnswer
    ensures { result ≡ answer_of openings.now }
{
    match openings {
        [] => CircleAnswer::Shut,
        [_, ..] => CircleAnswer::Open,
    }
}

//! The circles round all clients of a session, as text.

ghost use Rattle.std.specs.Prelude.{IfErr, IfOk};
ghost use Rattle.program_tasks.specs.Circles.{AreCirclesFound, AreCirclesTold, IsOfLines};

use crate::answer::{CircleAnswer, CircleTold};
use crate::program_fault::ProgramFault;
use seq_session::{NamedFiles, Script};
use session_circle::{
    EveryEnd, NO_END, SessionCircles, are_all_shut, circles_for_every_end, circles_of_scripts,
    table_text,
};
use std::alloc::Global;

/// The least circles round all clients: where the session has no end, for every end.
fn circles_found(
    alloc: Global,
    scripts: &[Script],
    files: &NamedFiles<'_, '_>,
    until: u64,
) -> Result<SessionCircles, ProgramFault<'static>>
    ensures found { IfOk result (AreCirclesFound files.now until scripts.now) }
    ensures fault { IfErr result (IsOfLines files.now until scripts.now) }
{
    if until < NO_END {
        return Ok(circles_of_scripts(alloc, scripts, files, until)?);
    }
    match circles_for_every_end(alloc, scripts, files)? {
        EveryEnd::Found(found) => Ok(found),
        EveryEnd::GoesBack { client, line } => {
            let client = client.number();
            Err(ProgramFault::GoesBack { client, line })
        }
    }
}

/// The circles round all clients, as text.
pub(crate) fn circles_told(
    alloc: Global,
    scripts: &[Script],
    files: &NamedFiles<'_, '_>,
    until: u64,
) -> Result<CircleTold, ProgramFault<'static>>
    ensures told { IfOk result (λ t.
        AreCirclesTold files.now until scripts.now t.answer t.text.items) }
    ensures fault { IfErr result (IsOfLines files.now until scripts.now) }
{
    let found = circles_found(alloc, scripts, files, until)?;
    let text = table_text(alloc, &found)?;
    let answer = if are_all_shut(&found) {
        CircleAnswer::Shut
    } else {
        CircleAnswer::Open
    };
    Ok(CircleTold { text, answer })
}

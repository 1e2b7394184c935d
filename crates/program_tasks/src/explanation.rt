//! What a run did not do.

ghost use Rattle.std.specs.Prelude.{◌≡◌, [], ◌∷◌, ◌++◌, not, IfOk, OnOk};
ghost use Rattle.std.specs.List.{filter};
ghost use Rattle.byte_io.specs.Moved.{Took};
ghost use Rattle.seq_session.specs.MadePorts.{had_port};
ghost use Rattle.program_tasks.specs.Explained.{diagnostics_told, slips_told, lines_told, loss_line, sounding_line, absent_line, IsExplainedBy, explanation_lines, run_answer};

use crate::notes::Notes;
use crate::run_answer::RunAnswer;
use crate::session::Session;
use crate::telling::{AbsentLine, DiagnosticLine, LossLine, SlipLine, SoundingLine};
use memory::OutOfMemory;
use node_table::PortAddr;
use seq_engine::Loss;
use seq_session::{Diagnostic, SessionRun, SlipOnLine};
use sounding_notes::{SoundingNote, sounding_notes};
use std::alloc::Global;

/// What a run did not do, what was most likely not meant, and which notes still sound.
#[derive(Drop)]
pub struct Explanation {
    /// The lines that are skipped, script by script, and then those whose commands were refused, as they ran.
    pub diagnostics: Vec<Diagnostic>,
    /// The lines that did what they say, and most likely not what was meant, as they ran.
    pub slips: Vec<SlipOnLine>,
    /// What each client lost until it closed, and then by client until the end.
    pub losses: Vec<Loss>,
    /// The notes that still sound at the end, by client, port, channel and note.
    pub sounding: Vec<SoundingNote>,
    /// The ports that are recorded and were never there, as they are named.
    pub absent: Vec<PortAddr>,
}

impl Explanation {
    /// What a run did not do of which these ports are recorded.
    pub(crate) fn of_run(
        alloc: Global,
        run: &SessionRun,
        ports: &[PortAddr],
    ) -> Result<Explanation, OutOfMemory>
        ensures { IfOk result (IsExplainedBy run.now ports.now) }
    {
        Ok(Explanation {
            diagnostics: run.diagnostics(alloc)?,
            slips: run.slips(alloc)?,
            losses: Vec::from_slice(alloc, run.log.losses.as_slice())?,
            sounding: sounding_notes(alloc, run.log.entries.as_slice())?,
            absent: absent_ports(alloc, run, ports)?,
        })
    }

    /// Tells of each line that did nothing, of each that did most likely not what was meant, then of each client that
    /// lost messages, of each note that sounds, and of each port that was never there.
    pub fn tell<N: Notes>(&self, session: &Session<'_>, notes: &mut N)
        ensures { Took N.HasTold notes.old
            (explanation_lines session.now.scripts.items self.now) notes.new }
    {
        tell_diagnostics(session, self.diagnostics.as_slice(), notes);
        tell_slips(session, self.slips.as_slice(), notes);
        tell_losses(self.losses.as_slice(), notes);
        tell_sounding(self.sounding.as_slice(), notes);
        tell_absent(self.absent.as_slice(), notes);
    }

    /// Whether the run is complete, where all files of its folder were taken or not.
    pub fn answer(&self, all_taken: bool) -> RunAnswer
        ensures { result ≡ run_answer all_taken self.now }
    {
        if all_taken
            && self.diagnostics.is_empty()
            && self.losses.is_empty()
            && self.absent.is_empty()
        {
            RunAnswer::Complete
        } else {
            RunAnswer::Incomplete
        }
    }
}

/// Those of some ports that were never there.
fn absent_ports(
    alloc: Global,
    run: &SessionRun,
    ports: &[PortAddr],
) -> Result<Vec<PortAddr>, OutOfMemory>
    ensures { IfOk result (λ v. v.items ≡ filter
        (λ p. not (had_port p run.now.merged.inputs run.now.log.entries)) ports.now) }
{
    let mut absent = Vec::new(alloc);
    for port in ports {
        push_absent(&mut absent, run, port)?;
    }
    Ok(absent)
}

/// Adds a port, where it was never there.
fn push_absent(
    absent: &mut Vec<PortAddr>,
    run: &SessionRun,
    port: &PortAddr,
) -> Result<(), OutOfMemory>
    ensures { OnOk result (absent.new.items ≡ absent.old.items ++ filter
        (λ p. not (had_port p run.now.merged.inputs run.now.log.entries)) (port.now ∷ [])) }
{
    if !run.had_port(*port) {
        absent.push(*port)?;
    }
    Ok(())
}

fn tell_diagnostics<N: Notes>(session: &Session<'_>, diagnostics: &[Diagnostic], notes: &mut N)
    ensures { Took N.HasTold notes.old
        (diagnostics_told session.now.scripts.items diagnostics.now) notes.new }
{
    for diagnostic in diagnostics {
        notes.tell(DiagnosticLine {
            path: session.path_for(diagnostic.client),
            diagnostic: *diagnostic,
        });
    }
}

fn tell_slips<N: Notes>(session: &Session<'_>, slips: &[SlipOnLine], notes: &mut N)
    ensures { Took N.HasTold notes.old
        (slips_told session.now.scripts.items slips.now) notes.new }
{
    for slip in slips {
        notes.tell(SlipLine {
            path: session.path_for(slip.client),
            slip: *slip,
        });
    }
}

fn tell_losses<N: Notes>(losses: &[Loss], notes: &mut N)
    ensures { Took N.HasTold notes.old (lines_told loss_line losses.now) notes.new }
{
    for loss in losses {
        notes.tell(LossLine(*loss));
    }
}

fn tell_sounding<N: Notes>(sounding: &[SoundingNote], notes: &mut N)
    ensures { Took N.HasTold notes.old (lines_told sounding_line sounding.now) notes.new }
{
    for note in sounding {
        notes.tell(SoundingLine(*note));
    }
}

fn tell_absent<N: Notes>(absent: &[PortAddr], notes: &mut N)
    ensures { Took N.HasTold notes.old (lines_told absent_line absent.now) notes.new }
{
    for port in absent {
        notes.tell(AbsentLine(*port));
    }
}

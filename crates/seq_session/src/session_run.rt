//! A session that was run.

ghost use Rattle.std.specs.Prelude.{◌≡◌, map, IfOk};
ghost use Rattle.seq_session.specs.AllLogs.{clients_read};
ghost use Rattle.seq_session.specs.Diagnostics.{diagnostics};
ghost use Rattle.seq_session.specs.Logs.{log_text};
ghost use Rattle.seq_session.specs.MadePorts.{had_port};
ghost use Rattle.seq_session.specs.Rising.{AreRising};
ghost use Rattle.seq_session.specs.Slips.{slips};

use crate::diagnosing::{push_all_refused, push_all_skipped};
use crate::diagnostic::Diagnostic;
use crate::log::log_texts;
use crate::made_ports::had_port;
use crate::merged::Merged;
use crate::slip::SlipOnLine;
use crate::slips::push_all_slips;
use crate::source::Script;
use memory::{Items, OutOfMemory};
use node_table::PortAddr;
use script_text::ScriptRead;
use seq_engine::RunLog;
use std::alloc::Global;

/// A session that was run: what its scripts say, and what happened.
#[derive(Drop)]
pub struct SessionRun {
    /// The scripts, as they were read from their devices.
    pub scripts: Items<Script>,
    /// The reading of each script.
    pub reads: Items<ScriptRead>,
    pub merged: Merged,
    pub log: RunLog,
}

impl SessionRun {
    /// The log of each client, in the order of the scripts, whose clients rise.
    pub fn logs(&self, alloc: Global) -> Result<Vec<Vec<u8>>, OutOfMemory>
        requires rising { AreRising (clients_read self.now.reads) }
        ensures { IfOk result (λ ts. map (λ t. t.items) ts.items
            ≡ map (λ r. log_text r self.now.merged.lines self.now.log.entries) self.now.reads) }
    {
        log_texts(alloc, self.reads.as_slice(), &self.merged, &self.log)
    }

    /// The lines that did nothing: those that are skipped, script by script, and then those whose commands were
    /// refused, in the order of the run, each with what its refusal is about.
    pub fn diagnostics(&self, alloc: Global) -> Result<Vec<Diagnostic>, OutOfMemory>
        ensures { IfOk result (λ ds.
            ds.items ≡ diagnostics self.now.scripts self.now.reads self.now.merged
            self.now.log.entries) }
    {
        let mut told = Vec::new(alloc);
        push_all_skipped(
            alloc,
            &mut told,
            self.scripts.as_slice(),
            self.reads.as_slice(),
        )?;
        push_all_refused(alloc, &mut told, &self.merged, self.log.entries.as_slice())?;
        Ok(told)
    }

    /// The lines that did what they say, and most likely not what was meant, in the order of the run.
    pub fn slips(&self, alloc: Global) -> Result<Vec<SlipOnLine>, OutOfMemory>
        ensures { IfOk result (λ ss. ss.items
            ≡ slips self.now.merged.inputs self.now.merged.lines self.now.log.entries) }
    {
        let mut told = Vec::new(alloc);
        push_all_slips(
            &mut told,
            self.merged.inputs.as_slice(),
            self.merged.lines.as_slice(),
            self.log.entries.as_slice(),
        )?;
        Ok(told)
    }

    /// Whether a port was ever there: its client made it, though it may have dropped it since.
    pub fn had_port(&self, port: PortAddr) -> bool
        ensures { result ≡ had_port port self.now.merged.inputs self.now.log.entries }
    {
        had_port(
            port,
            self.merged.inputs.as_slice(),
            self.log.entries.as_slice(),
        )
    }
}

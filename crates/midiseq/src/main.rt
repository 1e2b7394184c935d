//! `midiseq`: a MIDI sequencer and patchbay on the command line.
#![tactic(auto)]

mod files;
mod reasons;
mod sessions;
mod subcommands;
mod words;

use byte_io::{StdSink, StdSource};
use clap::ArgMatches;
use clap::error::ErrorKind;
use file_store::SystemFiles;
use program_tasks::{
    Ended, LINE_START, Notes, ProgramFault, ProgressLine, STANDARD, StandardError, Task, finish,
    perform,
};
use std::alloc::{AllocError, Global};
use std::io::IsTerminal;
use std::process::ExitCode;
use std::rt::{Env, Files};
use std::{env, io};

fn main(rt: HostRuntime) -> ExitCode {
    let mut notes = StandardError::new(&rt);
    let mut progress = ProgressLine::new(&rt, rt.stderr().is_terminal());
    let words = match read_words(&rt) {
        Ok(words) => words,
        Err(fault) => return ExitCode::from(finish(Err(fault), &mut notes)),
    };
    let ended = program(&rt, words.as_slice(), &mut notes, &mut progress);
    ExitCode::from(finish(ended, &mut notes))
}

/// The words of the command line, of which the first is the program's name.
fn read_words(rt: &(impl Env + AllocGlobal)) -> Result<Vec<String>, ProgramFault<'static>> {
    let mut words = Vec::new(rt.alloc());
    match env::args(rt) {
        Ok(args) => {
            for word in args {
                words.push(word)?;
            }
        }
        Err(error) => return Err(ProgramFault::of_words(error.kind())),
    }
    Ok(words)
}

/// What clap makes of the words.
// Not inline, so that a tool has the stack that clap took.
#[inline(never)]
fn parse<'a>(
    alloc: Global,
    words: &'a [String],
) -> Result<Result<ArgMatches<'a>, clap::Error>, AllocError> {
    Ok(words::command(alloc)?.try_get_matches_from(help_once(words)))
}

/// The words, and of `help --help` the first of the two, since clap takes the second for a subcommand.
fn help_once(words: &[String]) -> &[String] {
    let twice = words.len() == 3
        && words[1].as_str() == "help"
        && (words[2].as_str() == "--help" || words[2].as_str() == "-h");
    if twice { &words[..2] } else { words }
}

/// Does what the words say.
fn program<'a>(
    rt: &(impl Files + Input + Print + Eprint + AllocGlobal + Clone + Drop),
    words: &'a [String],
    notes: &mut impl Notes,
    progress: &mut ProgressLine<'_, impl Eprint>,
) -> Result<Ended, ProgramFault<'a>> {
    let alloc = rt.alloc();
    let store = SystemFiles::new(rt.clone()?);
    let mut input = StdSource::new(rt.reader());
    let mut out = StdSink::new(io::writer(rt));
    if words.len() <= 1 {
        perform(alloc, &store, Task::without_words(), &mut input, &mut out)?;
        return Ok(Ended::Done);
    }
    match parse(alloc, words)? {
        Ok(matches) => {
            let Some((name, found)) = matches.subcommand() else {
                return Err(ProgramFault::NoSubcommand);
            };
            subcommands::perform(
                alloc, &store, name, found, &mut input, &mut out, notes, progress,
            )
        }
        Err(error) => shown(rt, &error),
    }
}

/// Shows what clap says of the words: help, the version, or what is wrong with them.
fn shown(rt: &(impl Print + Eprint), error: &clap::Error) -> Result<Ended, ProgramFault<'static>> {
    if error.kind() == ErrorKind::OutOfMemory {
        return Err(ProgramFault::OutOfMemory);
    }
    // What goes to standard output is what was asked for; of what goes to standard error nobody could be told.
    if error.use_stderr() {
        let _ = rt.eprint(LINE_START);
    }
    if error.print(rt).is_err() && !error.use_stderr() {
        return Err(ProgramFault::CannotWrite(STANDARD));
    }
    Ok(Ended::Shown(error.exit_code() as u8))
}

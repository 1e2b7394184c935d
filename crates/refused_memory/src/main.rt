//! Runs a session call by call for `test/refused-memory`: `refused_memory --until N [CLIENT=PATH..] [FILE..]`. Scripts
//! play a FILE by that name.
//!
//! It prints the lines that are skipped, each reply and each delivery, and at last the listing, with one write for each
//! call. Where a call runs out of memory, it looks whether that call and those after it keep to what is promised, says
//! which call it was, and ends with a status of its own; with another where something is otherwise.
#![tactic(auto)]

mod ending;
mod lines;
mod reading;
mod steps;

use crate::ending::Ending;
use crate::reading::{read_files, read_scripts};
use crate::steps::play;
use byte_io::StdSink;
use script_text::number_of;
use seq_session::{NamedFiles, merge};
use smf_files::SmfFile;
use std::process::ExitCode;
use std::rt::{Env, Files};
use std::{env, io};

fn main(rt: HostRuntime) -> ExitCode {
    match run_words(&rt) {
        Ok(()) => ExitCode::SUCCESS,
        Err(ending) => {
            let told = ending.told();
            let _ = eprintln!(rt; "{told}");
            ExitCode::from(ending.status())
        }
    }
}

fn run_words(rt: &(impl Env + Files + Print + AllocGlobal)) -> Result<(), Ending> {
    let mut words = Vec::new(rt.alloc());
    let Ok(args) = env::args(rt) else {
        return Err(Ending::NoMemory("the words"));
    };
    for word in args {
        words.push(word)?;
    }
    let [_, _, until, named @ ..] = words.as_slice() else {
        return Err(Ending::Unusable);
    };
    match number_of(until.as_bytes()) {
        Some(until) => run_named(rt, until, named),
        None => Err(Ending::Unusable),
    }
}

fn run_named(
    rt: &(impl Files + Print + AllocGlobal),
    until: u64,
    words: &[String],
) -> Result<(), Ending> {
    let mut names = Vec::new(rt.alloc());
    let mut contents = Vec::new(rt.alloc());
    read_files(rt, words, &mut names, &mut contents)?;
    let mut files = Vec::new(rt.alloc());
    for content in contents.as_slice() {
        let file = SmfFile::read(rt.alloc(), content.as_slice())?;
        files.push(file)?;
    }
    match NamedFiles::new(names.as_slice(), files.as_slice()) {
        Some(files) => run_scripts(rt, until, words, &files),
        None => Err(Ending::Unusable),
    }
}

fn run_scripts(
    rt: &(impl Files + Print + AllocGlobal),
    until: u64,
    words: &[String],
    files: &NamedFiles<'_, '_>,
) -> Result<(), Ending> {
    let mut out = StdSink::new(io::writer(rt));
    let mut reads = Vec::new(rt.alloc());
    read_scripts(rt, until, words, files, &mut reads, &mut out)?;
    match merge(rt.alloc(), reads.as_slice()) {
        Ok(merged) => play(rt.alloc(), files.files(), &merged, until, &mut out),
        Err(_) => Err(Ending::NoMemory("merge")),
    }
}

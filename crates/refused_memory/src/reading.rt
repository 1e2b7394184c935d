//! The scripts and files that words name.

ghost use Rattle.std.specs.Prelude.{◌≡◌, OnOk};
ghost use Rattle.seq_session.specs.Merging.{AreSorted};

use crate::ending::Ending;
use crate::lines::print_skips;
use byte_io::{Sink, StdSource, read_to};
use node_table::ClientId;
use script_text::{MOST_SCRIPT, ScriptRead, client_of};
use seq_session::{NamedFiles, parse_script};
use std::fs;
use std::rt::Files;

/// The client and the path of a word that names a script, `CLIENT=PATH`.
fn script_named(word: &str) -> Option<(ClientId, &str)> {
    let (client, path) = word.split_once('=')?;
    Some((client_of(client.as_bytes())?, path))
}

/// What a file holds.
fn content_of(rt: &(impl Files + AllocGlobal), path: &str) -> Result<Vec<u8>, Ending> {
    let Ok(file) = fs::open(rt, path) else {
        return Err(Ending::Unusable);
    };
    let mut source = StdSource::new(file);
    match read_to(rt.alloc(), &mut source, MOST_SCRIPT + 1) {
        Ok(content) => Ok(content),
        Err(_) => Err(Ending::NoMemory("read_to")),
    }
}

/// Adds the name and the content of each word that names no script.
pub fn read_files(
    rt: &(impl Files + AllocGlobal),
    words: &[String],
    names: &mut Vec<Vec<u8>>,
    contents: &mut Vec<Vec<u8>>,
) -> Result<(), Ending> {
    for word in words {
        if script_named(word.as_str()).is_none() {
            names.push(Vec::from_slice(rt.alloc(), word.as_bytes())?)?;
            contents.push(content_of(rt, word.as_str())?)?;
        }
    }
    Ok(())
}

/// Puts the reading of each script before those that were read, and prints what is skipped of it.
pub fn read_scripts<W: Sink>(
    rt: &(impl Files + AllocGlobal),
    until: u64,
    words: &[String],
    files: &NamedFiles<'_, '_>,
    reads: &mut Vec<ScriptRead>,
    out: &mut W,
) -> Result<(), Ending>
    requires { AreSorted reads.old.items }
    ensures { OnOk result (AreSorted reads.new.items) }
{
    let Some((first, more)) = words.split_first() else {
        return Ok(());
    };
    if let Some((client, path)) = script_named(first.as_str()) {
        let text = content_of(rt, path)?;
        let read = match parse_script(rt.alloc(), client, text.as_slice(), files, until) {
            Ok(read) => read,
            Err(_) => return Err(Ending::NoMemory("parse_script")),
        };
        print_skips(rt.alloc(), &read, out)?;
        reads.insert(0, read)?;
    }
    read_scripts(rt, until, more, files, reads, out)
}

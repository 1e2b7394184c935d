//! Sessions whose logs are written to files, over files in memory.

ghost use Rattle.std.specs.Prelude.{◌≡◌, IfOk, false};

use super::circles::{Counted, MemFiles};
use byte_io::MemSink;
use memory::OutOfMemory;
use program_tasks::{EndWord, LogFolder, ProgramFault, Session, stream};
use seq_session::Unwatched;
use std::alloc::Global;
use std::process::Abort;
use std::test::Fail;

/// A keyboard and a synthesizer, one of whose lines is skipped, as scripts and as what stands in a folder of logs.
const FILES: &[(&str, &[u8])] = &[
    (
        "keys.txt",
        b"0 open keys 9 9\n0 port 0 out 33\n5 send 0 90 3C 40\n",
    ),
    (
        "synth.txt",
        b"0 open synth 9 9\n0 port 0 in 66\n0 connect 128:p0 129:p0\nsound\n",
    ),
    ("logs/128.log", b"0 open keys 9 9\n"),
];

const LISTING: &str = "client 128 keys in 9 out 9\nport 128:p0 out 33\n\
    client 129 synth in 9 out 9\nport 129:p0 in 66\nedge 128:p0 129:p0\n";

fn sink(alloc: Global) -> Result<MemSink, OutOfMemory>
    ensures { IfOk result (λ s. s.broken ≡ false) }
{
    MemSink::new(alloc, 0)
}

/// Runs the session of some words, and writes its logs to a folder.
fn streamed(
    alloc: Global,
    words: &[&'static str],
    path: &'static str,
    listed: bool,
    out: &mut MemSink,
) -> Result<(), ProgramFault<'static>>
    requires { out.old.broken ≡ false }
{
    let store = MemFiles {
        alloc,
        files: FILES,
    };
    let mut notes = Counted { lines: 0 };
    let session = Session::of_words(alloc, EndWord::ToEnd, None, false, words)?;
    let logs = LogFolder {
        path,
        append: false,
    };
    stream(
        alloc,
        &store,
        &session,
        &logs,
        listed,
        out,
        &mut notes,
        &mut Unwatched,
    )
}

/// The logs are written to a folder, or not for the reason of this text; and this is printed.
fn check(
    rt: &impl Abort,
    alloc: Global,
    words: &[&'static str],
    path: &'static str,
    listed: bool,
    told: &str,
    printed: &str,
) -> Result<(), Fail> {
    let mut out = sink(alloc)?;
    let text = match streamed(alloc, words, path, listed, &mut out) {
        Ok(()) => String::new(alloc),
        Err(fault) => format!(in alloc; "{fault}")?,
    };
    assert!(rt; text.as_str() == told, "{path}: {text}");
    assert!(rt; out.bytes() == printed.as_bytes(), "{path}");
    Ok(())
}

#[test]
fn writes_logs_to_files(rt: HostRuntime) -> Result<(), Fail> {
    let words = ["128=keys.txt", "129=synth.txt"];
    let own = ["128=logs/128.log"];
    for (words, path, listed, told, printed) in [
        (&words[..], "new", false, "", ""),
        (&words[..], "new", true, "", LISTING),
        (
            &words[..],
            "sealed",
            true,
            "cannot write sealed/129.log",
            "",
        ),
        (&words[..], "full", true, "cannot write full/129.log", ""),
        (
            &own[..],
            "logs",
            true,
            "logs/128.log is a file that the session reads",
            "",
        ),
    ] {
        check(&rt, rt.alloc(), words, path, listed, told, printed)?;
    }
    Ok(())
}

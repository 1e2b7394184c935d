//! What is asked of messages that did not come and of lines that did nothing, over files in memory.

ghost use Rattle.std.specs.Prelude.{◌≡◌, IfOk, false};

use super::circles::{Counted, MemFiles};
use byte_io::MemSink;
use memory::OutOfMemory;
use program_tasks::{EndWord, ProgramFault, Session, WhyQuestion, why};
use std::alloc::Global;
use std::process::Abort;
use std::test::Fail;

/// A keyboard, one of whose lines is refused, and a synthesizer with room for two messages that listens to it through
/// a filter of high notes and without one.
const FILES: &[(&str, &[u8])] = &[
    (
        "keys.txt",
        b"0 open keys 9 9\n0 port 0 out 33\n5 send 0 90 3C 40\n6 start 128:q0\nsound\n",
    ),
    (
        "synth.txt",
        b"0 open synth 2 9\n0 port 0 in 66\n0 port 1 all 66\n0 filter 0 3 65535 1023 60 127 0\n\
        0 connect 128:p0 129:f0\n0 connect 129:f0 129:p0\n0 connect 128:p0 129:p1\n",
    ),
];

fn sink(alloc: Global) -> Result<MemSink, OutOfMemory>
    ensures { IfOk result (λ s. s.broken ≡ false) }
{
    MemSink::new(alloc, 0)
}

/// Asks a question about the session until a moment.
fn answered(
    alloc: Global,
    until: &'static str,
    question: WhyQuestion<'static>,
    out: &mut MemSink,
) -> Result<(), ProgramFault<'static>>
    requires { out.old.broken ≡ false }
{
    let store = MemFiles {
        alloc,
        files: FILES,
    };
    let words = ["128=keys.txt", "129=synth.txt"];
    let mut notes = Counted { lines: 0 };
    let session = Session::of_words(alloc, EndWord::Until(until), None, false, &words)?;
    why(alloc, &store, &session, question, out, &mut notes)
}

/// This is printed, or the question is refused for the reason of this text.
fn check(
    rt: &impl Abort,
    alloc: Global,
    until: &'static str,
    question: WhyQuestion<'static>,
    printed: &str,
    told: &str,
) -> Result<(), Fail> {
    let mut out = sink(alloc)?;
    let text = match answered(alloc, until, question, &mut out) {
        Ok(()) => String::new(alloc),
        Err(fault) => format!(in alloc; "{fault}")?,
    };
    assert!(rt; text.as_str() == told, "{until}: {text}");
    assert!(rt; out.bytes() == printed.as_bytes(), "{until}: {printed}");
    Ok(())
}

#[test]
fn says_what_becomes_of_a_message(rt: HostRuntime) -> Result<(), Fail> {
    for (until, from, message, printed) in [
        (
            "4",
            "128:p0",
            "90 24 64",
            "128:p0 > 129:f0 stopped: note 36 is below 60\n128:p0 > 129:p1 arrives\n",
        ),
        (
            "4",
            "128:p0",
            "90 3C 40",
            "128:p0 > 129:f0 > 129:p0 arrives\n128:p0 > 129:p1 arrives\n",
        ),
        // From then on what was sent at 5 fills the pool.
        (
            "5",
            "128:p0",
            "90 24 64",
            "128:p0 > 129:f0 stopped: note 36 is below 60\n128:p0 > 129:p1 lost: pool of 2 full\n",
        ),
        ("4", "129:p0", "F8", "129:p0 leads to no port\n"),
        ("4", "128:p1", "F8", "128:p1 is not there\n"),
    ] {
        let question = WhyQuestion::Message { from, message };
        check(&rt, rt.alloc(), until, question, printed, "")?;
    }
    Ok(())
}

#[test]
fn says_what_a_line_did_not_do(rt: HostRuntime) -> Result<(), Fail> {
    for (word, printed) in [
        (
            "keys.txt:4",
            "keys.txt:4: refused 17 NoQueue: 128:q0 is not there: make it first\n",
        ),
        (
            "keys.txt:5",
            "keys.txt:5: skipped: its first word is no moment in nanoseconds\n",
        ),
        (
            "synth.txt:4",
            "synth.txt:4: it did what it says, or it says nothing\n",
        ),
    ] {
        check(&rt, rt.alloc(), "9", WhyQuestion::Line(word), printed, "")?;
    }
    Ok(())
}

#[test]
fn names_words_that_ask_nothing(rt: HostRuntime) -> Result<(), Fail> {
    for (question, told) in [
        (
            WhyQuestion::Message {
                from: "128:f0",
                message: "F8",
            },
            "128:f0 names no port (as 128:p0: a client 128 to 191, and a port 0 to 15)",
        ),
        (
            WhyQuestion::Message {
                from: "128:p0",
                message: "90 24",
            },
            "90 24 is not exactly one MIDI message in hexadecimal (as \"90 3C 40\")",
        ),
        (
            WhyQuestion::Line("keys.txt"),
            "keys.txt names no line of a script (as synth.txt:4)",
        ),
        (
            WhyQuestion::Line("drums.txt:4"),
            "drums.txt:4 names no line of a script (as synth.txt:4)",
        ),
    ] {
        check(&rt, rt.alloc(), "9", question, "", told)?;
    }
    Ok(())
}

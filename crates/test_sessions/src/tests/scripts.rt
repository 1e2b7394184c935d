//! The line of each command, and lines that are skipped. Scripts of the greatest length are in the sessions.

use node_table::ClientId;
use script_text::{ScriptRead, Skip, SkipReason, line_fault, parse_script};
use seq_state::Command;
use std::alloc::Global;
use std::process::Abort;
use std::test::Fail;

/// The reading of a script of client 131, for a run of 10 ns without files.
fn read(alloc: Global, text: &[u8]) -> Result<ScriptRead, Fail> {
    let client = ClientId::new(131).ok_or("a client number")?;
    Ok(parse_script(alloc, client, text, &[], 10)?)
}

/// The word of a command's line.
fn word_of(command: &Command) -> &'static str {
    match command {
        Command::Open { .. } => "open",
        Command::Close => "close",
        Command::CreatePort { .. } => "port",
        Command::DeletePort { .. } => "unport",
        Command::CreateFilter { .. } => "filter",
        Command::SetFilter { .. } => "setfilter",
        Command::DeleteFilter { .. } => "unfilter",
        Command::Connect { .. } => "connect",
        Command::Disconnect { .. } => "disconnect",
        Command::Bytes { .. } => "bytes",
        Command::Send { .. } => "send",
        Command::CreateQueue { .. } => "queue",
        Command::CreateQueueFrom { .. } => "queuefrom",
        Command::DeleteQueue { .. } => "unqueue",
        Command::Start { .. } => "start",
        Command::Stop { .. } => "stop",
        Command::Continue { .. } => "continue",
        Command::Tempo { .. } => "tempo",
        Command::QueueStatus { .. } => "status",
        Command::Share { .. } => "share",
        Command::Schedule { .. } => "schedule",
        Command::Play { .. } => "play",
        Command::DropOutput => "drop",
        Command::Receive { .. } => "receive",
        Command::Listen => "listen",
        Command::Unlisten => "unlisten",
        Command::PoolStatus => "pools",
    }
}

/// The script has one command, said at moment 7 on line 1, with the word that begins `line`.
fn assert_command(rt: &impl Abort, script: &ScriptRead, line: &str) {
    assert!(rt; script.skips.len() == 0);
    assert!(rt; script.inputs.len() == 1);
    for taken in script.inputs.as_slice() {
        assert!(rt; taken.line == 1);
        assert!(rt; taken.input.moment == 7);
        assert!(rt;
            line.starts_with(word_of(&taken.input.command)),
            "at {line}"
        );
    }
}

#[test]
fn reads_each_form(rt: HostRuntime) -> Result<(), Fail> {
    let lines = [
        "open a 8 8",
        "close",
        "port 0 in 66",
        "unport 0",
        "filter 0 99 65535 1023 0 127 -12",
        "setfilter 0 65535 1023 0 127 0 16",
        "unfilter 0",
        "connect 128:p0 131:f0",
        "disconnect 128:p0 131:f0",
        "bytes 0 90 3c 40",
        "send 0 F8",
        "queue 0 480 500000",
        "queuefrom 0 m.mid",
        "unqueue 131:q0",
        "start 131:q0",
        "stop 131:q0",
        "continue 131:q0",
        "tempo 131:q0 500000",
        "status 131:q0",
        "share 131:q0",
        "schedule 131:q0 0 t+480 90 3C 40",
        "play 131:q0 0 m.mid",
        "drop",
        "receive 8",
        "listen",
        "unlisten",
        "pools",
    ];
    for line in lines {
        let mut text = Vec::from_slice(rt.alloc(), b"7\t ")?;
        text.extend_from_slice(line.as_bytes())?;
        text.extend_from_slice(b"\r\n")?;
        let script = read(rt.alloc(), text.as_slice())?;
        assert_command(&rt, &script, line);
    }
    Ok(())
}

/// A line that cannot be read, a late one, and one past the end. The line after it is taken, though no line end
/// follows.
#[test]
fn skips_hostile_lines(rt: HostRuntime) -> Result<(), Fail> {
    let text = b"0 open x 1 1\nzzz\n1 port 0 in 66\n0 close\n2 connect 128:p0 131:p0\n99 close\n\
        3 connect 131:p0 131:f0";
    let script = read(rt.alloc(), text)?;
    let skips = [
        Skip {
            line: 2,
            why: SkipReason::Unreadable,
        },
        Skip {
            line: 4,
            why: SkipReason::Late,
        },
        Skip {
            line: 6,
            why: SkipReason::PastEnd,
        },
    ];
    assert!(rt; script.skips.as_slice() == skips.as_slice());
    let lines = script.inputs.as_slice().iter().map(|taken| taken.line);
    assert!(rt; lines.eq([1, 3, 5, 7].iter().copied()));
    Ok(())
}

#[test]
fn reasons_have_their_texts(rt: HostRuntime) -> Result<(), Fail> {
    let reasons = [
        (SkipReason::Unreadable, "unreadable"),
        (SkipReason::PastEnd, "past-end"),
        (SkipReason::Late, "late"),
        (SkipReason::TooLong, "too-long"),
    ];
    for (why, text) in reasons {
        assert!(rt; why.to_string(rt.alloc())?.as_str() == text);
    }
    Ok(())
}

/// Lines that can't be read, and why.
const FAULTS: &[(&[u8], &str)] = &[
    (
        b"\xEF\xBB\xBF0 open synth 10 10",
        "it begins with a byte order mark: save the file as plain UTF-8 or ASCII, without it",
    ),
    (
        b"\xEF\xBB\xBF",
        "it begins with a byte order mark: save the file as plain UTF-8 or ASCII, without it",
    ),
    (
        b"\xEF\xBB0 open synth 10 10",
        "its first word is no moment in nanoseconds",
    ),
    (
        b"0 open synth 10 10 # mine",
        "a remark has a line of its own: word 6 begins one",
    ),
    (
        b"0 bytes 0 90 3C # note",
        "a remark has a line of its own: word 6 begins one",
    ),
    (
        b"0 open synth 10 10 mine # 1",
        "there are too many words, from word 6 on",
    ),
    (b"0 open # 10", "a number up to 4294967295 is missing"),
];

#[test]
fn tells_why_a_line_is_unreadable(rt: HostRuntime) -> Result<(), Fail> {
    for (line, text) in FAULTS {
        let fault = line_fault(line).ok_or("a fault")?;
        assert!(rt;
            format!(in rt.alloc(); "{fault}")?.as_str() == *text,
            "at {text}"
        );
    }
    Ok(())
}

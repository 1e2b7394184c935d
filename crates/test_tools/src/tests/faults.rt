//! What the program is asked to do, and the lines and statuses of its faults.

use node_table::{ClientId, PortAddr, PortNo};
use program_tasks::{
    AbsentLine, DiagnosticLine, DumpFlags, FaultLine, Grammar, LossLine, ProgramFault, STANDARD,
    SlipLine, SoundingLine, Stream, Task, Tool,
};
use script_text::{LineFault, WordKind};
use seq_engine::Loss;
use seq_session::{About, Cause, Diagnostic, SkipReason, Slip, SlipOnLine};
use seq_state::Refusal;
use smf_files::SmfFault;
use sounding_notes::SoundingNote;
use std::alloc::Global;
use std::io::ErrorKind;
use std::process::Abort;
use std::test::Fail;
use tool_text::ToolFault;

/// A fault, the line that tells it, and the status with which it ends the program.
type Told<'a> = (ProgramFault<'a>, &'static str, u8);

/// Each prints as its line, and ends the program with its status.
fn check_faults(rt: &impl Abort, alloc: Global, faults: &[Told<'_>]) -> Result<(), Fail> {
    for (fault, text, status) in faults {
        let line = FaultLine(*fault);
        assert!(rt; format!(in alloc; "{line}")?.as_str() == *text);
        assert!(rt; fault.status() == *status);
    }
    Ok(())
}

#[test]
fn tells_of_words(rt: HostRuntime) -> Result<(), Fail> {
    let not_text = ProgramFault::of_words(ErrorKind::InvalidData);
    let no_memory = ProgramFault::of_words(ErrorKind::OutOfMemory);
    let faults = [
        (not_text, "midiseq: an argument is not UTF-8", 2),
        (no_memory, "midiseq: out of memory", 1),
        (
            ProgramFault::NoSubcommand,
            "midiseq: name a subcommand; see midiseq --help",
            2,
        ),
    ];
    check_faults(&rt, rt.alloc(), &faults)
}

#[test]
fn tells_of_sessions(rt: HostRuntime) -> Result<(), Fail> {
    let faults = [
        (
            ProgramFault::NotAMoment("soon\n"),
            "midiseq: soon\\n is no moment in nanoseconds (for a second: --until 1000000000, or --for 1s); \
                see midiseq --help",
            2,
        ),
        (
            ProgramFault::NotATime("90"),
            "midiseq: 90 is no length of time such as 1m30s; see midiseq --help",
            2,
        ),
        (
            ProgramFault::NotAPort("129:16"),
            "midiseq: 129:16 names no port (as 129:0: a client 128 to 191, and a port 0 to 15); see midiseq --help",
            2,
        ),
        (
            ProgramFault::NotPorts("129:0,"),
            "midiseq: 129:0, names no ports (as 129:0,130:1: clients 128 to 191, each with a port 0 to 15); \
                see midiseq --help",
            2,
        ),
        (
            ProgramFault::NotAPpq("32768"),
            "midiseq: 32768 is no number of ticks per quarter note, 1 to 32767; see midiseq --help",
            2,
        ),
        (
            ProgramFault::NotABpm("3"),
            "midiseq: 3 is no number of quarter notes a minute, 4 to 60000000; see midiseq --help",
            2,
        ),
        (
            ProgramFault::NotAClient("127"),
            "midiseq: 127 is no client 128 to 191; see midiseq --help",
            2,
        ),
        (
            ProgramFault::NotAScript("127=a"),
            "midiseq: 127=a names no script (as 129=synth.txt: a client 128 to 191, and a file); see midiseq --help",
            2,
        ),
        (
            ProgramFault::TwoScripts(128),
            "midiseq: client 128 has two scripts; see midiseq --help",
            2,
        ),
        (
            ProgramFault::OutIsRead("song.mid"),
            "midiseq: song.mid is a file that the session reads; see midiseq --help",
            2,
        ),
        (ProgramFault::CannotRecord, "midiseq: cannot record", 1),
    ];
    check_faults(&rt, rt.alloc(), &faults)
}

#[test]
fn tells_of_streams(rt: HostRuntime) -> Result<(), Fail> {
    let song = Stream::named("song.mid");
    let no_status = ToolFault::Smf(SmfFault::NoStatus { at: 30 });
    let tools = [
        (song, ToolFault::Read, "midiseq: cannot read song.mid"),
        (Stream::Standard, ToolFault::Read, "midiseq: cannot read -"),
        (song, ToolFault::Write, "midiseq: cannot write -"),
        (song, ToolFault::OutOfMemory, "midiseq: out of memory"),
        (song, no_status, "midiseq: 12 NoStatus 30"),
    ];
    for (stream, fault, text) in tools {
        let told = [(ProgramFault::of_tool(stream, fault), text, 1)];
        check_faults(&rt, rt.alloc(), &told)?;
    }
    Ok(())
}

#[test]
fn keeps_a_path_in_one_line(rt: HostRuntime) -> Result<(), Fail> {
    let path = "a\nb\t\u{1b}[1mé\u{7f}\u{85}\\ ~";
    let text = "midiseq: cannot read a\\nb\\t\\u{1b}[1mé\\u{7f}\\u{85}\\ ~";
    let told = [(ProgramFault::CannotRead(path), text, 1)];
    check_faults(&rt, rt.alloc(), &told)
}

fn flags(all: bool, at: bool, lenient: bool) -> DumpFlags {
    DumpFlags { all, at, lenient }
}

#[test]
fn chooses_by_words(rt: HostRuntime) {
    let none = flags(false, false, false);
    let all = flags(true, false, false);
    let at = flags(true, true, false);
    let lenient = flags(false, false, true);
    let all_leniently = flags(true, false, true);
    assert!(rt; Task::of_words("thru", none, STANDARD) == Some(Task::without_words()));
    for (command, flags, tool) in [
        ("thru", all, Tool::Thru),
        ("wire", lenient, Tool::Wire),
        ("dump", none, Tool::Dump(Grammar::Strict)),
        ("dump", lenient, Tool::Dump(Grammar::Lenient)),
        ("dump", all, Tool::DumpAll(Grammar::Strict)),
        ("dump", all_leniently, Tool::DumpAll(Grammar::Lenient)),
        ("dump", at, Tool::DumpPlaces),
    ] {
        for (file, stream) in [("-", Stream::Standard), ("keys", Stream::Path("keys"))] {
            assert!(rt; Task::of_words(command, flags, file) == Some(Task { tool, stream }));
        }
    }
    assert!(rt; Task::of_words("play", all, "-") == None);
}

#[test]
fn shows_each_fault_of_a_tool(rt: HostRuntime) -> Result<(), Fail> {
    let faults = [
        (ToolFault::OutOfMemory, "out of memory"),
        (ToolFault::Read, "a read failed"),
        (ToolFault::Write, "a write failed"),
        (ToolFault::Smf(SmfFault::NotMidi), "1 NotMidi"),
    ];
    for (fault, text) in &faults {
        let line = format!(in rt.alloc(); "{fault}")?;
        assert!(rt; line.as_str() == *text);
    }
    Ok(())
}

#[test]
fn tells_of_lines_that_did_nothing(rt: HostRuntime) -> Result<(), Fail> {
    let no_command = Cause::Unreadable(LineFault::UnknownCommand);
    let no_node = Cause::Unreadable(LineFault::Wrong {
        place: 3,
        kind: WordKind::Address,
    });
    let client = ClientId::new(128).ok_or("a client number")?;
    for (path, line, cause, text) in [
        (
            "keys.txt",
            3,
            no_command,
            "keys.txt:3: skipped: its second word is no command",
        ),
        (
            "keys.txt",
            4,
            no_node,
            "keys.txt:4: skipped: word 3 is not a node (as 128:p0)",
        ),
        (
            "a\nb",
            10,
            Cause::Skipped(SkipReason::PastEnd),
            "a\\nb:10: skipped: its moment lies past the end of the run",
        ),
        (
            "keys.txt",
            4,
            Cause::Skipped(SkipReason::Late),
            "keys.txt:4: skipped: its moment lies before that of a line above it",
        ),
        (
            "keys.txt",
            0,
            Cause::Skipped(SkipReason::TooLong),
            "keys.txt: skipped: the script has more than 1048576 bytes",
        ),
        (
            "synth.txt",
            7,
            Cause::Refused(Refusal::DivisionDiffers, About::Nothing),
            "synth.txt:7: refused 21 DivisionDiffers: make the queue with queuefrom, or with the file's ticks per \
                quarter note",
        ),
    ] {
        let diagnostic = Diagnostic {
            client,
            line,
            cause,
        };
        let line = DiagnosticLine { path, diagnostic };
        assert!(rt; format!(in rt.alloc(); "{line}")?.as_str() == text);
    }
    Ok(())
}

#[test]
fn tells_of_lines_that_are_most_likely_slips(rt: HostRuntime) -> Result<(), Fail> {
    let client = ClientId::new(128).ok_or("a client number")?;
    for (path, line, slip, text) in [
        (
            "keys.txt",
            3,
            Slip::TempoAsBpm(120),
            "keys.txt:3: TEMPO 120 is 120 microseconds per quarter note: 120 beats per minute are 500000",
        ),
        (
            "keys.txt",
            10,
            Slip::TempoAsBpm(999),
            "keys.txt:10: TEMPO 999 is 999 microseconds per quarter note: 999 beats per minute are 60060",
        ),
        (
            "a\nb",
            4,
            Slip::ChannelsTen,
            "a\\nb:4: CHANNELS 10 is channels 2 and 4: channel 10 alone is 512",
        ),
    ] {
        let slip = SlipOnLine { client, line, slip };
        let line = SlipLine { path, slip };
        assert!(rt; format!(in rt.alloc(); "{line}")?.as_str() == text);
    }
    Ok(())
}

#[test]
fn tells_of_ports_that_were_never_there(rt: HostRuntime) -> Result<(), Fail> {
    let line = AbsentLine(PortAddr {
        client: ClientId::new(129).ok_or("a client number")?,
        port: PortNo::new(15).ok_or("a port number")?,
    });
    let text = "midiseq: 129:p15 was never there";
    assert!(rt; format!(in rt.alloc(); "{line}")?.as_str() == text);
    Ok(())
}

#[test]
fn tells_of_what_was_lost(rt: HostRuntime) -> Result<(), Fail> {
    let client = ClientId::new(129).ok_or("a client number")?;
    for (messages, text) in [
        (
            1,
            "midiseq: 129 lost 1 message: its input pool was full (see receive, listen)",
        ),
        (
            4204,
            "midiseq: 129 lost 4204 messages: its input pool was full (see receive, listen)",
        ),
    ] {
        let line = LossLine(Loss { client, messages });
        assert!(rt; format!(in rt.alloc(); "{line}")?.as_str() == text);
    }
    Ok(())
}

#[test]
fn tells_of_notes_that_sound(rt: HostRuntime) -> Result<(), Fail> {
    let target = PortAddr {
        client: ClientId::new(129).ok_or("a client number")?,
        port: PortNo::new(15).ok_or("a port number")?,
    };
    for (channel, note, text) in [
        (0, 60, "midiseq: 129:p15: note 60 of channel 1 still sounds"),
        (
            15,
            127,
            "midiseq: 129:p15: note 127 of channel 16 still sounds",
        ),
    ] {
        let line = SoundingLine(SoundingNote {
            target,
            channel,
            note,
        });
        assert!(rt; format!(in rt.alloc(); "{line}")?.as_str() == text);
    }
    Ok(())
}

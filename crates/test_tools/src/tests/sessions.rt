//! Words, names of files and logs, through the public calls.

ghost use Rattle.std.specs.Prelude.{◌≡◌, IfOk, false};

use byte_io::{MemSink, Sink};
use file_store::Standing;
use folder_files::{capital_files, midi_files};
use memory::OutOfMemory;
use node_table::{ClientId, PortAddr, PortNo};
use program_tasks::{
    EndWord, FolderFiles, HeldLog, LeftOutFile, ProgramFault, ScriptWord, WhyLeftOut, client_named,
    open_files, port_named, ports_named, print_logs, scripts_named, taken_files, time_named,
    until_named,
};
use smf_files::SmfFault;
use smf_mend::Mended;
use std::alloc::Global;
use std::process::Abort;
use std::test::Fail;
use tool_text::ToolFault;

#[test]
fn reads_moments(rt: HostRuntime) {
    for (word, moment) in [
        ("0", Some(0)),
        ("007", Some(7)),
        ("18446744073709551615", Some(u64::MAX)),
        ("18446744073709551616", None),
        ("000000000000000000001", None),
        ("", None),
        ("+1", None),
        ("1s", None),
    ] {
        assert!(rt; until_named(word) == moment, "at {word}");
    }
}

#[test]
fn reads_lengths_of_time(rt: HostRuntime) {
    for (word, nanos) in [
        ("90s", Some(90_000_000_000)),
        ("1m30s", Some(90_000_000_000)),
        ("30s1m", Some(90_000_000_000)),
        ("0001500ms", Some(1_500_000_000)),
        ("2us", Some(2_000)),
        ("7ns", Some(7)),
        ("1h2m3s4ms5us6ns", Some(3_723_004_005_006)),
        ("0s", Some(0)),
        ("5124095h", Some(18_446_742_000_000_000_000)),
        ("5124096h", None),
        ("18446744073709551615ns", Some(u64::MAX)),
        ("18446744073709551616ns", None),
        ("18446744073709551615ns1ns", None),
        ("18446744073709551615s", None),
        ("90", None),
        ("1m30", None),
        ("s", None),
        ("m30s", None),
        ("", None),
        ("1.5s", None),
        ("1s ", None),
        (" 1s", None),
        ("-1s", None),
        ("1S", None),
        ("1sec", None),
    ] {
        assert!(rt; time_named(word) == nanos, "at {word}");
    }
}

#[test]
fn reads_ends(rt: HostRuntime) {
    assert!(rt; EndWord::Until("70").moment() == Ok(70));
    assert!(rt; EndWord::Until("70ns").moment() == Err(ProgramFault::NotAMoment("70ns")));
    assert!(rt; EndWord::For("70us").moment() == Ok(70_000));
    assert!(rt; EndWord::For("70").moment() == Err(ProgramFault::NotATime("70")));
    assert!(rt; EndWord::ToEnd.moment() == Ok(u64::MAX));
}

#[test]
fn reads_clients(rt: HostRuntime) {
    assert!(rt; client_named("0191") == ClientId::new(191));
    for word in ["127", "192", "", "128:0", "+128"] {
        assert!(rt; client_named(word) == None, "at {word}");
    }
}

#[test]
fn reads_ports(rt: HostRuntime) -> Result<(), Fail> {
    let client = ClientId::new(129).ok_or("a client number")?;
    let port = PortNo::new(15).ok_or("a port number")?;
    assert!(rt; port_named("0129:15") == Some(PortAddr { client, port }));
    for word in [
        "129:16", "127:0", "192:0", "129", "129:p0", "129:", ":0", "129:0:0",
    ] {
        assert!(rt; port_named(word) == None, "at {word}");
    }
    Ok(())
}

/// Words that name ports, and the numbers of the clients and the ports.
const PORTS: &[(&str, &[(u8, u8)])] = &[
    ("129:0", &[(129, 0)]),
    ("129:0,130:1", &[(129, 0), (130, 1)]),
    ("191:15,0128:007,191:15", &[(191, 15), (128, 7), (191, 15)]),
];

#[test]
fn reads_lists_of_ports(rt: HostRuntime) -> Result<(), Fail> {
    for (word, numbers) in PORTS {
        let ports = ports_named(rt.alloc(), word).ok().ok_or("ports")?;
        assert!(rt; ports.len() == numbers.len(), "at {word}");
        for (port, (client, number)) in ports.iter().zip(numbers.iter()) {
            assert!(rt; port.client.number() == *client, "at {word}");
            assert!(rt; port.port.number() == *number, "at {word}");
        }
    }
    Ok(())
}

#[test]
fn tells_what_is_no_list_of_ports(rt: HostRuntime) {
    for word in [
        "",
        ",",
        "129:0,",
        ",129:0",
        "129:0,,130:1",
        "129:0, 130:1",
        "129:0;130:1",
        "129:0,130:16",
        "127:0,130:1",
        "129,130",
    ] {
        let fault = ports_named(rt.alloc(), word).err();
        assert!(rt; fault == Some(ProgramFault::NotPorts(word)), "at {word}");
    }
}

#[test]
fn reads_scripts_by_client(rt: HostRuntime) -> Result<(), Fail> {
    let words = ["191=-", "0128=a=b", "130="];
    let scripts = scripts_named(rt.alloc(), &words)
        .ok()
        .ok_or("three scripts")?;
    assert!(rt; scripts.len() == 3);
    for (script, (number, path)) in scripts.iter().zip([(128, "a=b"), (130, ""), (191, "-")]) {
        assert!(rt; script.client.number() == number);
        assert!(rt; script.path == path);
    }
    Ok(())
}

#[test]
fn tells_the_first_bad_word(rt: HostRuntime) {
    for word in ["128", "127=a", "192=a", "=a", "p=a"] {
        let words = ["130=a", word, "130=b"];
        let fault = scripts_named(rt.alloc(), &words).err();
        assert!(rt; fault == Some(ProgramFault::NotAScript(word)));
    }
}

#[test]
fn tells_a_client_with_two_scripts(rt: HostRuntime) -> Result<(), Fail> {
    let client = ClientId::new(130).ok_or("a client number")?;
    let words = ["131=a", "130=a", "129=a", "0130=b"];
    let fault = scripts_named(rt.alloc(), &words).err();
    assert!(rt; fault == Some(ProgramFault::TwoScripts(client.number())));
    Ok(())
}

fn owned(alloc: Global, names: &[&str]) -> Result<Vec<String>, Fail> {
    let mut all = Vec::new(alloc);
    for name in names {
        all.push(name.to_string(alloc)?)?;
    }
    Ok(all)
}

// What is owned is lent by the function that makes it, so that it is dropped at one place alone: that is proved sooner.

/// The names are these, in this order.
fn check_names(rt: &impl Abort, names: &[String], wanted: &[&str]) {
    assert!(rt; names.len() == wanted.len());
    for (name, wanted) in names.iter().zip(wanted.iter()) {
        assert!(rt; name.as_str() == *wanted);
    }
}

/// Names of a folder, as they come.
const NAMES: [&str; 14] = [
    "b.Mid",
    "a.mid",
    "x.mid.txt",
    "a.MID",
    "é.miD",
    "c.midi",
    ".mid",
    "MID",
    "rmi",
    "a.MIDI",
    "d.rmi",
    "B.mid",
    "",
    "b.Rmi",
];

#[test]
fn keeps_midi_files_in_byte_order(rt: HostRuntime) -> Result<(), Fail> {
    let files = midi_files(owned(rt.alloc(), &NAMES)?, false)?;
    check_names(&rt, files.as_slice(), &[".mid", "B.mid", "a.mid"]);
    Ok(())
}

#[test]
fn takes_more_names_leniently(rt: HostRuntime) -> Result<(), Fail> {
    let files = midi_files(owned(rt.alloc(), &NAMES)?, true)?;
    let wanted = [
        ".mid", "B.mid", "a.MID", "a.MIDI", "a.mid", "b.Mid", "b.Rmi", "c.midi", "d.rmi", "é.miD",
    ];
    check_names(&rt, files.as_slice(), &wanted);
    Ok(())
}

#[test]
fn keeps_endings_in_capitals_apart(rt: HostRuntime) -> Result<(), Fail> {
    let entries = owned(rt.alloc(), &NAMES)?;
    let files = capital_files(rt.alloc(), entries.as_slice(), false)?;
    check_names(&rt, files.as_slice(), &["a.MID", "b.Mid", "é.miD"]);
    let leniently = capital_files(rt.alloc(), entries.as_slice(), true)?;
    check_names(&rt, leniently.as_slice(), &[]);
    Ok(())
}

#[test]
fn takes_256_files(rt: HostRuntime) -> Result<(), Fail> {
    let mut names = owned(rt.alloc(), &["z.mid"])?;
    for _turn in 0..256 {
        names.push("a.mid".to_string(rt.alloc())?)?;
    }
    let files = midi_files(names, false)?;
    let (taken, left_out) = taken_files(files.as_slice());
    assert!(rt; taken.len() == 256);
    assert!(rt; left_out.len() == 1);
    for file in left_out {
        assert!(rt; file.as_str() == "z.mid");
    }
    Ok(())
}

/// A file whose one track has nothing but its end.
pub(super) const SHORT: &[u8; 26] =
    b"MThd\x00\x00\x00\x06\x00\x00\x00\x01\x01\xE0MTrk\x00\x00\x00\x04\x00\xFF\x2F\x00";

/// What is taken of a file of a folder, or why nothing is.
type Content = Result<Mended, WhyLeftOut>;

/// What is taken of each file of a folder.
fn contents(alloc: Global, files: &[Result<&[u8], Standing>]) -> Result<Vec<Content>, Fail> {
    let mut contents = Vec::new(alloc);
    for file in files {
        let content = match file {
            Ok(bytes) => Ok(Mended {
                bytes: Vec::from_slice(alloc, bytes)?,
                running_status: None,
                high_data: None,
            }),
            Err(there) => Err(WhyLeftOut::Unread(*there)),
        };
        contents.push(content)?;
    }
    Ok(contents)
}

/// The first and the last of four files can be played.
fn check_opened(rt: &impl Abort, opened: &FolderFiles<'_>) {
    assert!(rt; opened.files.len() == 2);
    assert!(rt; opened.names.len() == 2);
    for (name, wanted) in opened.names.iter().zip(["a.mid", "d.mid"]) {
        assert!(rt; name.as_slice() == wanted.as_bytes());
    }
    assert!(rt; opened.left_out.len() == 2);
    let others = [
        ("b.mid", WhyLeftOut::Unread(Standing::Folder)),
        ("c.mid", WhyLeftOut::Damaged(SmfFault::ShortHeader)),
    ];
    for (file, (name, why)) in opened.left_out.iter().zip(others) {
        assert!(rt; *file == LeftOutFile { name, why });
    }
}

fn check_four(
    rt: &impl Abort,
    alloc: Global,
    names: &[String],
    contents: &[Content],
) -> Result<(), Fail> {
    if names.len() != contents.len() {
        return Err("a name for each file")?;
    }
    check_opened(rt, &open_files(alloc, names, contents)?);
    Ok(())
}

#[test]
fn leaves_out_what_is_no_file(rt: HostRuntime) -> Result<(), Fail> {
    let alloc = rt.alloc();
    let names = owned(alloc, &["a.mid", "b.mid", "c.mid", "d.mid"])?;
    let files = [
        Ok(&SHORT[..]),
        Err(Standing::Folder),
        Ok(&b"MThd"[..]),
        Ok(&SHORT[..]),
    ];
    let contents = contents(alloc, &files)?;
    check_four(&rt, alloc, names.as_slice(), contents.as_slice())
}

fn sink(alloc: Global) -> Result<MemSink, OutOfMemory>
    ensures { IfOk result (λ s. s.broken ≡ false) }
{
    MemSink::new(alloc, 0)
}

fn script<'a>(client: ClientId) -> ScriptWord<'a> {
    ScriptWord { client, path: "a" }
}

/// A log that is written in these pieces.
fn log_of(alloc: Global, pieces: &[&str]) -> Result<HeldLog, Fail> {
    let mut log = HeldLog::new(alloc);
    for piece in pieces {
        log.write(piece.as_bytes())?;
    }
    Ok(log)
}

/// Prints the logs of clients 128 and 191, of which the one is written in these pieces and the other has no line, and
/// the listing, and tells the outcome.
fn print(
    alloc: Global,
    pieces: &[&str],
    listing: Option<&[u8]>,
    out: &mut MemSink,
) -> Result<Result<(), ToolFault>, Fail>
    requires { out.old.broken ≡ false }
{
    let first = ClientId::new(128).ok_or("a client number")?;
    let second = ClientId::new(191).ok_or("a client number")?;
    let scripts = [script(first), script(second)];
    let other = HeldLog::of_text(alloc, Vec::new(alloc))?;
    let logs = [log_of(alloc, pieces)?, other];
    Ok(print_logs(alloc, &scripts, &logs, listing, out))
}

#[test]
fn prints_logs_and_the_listing(rt: HostRuntime) -> Result<(), Fail> {
    let mut out = sink(rt.alloc())?;
    let listing = b"client 128 keys in 1 out 1\n".as_slice();
    let line = ["0 line 1 ok\n"];
    assert!(rt; print(rt.alloc(), &line, Some(listing), &mut out)? == Ok(()));
    let text = b"client 128\n0 line 1 ok\nclient 191\nclient 128 keys in 1 out 1\n";
    assert!(rt; out.bytes() == text.as_slice());
    Ok(())
}

#[test]
fn stops_at_a_failed_write(rt: HostRuntime) -> Result<(), Fail> {
    let mut out = sink(rt.alloc())?;
    out.fail_at(2);
    let line = ["0 line 1 ok\n"];
    assert!(rt; print(rt.alloc(), &line, None, &mut out)? == Err(ToolFault::Write));
    assert!(rt; out.bytes() == b"client 128\n0 line 1 ok\n".as_slice());
    Ok(())
}

#[test]
fn prints_a_log_piece_by_piece(rt: HostRuntime) -> Result<(), Fail> {
    let pieces = ["0 line 1 ok\n", "", "5 line 2 ok\n7 li", "ne 3 ok\n"];
    for (fails_at, outcome, text) in [
        (
            9,
            Ok(()),
            "client 128\n0 line 1 ok\n5 line 2 ok\n7 line 3 ok\nclient 191\n",
        ),
        (
            3,
            Err(ToolFault::Write),
            "client 128\n0 line 1 ok\n5 line 2 ok\n7 li",
        ),
        (1, Err(ToolFault::Write), "client 128\n"),
    ] {
        let mut out = sink(rt.alloc())?;
        out.fail_at(fails_at);
        assert!(rt;
            print(rt.alloc(), &pieces, None, &mut out)? == outcome,
            "{text}"
        );
        assert!(rt; out.bytes() == text.as_bytes(), "{text}");
    }
    Ok(())
}

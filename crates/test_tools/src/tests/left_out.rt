//! Files of a folder that are left out, and paths that cannot be read, over a folder in memory.

ghost use Rattle.std.specs.Prelude.{◌≡◌, IfOk, false};

use super::sessions::SHORT;
use byte_io::{DeviceFault, MemSink, MemSource};
use file_store::{FileStore, Standing};
use log_forms::LogForm;
use memory::OutOfMemory;
use program_tasks::{
    EndWord, Ended, Folder, Notes, Printing, ProgramFault, RunAnswer, Session, explain, finish,
    reasoned,
};
use std::alloc::Global;
use std::fmt::Display;
use std::process::Abort;
use std::test::Fail;

/// What stands under each name of a folder: a file with these bytes, or what can't be read.
pub(super) type Entry = (&'static str, Result<&'static [u8], Standing>);

/// A folder in memory, and how often a file with the name `a.mid` stands in it beside.
#[derive(Drop)]
pub(super) struct MemFolder {
    pub(super) alloc: Global,
    pub(super) entries: &'static [Entry],
    pub(super) times: u32,
}

/// The name that the folder has beside the others.
const AGAIN: &str = "a.mid";

impl MemFolder {
    /// What stands at a path, which is that of the folder and a name.
    fn at(&self, path: &str) -> Result<&'static [u8], Standing> {
        if path == "tunes" {
            return Err(Standing::Folder);
        }
        if path == "tunes/a.mid" && self.times > 0 {
            return Ok(SHORT);
        }
        for (name, content) in self.entries {
            if path.strip_prefix("tunes/") == Some(*name) {
                return *content;
            }
        }
        Err(Standing::Nothing)
    }
}

fn source(alloc: Global, bytes: &[u8]) -> Result<MemSource, DeviceFault>
    ensures { IfOk result (λ s. s.broken ≡ false) }
{
    Ok(MemSource::new(Vec::from_slice(alloc, bytes)?))
}

impl FileStore for MemFolder {
    type Reader = MemSource;

    type Writer = MemSink;

    ghost IsOpened = { λ _ _. Unit {0} };

    ghost CannotOpen = { λ _. Unit {0} };

    ghost IsStanding = { λ _ _. Unit {0} };

    ghost CannotList = { λ _. Unit {0} };

    ghost HasNames = { λ _ _. Unit {0} };

    ghost IsBegun = { λ _ _. Unit {0} };

    ghost CannotBegin = { λ _. Unit {0} };

    ghost IsStored = { λ _ _. Unit {0} };

    ghost CannotStore = { λ _. Unit {0} };

    ghost IsPlaced = { λ _ _ _. Unit {0} };

    ghost CannotPlace = { λ _. Unit {0} };

    ghost AreOne = { λ _ _. Unit {0} };

    ghost AreApart = { λ _ _. Unit {0} };

    fn open(&self, path: &str) -> Result<MemSource, DeviceFault> {
        match self.at(path) {
            Ok(bytes) => source(self.alloc, bytes),
            Err(_) => Err(DeviceFault::Broken),
        }
    }

    fn open_regular(&self, path: &str) -> Result<MemSource, DeviceFault> {
        self.open(path)
    }

    fn look(&self, path: &str) -> Standing {
        match self.at(path) {
            Ok(_) => Standing::File,
            Err(there) => there,
        }
    }

    fn names(&self, alloc: Global, _folder: &str) -> Result<Vec<String>, DeviceFault> {
        let mut names = Vec::new(alloc);
        for (name, _) in self.entries {
            push_name(alloc, &mut names, name)?;
        }
        for _time in 0..self.times {
            push_name(alloc, &mut names, AGAIN)?;
        }
        Ok(names)
    }

    fn begin(&self, _alloc: Global, _path: &str) -> Result<MemSink, DeviceFault> {
        Err(DeviceFault::Broken)
    }

    fn store(&self, _path: &str, _written: MemSink) -> Result<(), DeviceFault> {
        Err(DeviceFault::Broken)
    }

    fn discard(&self, _begun: MemSink) {}

    fn begin_in_place(&self, _path: &str, _append: bool) -> Result<MemSink, DeviceFault> {
        Err(DeviceFault::Broken)
    }

    fn is_one(&self, path: &str, other: &str) -> bool {
        path == other
    }
}

fn push_name(alloc: Global, names: &mut Vec<String>, name: &str) -> Result<(), DeviceFault> {
    match names.push(String::from_str(alloc, name)?) {
        Ok(()) => Ok(()),
        Err(_) => Err(DeviceFault::OutOfMemory),
    }
}

/// Keeps the lines that it is told.
#[derive(Drop)]
pub(super) struct Kept {
    alloc: Global,
    pub(super) text: String,
}

impl Kept {
    fn add(&mut self, text: &str) {
        let _ = self.text.push_str(text);
    }
}

impl Notes for Kept {
    ghost HasTold = { λ _ _. Unit {0} };

    fn tell<D: Display + Drop>(&mut self, line: D) {
        if let Ok(line) = format!(in self.alloc; "{line}\n") {
            self.add(line.as_str());
        }
    }
}

pub(super) fn notes(alloc: Global) -> Kept {
    let text = String::new(alloc);
    Kept { alloc, text }
}

/// A folder, and what is told of it: without reasons, and with them. The run is complete where no file is told then to
/// be left out.
struct Told {
    entries: &'static [Entry],
    times: u32,
    is_lenient: bool,
    plain: &'static str,
    explained: &'static str,
    is_complete: bool,
}

/// A file whose track begins with something else.
const NO_TRACK: &[u8] =
    b"MThd\x00\x00\x00\x06\x00\x00\x00\x01\x01\xE0MTrk\x00\x00\x00\x04\x00\xF8\x00\x00";

/// A file that keeps its running status over a meta event.
const KEPT: &[u8] = b"MThd\x00\x00\x00\x06\x00\x00\x00\x01\x01\xE0MTrk\x00\x00\x00\x0F\
    \x00\x90\x3C\x40\x00\xFF\x01\x00\x01\x3C\x00\x00\xFF\x2F\x00";

/// The same with a program change, whose data byte has bit 7 set, before its end.
const KEPT_AND_HIGH: &[u8] = b"MThd\x00\x00\x00\x06\x00\x00\x00\x01\x01\xE0MTrk\x00\x00\x00\x12\
    \x00\x90\x3C\x40\x00\xFF\x01\x00\x01\x3C\x00\x00\xC0\x85\x00\xFF\x2F\x00";

/// `SHORT` in a container.
const RMID: &[u8] = b"RIFF\x26\x00\x00\x00RMIDdata\x1A\x00\x00\x00\
    MThd\x00\x00\x00\x06\x00\x00\x00\x01\x01\xE0MTrk\x00\x00\x00\x04\x00\xFF\x2F\x00";

/// `NO_TRACK` in one.
const RMID_OF_NO_TRACK: &[u8] = b"RIFF\x26\x00\x00\x00RMIDdata\x1A\x00\x00\x00\
    MThd\x00\x00\x00\x06\x00\x00\x00\x01\x01\xE0MTrk\x00\x00\x00\x04\x00\xF8\x00\x00";

/// What is told of the first of these, in the order of their names.
const FORGIVEN: &str = "midiseq: kept.MID: forgiven 1 running status 30\n\
    midiseq: late.mid: forgiven 1 running status 30\n\
    midiseq: late.mid: forgiven 1 program change 33\n";

const TOLD: &[Told] = &[
    Told {
        entries: &[("b.mid", Ok(SHORT)), ("b.txt", Err(Standing::Folder))],
        times: 0,
        is_lenient: false,
        plain: "",
        explained: "",
        is_complete: true,
    },
    Told {
        entries: &[("c.mid", Ok(b"RIFF")), ("b.mid", Ok(NO_TRACK))],
        times: 0,
        is_lenient: false,
        plain: "midiseq: left out b.mid\nmidiseq: left out c.mid\n",
        explained: "midiseq: left out b.mid: 13 BadStatus 22\nmidiseq: left out c.mid: 1 NotMidi\n",
        is_complete: false,
    },
    Told {
        entries: &[
            ("a.mid", Err(Standing::Nothing)),
            ("b\n.mid", Err(Standing::Folder)),
            ("c.mid", Err(Standing::Special)),
            ("d.mid", Err(Standing::Denied)),
            ("e.mid", Err(Standing::File)),
        ],
        times: 0,
        is_lenient: false,
        plain: "midiseq: left out a.mid\nmidiseq: left out b\\n.mid\nmidiseq: left out c.mid\n\
            midiseq: left out d.mid\nmidiseq: left out e.mid\n",
        explained: "midiseq: left out a.mid: there is no such file\n\
            midiseq: left out b\\n.mid: it is a folder\n\
            midiseq: left out c.mid: it is no regular file\n\
            midiseq: left out d.mid: it cannot be read\n\
            midiseq: left out e.mid: it cannot be read\n",
        is_complete: false,
    },
    Told {
        entries: &[
            ("b.MID", Ok(SHORT)),
            ("B.Mid", Ok(SHORT)),
            ("c.mid", Ok(SHORT)),
            ("d.MIDI", Ok(SHORT)),
        ],
        times: 0,
        is_lenient: false,
        plain: "",
        explained: "midiseq: left out B.Mid: its name does not end in .mid\n\
            midiseq: left out b.MID: its name does not end in .mid\n",
        is_complete: false,
    },
    Told {
        entries: &[
            ("A.MID", Ok(SHORT)),
            ("Z.mid", Err(Standing::Folder)),
            ("y.mid", Ok(SHORT)),
            ("z.mid", Err(Standing::Folder)),
        ],
        times: 255,
        is_lenient: false,
        plain: "midiseq: left out Z.mid\nmidiseq: left out y.mid\nmidiseq: left out z.mid\n",
        explained: "midiseq: left out Z.mid: it is a folder\n\
            midiseq: left out y.mid: 256 files were taken before it\n\
            midiseq: left out z.mid: 256 files were taken before it\n\
            midiseq: left out A.MID: its name does not end in .mid\n",
        is_complete: false,
    },
    Told {
        entries: &[
            ("kept.MID", Ok(KEPT)),
            ("rmid.rmi", Ok(RMID)),
            ("b.midi", Ok(SHORT)),
            ("late.mid", Ok(KEPT_AND_HIGH)),
        ],
        times: 0,
        is_lenient: true,
        plain: FORGIVEN,
        explained: FORGIVEN,
        is_complete: true,
    },
    Told {
        entries: &[("b.mid", Ok(NO_TRACK)), ("c.rmi", Ok(RMID_OF_NO_TRACK))],
        times: 0,
        is_lenient: true,
        plain: "midiseq: left out b.mid\nmidiseq: left out c.rmi\n",
        explained: "midiseq: left out b.mid: 13 BadStatus 22\n\
            midiseq: left out c.rmi: 13 BadStatus 22\n",
        is_complete: false,
    },
];

/// What is told of a folder, where it is explained or not.
fn check_told(
    rt: &impl Abort,
    alloc: Global,
    folder: &Folder,
    explains: bool,
    text: &str,
    is_complete: bool,
) -> Result<(), Fail> {
    let mut notes = notes(alloc);
    let Ok(opened) = folder.open(alloc, explains, &mut notes) else {
        return Err("a folder")?;
    };
    assert!(rt; notes.text.as_str() == text);
    assert!(rt; folder.takes_all(explains, &opened) == is_complete);
    Ok(())
}

fn check_folder(rt: &impl Abort, alloc: Global, told: &Told) -> Result<(), Fail> {
    let store = MemFolder {
        alloc,
        entries: told.entries,
        times: told.times,
    };
    let Ok(folder) = Folder::read(alloc, &store, Some("tunes"), told.is_lenient) else {
        return Err("a folder")?;
    };
    let complete = told.is_complete || told.plain.is_empty();
    check_told(rt, alloc, &folder, false, told.plain, complete)?;
    check_told(rt, alloc, &folder, true, told.explained, told.is_complete)
}

#[test]
fn tells_what_is_left_out(rt: HostRuntime) -> Result<(), Fail> {
    for told in TOLD {
        check_folder(&rt, rt.alloc(), told)?;
    }
    Ok(())
}

fn sink(alloc: Global) -> Result<MemSink, OutOfMemory>
    ensures { IfOk result (λ s. s.broken ≡ false) }
{
    MemSink::new(alloc, 0)
}

/// Runs no script over a folder, and explains it.
fn answer_of(alloc: Global, told: &Told) -> Result<RunAnswer, Fail> {
    let store = MemFolder {
        alloc,
        entries: told.entries,
        times: told.times,
    };
    let Ok(session) = Session::of_words(
        alloc,
        EndWord::Until("0"),
        Some("tunes"),
        told.is_lenient,
        &[],
    ) else {
        return Err("a session")?;
    };
    let mut out = sink(alloc)?;
    let mut notes = notes(alloc);
    let printing = Printing {
        form: LogForm::Text,
        listed: false,
    };
    match explain(alloc, &store, &session, printing, &mut out, &mut notes) {
        Ok(answer) => Ok(answer),
        Err(_) => Err("a run")?,
    }
}

#[test]
fn ends_with_3_where_a_file_is_left_out(rt: HostRuntime) -> Result<(), Fail> {
    for told in TOLD {
        let answer = answer_of(rt.alloc(), told)?;
        let wanted = if told.is_complete { 0 } else { 3 };
        let mut notes = notes(rt.alloc());
        assert!(rt; finish(Ok(Ended::Judged(answer)), &mut notes) == wanted);
        assert!(rt; notes.text.as_str().is_empty());
    }
    Ok(())
}

/// What stands at a path, and the line of a script there that cannot be read.
const UNREAD: &[(&str, &str)] = &[
    (
        "tunes/a.mid",
        "midiseq: cannot read tunes/a.mid: there is no such file\n",
    ),
    (
        "tunes/b\n.mid",
        "midiseq: cannot read tunes/b\\n.mid: it is a folder\n",
    ),
    ("tunes/c.mid", "midiseq: cannot read tunes/c.mid\n"),
    (
        "tunes/d.mid",
        "midiseq: cannot read tunes/d.mid: permission is denied\n",
    ),
    ("tunes/e.mid", "midiseq: cannot read tunes/e.mid\n"),
    (
        "keys.txt",
        "midiseq: cannot read keys.txt: there is no such file\n",
    ),
    ("-", "midiseq: cannot read -\n"),
];

/// Ends the program with a fault, which tells this line.
fn check_line(
    rt: &impl Abort,
    alloc: Global,
    fault: ProgramFault<'_>,
    text: &str,
) -> Result<(), Fail> {
    let mut notes = notes(alloc);
    assert!(rt; finish(Err(fault), &mut notes) == 1);
    assert!(rt; notes.text.as_str() == text);
    Ok(())
}

#[test]
fn tells_why_a_path_cannot_be_read(rt: HostRuntime) -> Result<(), Fail> {
    let store = MemFolder {
        alloc: rt.alloc(),
        entries: TOLD[2].entries,
        times: 0,
    };
    for (path, text) in UNREAD {
        let fault = reasoned(&store, ProgramFault::CannotRead(path));
        check_line(&rt, rt.alloc(), fault, text)?;
    }
    let other = reasoned(&store, ProgramFault::CannotWrite("tunes/a.mid"));
    check_line(
        &rt,
        rt.alloc(),
        other,
        "midiseq: cannot write tunes/a.mid\n",
    )
}

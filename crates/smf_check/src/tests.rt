//! Checks of files over a store in memory, through the public call.

ghost use Rattle.std.specs.Prelude.{◌≡◌, IfOk, false};

use crate::{CheckAnswer, check_files};
use byte_io::{DeviceFault, MemSink, MemSource};
use file_store::{FileStore, Standing};
use memory::OutOfMemory;
use std::alloc::Global;
use std::process::Abort;
use std::test::Fail;
use tool_text::ToolFault;

/// Paths, what stands there, and what can be read of it.
const ENTRIES: &[(&str, Standing, &[u8])] = &[
    ("songs", Standing::Folder, b""),
    ("songs/A.MID", Standing::File, WHOLE),
    ("songs/a.mid", Standing::File, WHOLE),
    ("songs/b.mid", Standing::File, NO_STATUS),
    ("shut", Standing::Folder, b""),
    ("shut/a.mid", Standing::File, WHOLE),
    ("d.mid", Standing::File, b"RIFF"),
    ("e\t.mid", Standing::Denied, b""),
    ("f.mid", Standing::Special, b""),
    ("g.mid", Standing::File, WHOLE),
    ("soft.mid", Standing::File, OVER_TEXT),
    ("boxed.mid", Standing::File, BOXED),
];

/// The names in the one folder that can be listed.
const NAMES: &[&str] = &["b.mid", "a.txt", "A.MID", "a.mid"];

/// The path of the file of which no read succeeds.
const BROKEN: &str = "g.mid";

/// A track that ends at once.
const WHOLE: &[u8] =
    b"MThd\x00\x00\x00\x06\x00\x00\x00\x01\x00\x60MTrk\x00\x00\x00\x04\x00\xFF\x2F\x00";

/// A track whose second event is a data byte, where no status goes before it.
const NO_STATUS: &[u8] = b"MThd\x00\x00\x00\x06\x00\x00\x00\x01\x00\x60MTrk\x00\x00\x00\x0F\
    \x00\xFF\x58\x04\x04\x02\x18\x08\x00\x3C\x40\x00\xFF\x2F\x00";

/// A note off that leaves out its status behind a text.
const OVER_TEXT: &[u8] = b"MThd\x00\x00\x00\x06\x00\x00\x00\x01\x00\x60MTrk\x00\x00\x00\x10\
    \x00\x90\x3C\x40\x00\xFF\x01\x01a\x60\x3C\x00\x00\xFF\x2F\x00";

/// The same behind two program changes whose data bytes have bit 7 set, in a container.
const BOXED: &[u8] = b"RIFF\x38\x00\x00\x00RMIDdata\x2C\x00\x00\x00\
    MThd\x00\x00\x00\x06\x00\x00\x00\x01\x00\x60MTrk\x00\x00\x00\x16\
    \x00\xC0\x85\x00\xC0\x86\x00\x90\x3C\x40\x00\xFF\x01\x01a\x60\x3C\x00\x00\xFF\x2F\x00";

#[derive(Drop)]
struct MemStore {
    alloc: Global,
}

impl MemStore {
    /// The bytes of a file that can be opened, and else what stands at the path.
    fn at(&self, path: &str) -> Result<&'static [u8], Standing> {
        for (name, there, bytes) in ENTRIES {
            if path == *name {
                return match *there {
                    Standing::File => Ok(*bytes),
                    other => Err(other),
                };
            }
        }
        Err(Standing::Nothing)
    }
}

fn source(alloc: Global, path: &str, bytes: &[u8]) -> Result<MemSource, DeviceFault>
    ensures { IfOk result (λ s. s.broken ≡ false) }
{
    let mut source = MemSource::new(Vec::from_slice(alloc, bytes)?);
    if path == BROKEN {
        source.fail_at(0);
    }
    Ok(source)
}

fn push_name(alloc: Global, names: &mut Vec<String>, name: &str) -> Result<(), DeviceFault> {
    match names.push(String::from_str(alloc, name)?) {
        Ok(()) => Ok(()),
        Err(_) => Err(DeviceFault::OutOfMemory),
    }
}

impl FileStore for MemStore {
    type Reader = MemSource;

    type Writer = MemSink;

    ghost IsOpened = { λ _ _. Unit {0} };

    ghost CannotOpen = { λ _. Unit {0} };

    ghost IsStanding = { λ _ _. Unit {0} };

    ghost CannotList = { λ _. Unit {0} };

    ghost HasNames = { λ _ _. Unit {0} };

    ghost IsBegun = { λ _ _. Unit {0} };

    ghost CannotBegin = { λ _. Unit {0} };

    ghost IsStored = { λ _ _. Unit {0} };

    ghost CannotStore = { λ _. Unit {0} };

    ghost IsPlaced = { λ _ _ _. Unit {0} };

    ghost CannotPlace = { λ _. Unit {0} };

    ghost AreOne = { λ _ _. Unit {0} };

    ghost AreApart = { λ _ _. Unit {0} };

    fn open(&self, path: &str) -> Result<MemSource, DeviceFault> {
        match self.at(path) {
            Ok(bytes) => source(self.alloc, path, bytes),
            Err(_) => Err(DeviceFault::Broken),
        }
    }

    fn open_regular(&self, path: &str) -> Result<MemSource, DeviceFault> {
        self.open(path)
    }

    fn look(&self, path: &str) -> Standing {
        match self.at(path) {
            Ok(_) => Standing::File,
            Err(there) => there,
        }
    }

    fn names(&self, alloc: Global, folder: &str) -> Result<Vec<String>, DeviceFault> {
        if folder != "songs" {
            return Err(DeviceFault::Broken);
        }
        let mut names = Vec::new(alloc);
        for name in NAMES {
            push_name(alloc, &mut names, name)?;
        }
        Ok(names)
    }

    fn begin(&self, _alloc: Global, _path: &str) -> Result<MemSink, DeviceFault> {
        Err(DeviceFault::Broken)
    }

    fn store(&self, _path: &str, _written: MemSink) -> Result<(), DeviceFault> {
        Err(DeviceFault::Broken)
    }

    fn discard(&self, _begun: MemSink) {}

    fn begin_in_place(&self, _path: &str, _append: bool) -> Result<MemSink, DeviceFault> {
        Err(DeviceFault::Broken)
    }

    fn is_one(&self, path: &str, other: &str) -> bool {
        path == other
    }
}

/// Words, whether files that are whole are passed over, whether they are judged by the lenient grammar, what is
/// printed, and the answer.
struct Checked {
    words: &'static [&'static str],
    quiet: bool,
    is_lenient: bool,
    text: &'static str,
    answer: CheckAnswer,
}

const CHECKED: &[Checked] = &[
    Checked {
        words: &["songs", "c.mid"],
        quiet: false,
        is_lenient: false,
        text: "songs/a.mid: ok\nsongs/b.mid: 12 NoStatus 30\n\
            c.mid: cannot read: there is no such file\nok 1 damaged 1 unread 1\n",
        answer: CheckAnswer::SomeNot,
    },
    Checked {
        words: &["songs", "c.mid"],
        quiet: true,
        is_lenient: false,
        text: "songs/b.mid: 12 NoStatus 30\nc.mid: cannot read: there is no such file\n",
        answer: CheckAnswer::SomeNot,
    },
    Checked {
        words: &["d.mid", "shut", "e\t.mid", "f.mid", "g.mid", "songs/a.mid"],
        quiet: false,
        is_lenient: false,
        text: "d.mid: 1 NotMidi\nshut: cannot read: it is a folder\n\
            e\\t.mid: cannot read: permission is denied\nf.mid: cannot read\n\
            g.mid: cannot read\nsongs/a.mid: ok\nok 1 damaged 1 unread 4\n",
        answer: CheckAnswer::SomeNot,
    },
    Checked {
        words: &["shut/a.mid", "songs/a.mid", "songs/a.mid"],
        quiet: true,
        is_lenient: false,
        text: "",
        answer: CheckAnswer::AllWhole,
    },
    Checked {
        words: &["soft.mid", "boxed.mid"],
        quiet: false,
        is_lenient: false,
        text: "soft.mid: 12 NoStatus 31\nboxed.mid: 1 NotMidi\nok 0 damaged 2 unread 0\n",
        answer: CheckAnswer::SomeNot,
    },
    Checked {
        words: &["soft.mid", "boxed.mid", "songs"],
        quiet: false,
        is_lenient: true,
        text: "soft.mid: ok, forgiven 1 running status 31\n\
            boxed.mid: ok, forgiven 1 running status 37, forgiven 2 program change 22\n\
            songs/A.MID: ok\nsongs/a.mid: ok\nsongs/b.mid: 12 NoStatus 30\n\
            ok 4 damaged 1 unread 0\n",
        answer: CheckAnswer::SomeNot,
    },
    Checked {
        words: &["soft.mid", "boxed.mid"],
        quiet: true,
        is_lenient: true,
        text: "",
        answer: CheckAnswer::AllWhole,
    },
    Checked {
        words: &[],
        quiet: false,
        is_lenient: false,
        text: "ok 0 damaged 0 unread 0\n",
        answer: CheckAnswer::AllWhole,
    },
];

fn sink(alloc: Global) -> Result<MemSink, OutOfMemory>
    ensures { IfOk result (λ s. s.broken ≡ false) }
{
    MemSink::new(alloc, 0)
}

fn check_one(rt: &impl Abort, alloc: Global, checked: &Checked) -> Result<(), Fail> {
    let store = MemStore { alloc };
    let mut out = sink(alloc)?;
    let words = checked.words;
    let outcome = check_files(
        alloc,
        &store,
        words,
        checked.quiet,
        checked.is_lenient,
        &mut out,
    );
    let Ok(answer) = outcome else {
        return Err("a check")?;
    };
    assert!(rt; out.bytes() == checked.text.as_bytes());
    assert!(rt; answer == checked.answer);
    Ok(())
}

#[test]
fn tells_what_files_are(rt: HostRuntime) -> Result<(), Fail> {
    for checked in CHECKED {
        check_one(&rt, rt.alloc(), checked)?;
    }
    Ok(())
}

#[test]
fn stops_where_a_write_fails(rt: HostRuntime) -> Result<(), Fail> {
    let store = MemStore { alloc: rt.alloc() };
    let mut out = sink(rt.alloc())?;
    out.fail_at(0);
    let answer = check_files(rt.alloc(), &store, &["songs"], false, false, &mut out);
    assert!(rt; answer == Err(ToolFault::Write));
    assert!(rt; out.bytes().is_empty());
    Ok(())
}

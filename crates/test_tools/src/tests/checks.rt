//! Verdicts on files, over a folder in memory.

ghost use Rattle.std.specs.Prelude.{◌≡◌, IfOk, false};

use super::dump::FORGIVEN;
use super::failing_devices::SMALL;
use super::left_out::{Entry, MemFolder};
use byte_io::MemSink;
use file_store::Standing;
use memory::OutOfMemory;
use program_tasks::{ProgramFault, STANDARD, check};
use smf_check::CheckAnswer;
use std::alloc::Global;
use std::process::Abort;
use std::test::Fail;

/// A whole file, one that ends within its header, and one that can't be read; the last names are none of MIDI files, though
/// one is of a file that is taken leniently.
const ENTRIES: &[Entry] = &[
    ("torn.mid", Err(Standing::Denied)),
    ("short.mid", Ok(b"MThd\x00\x00")),
    ("small.mid", Ok(SMALL)),
    ("notes.txt", Ok(b"")),
    ("old.txt", Ok(FORGIVEN)),
];

/// Words, and what is printed of the files that they name.
struct Check {
    words: &'static [&'static str],
    quiet: bool,
    is_lenient: bool,
    printed: &'static [u8],
    answer: CheckAnswer,
}

const CHECKS: &[Check] = &[
    Check {
        words: &["tunes/small.mid"],
        quiet: false,
        is_lenient: false,
        printed: b"tunes/small.mid: ok\nok 1 damaged 0 unread 0\n",
        answer: CheckAnswer::AllWhole,
    },
    Check {
        words: &["tunes/small.mid"],
        quiet: true,
        is_lenient: false,
        printed: b"",
        answer: CheckAnswer::AllWhole,
    },
    // Of a folder the MIDI files, in byte order; a damaged one does not end it, nor one that can't be read.
    Check {
        words: &["tunes"],
        quiet: false,
        is_lenient: false,
        printed: b"tunes/short.mid: 2 ShortHeader\ntunes/small.mid: ok\n\
            tunes/torn.mid: cannot read: permission is denied\nok 1 damaged 1 unread 1\n",
        answer: CheckAnswer::SomeNot,
    },
    // A file that is named is read whatever its name.
    Check {
        words: &["tunes/notes.txt", "nowhere\n.mid", "tunes/small.mid"],
        quiet: false,
        is_lenient: false,
        printed: b"tunes/notes.txt: 1 NotMidi\nnowhere\\n.mid: cannot read: there is no such file\n\
            tunes/small.mid: ok\nok 1 damaged 1 unread 1\n",
        answer: CheckAnswer::SomeNot,
    },
    Check {
        words: &["tunes", "tunes/small.mid"],
        quiet: true,
        is_lenient: false,
        printed: b"tunes/short.mid: 2 ShortHeader\ntunes/torn.mid: cannot read: permission is denied\n",
        answer: CheckAnswer::SomeNot,
    },
    Check {
        words: &["tunes/old.txt"],
        quiet: false,
        is_lenient: false,
        printed: b"tunes/old.txt: 14 BadData 22\nok 0 damaged 1 unread 0\n",
        answer: CheckAnswer::SomeNot,
    },
    Check {
        words: &["tunes/small.mid", "tunes/old.txt"],
        quiet: false,
        is_lenient: true,
        printed: b"tunes/small.mid: ok\n\
            tunes/old.txt: ok, forgiven 1 running status 34, forgiven 1 program change 22\n\
            ok 2 damaged 0 unread 0\n",
        answer: CheckAnswer::AllWhole,
    },
];

fn sink(alloc: Global) -> Result<MemSink, OutOfMemory>
    ensures { IfOk result (λ s. s.broken ≡ false) }
{
    MemSink::new(alloc, 0)
}

fn folder(alloc: Global) -> MemFolder {
    MemFolder {
        alloc,
        entries: ENTRIES,
        times: 0,
    }
}

#[test]
fn checks_files(rt: HostRuntime) -> Result<(), Fail> {
    for told in CHECKS {
        check_one(&rt, rt.alloc(), told)?;
    }
    Ok(())
}

fn check_one(rt: &impl Abort, alloc: Global, told: &Check) -> Result<(), Fail> {
    let mut out = sink(alloc)?;
    let answer = check(
        alloc,
        &folder(alloc),
        told.words,
        told.quiet,
        told.is_lenient,
        &mut out,
    );
    assert!(rt; answer == Ok(told.answer), "{:?}", told.words);
    assert!(rt; out.bytes() == told.printed, "{:?}", told.words);
    Ok(())
}

/// To a sink that takes a byte at a time, and fails at a write, those of the writes before are printed.
#[test]
fn each_write_of_verdicts_fails(rt: HostRuntime) -> Result<(), Fail> {
    let alloc = rt.alloc();
    let text: &[u8] = b"tunes/small.mid: ok\nok 1 damaged 0 unread 0\n";
    for write in 0..text.len() {
        let mut out = sink(alloc)?;
        out.piece(1);
        out.fail_at(write as u64);
        let words = ["tunes/small.mid"];
        let answer = check(alloc, &folder(alloc), &words, false, false, &mut out);
        assert!(rt; answer == Err(ProgramFault::CannotWrite(STANDARD)));
        assert!(rt; out.bytes() == &text[..write]);
    }
    Ok(())
}

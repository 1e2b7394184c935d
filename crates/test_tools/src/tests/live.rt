//! Lines that are answered as they come, over devices and a folder in memory.

ghost use Rattle.std.specs.Prelude.{◌≡◌, IfOk, false};

use super::failing_devices::{SMALL, repeated};
use super::left_out::{Entry, MemFolder, notes};
use byte_io::{MemSink, MemSource};
use file_store::Standing;
use memory::OutOfMemory;
use program_tasks::{ProgramFault, STANDARD, live};
use std::alloc::Global;
use std::process::Abort;
use std::test::Fail;

/// Lines, and the answers to them.
struct Talk {
    lines: &'static [u8],
    answers: &'static [u8],
}

const TALKS: &[Talk] = &[
    Talk {
        lines: b"",
        answers: b"",
    },
    // What was scheduled comes when its time is said.
    Talk {
        lines: b"0 128 open a 9 9\n0 128 port 0 both 99\n0 128 connect 128:p0 128:p0\n0 128 queue 0 96 500000\n\
            0 128 start 128:q0\n0 128 schedule 128:q0 0 n7 90 3C 40\n6\n7\n",
        answers: b"128 0 line 1 ok\nnext never\n128 0 line 2 ok\nnext never\n128 0 line 3 ok\nnext never\n\
            128 0 line 4 ok\nnext never\n128 0 line 5 ok\nnext never\n128 0 line 6 ok\nnext 7\n\
            next 7\n128 7 port 0 90 3C 40\nnext never\n",
    },
    // On a queue that is held nothing is due until it runs on.
    Talk {
        lines: b"0 128 open a 9 9\n0 128 port 0 out 33\n0 128 queue 0 96 500000\n0 128 schedule 128:q0 0 n7 F8\n\
            5 128 start 128:q0\n6 128 stop 128:q0\n9 128 continue 128:q0\n",
        answers: b"128 0 line 1 ok\nnext never\n128 0 line 2 ok\nnext never\n128 0 line 3 ok\nnext never\n\
            128 0 line 4 ok\nnext never\n128 5 line 5 ok\nnext 12\n128 6 line 6 ok\nnext never\n\
            128 9 line 7 ok\nnext 15\n",
    },
    // Each client's lines are counted by themselves, skipped ones too; and what names nobody beside them.
    Talk {
        lines: b"5 128 open a 9 9\n\n# remark\n4 129 open b 9 9\n5 129 nonsense\n4\n5 130\n5 129 open b 9 9\r\nx\n",
        answers: b"128 5 line 1 ok\nnext never\n129 skip 1 late\nnext never\n129 skip 2 unreadable\nnext never\n\
            skip 1 late\nnext never\n130 skip 1 unreadable\nnext never\n129 5 line 3 ok\nnext never\n\
            skip 2 unreadable\nnext never\n",
    },
    // A file of the folder is played; the folder has no other.
    Talk {
        lines: b"0 128 open a 9 9\n0 128 port 0 both 99\n0 128 connect 128:p0 128:p0\n0 128 queuefrom 0 small.mid\n\
            0 128 play 128:q0 0 small.mid\n0 128 play 128:q0 0 other.mid\n0 128 start 128:q0\n0\nlist\n",
        answers: b"128 0 line 1 ok\nnext never\n128 0 line 2 ok\nnext never\n128 0 line 3 ok\nnext never\n\
            128 0 line 4 ok\nnext never\n128 0 line 5 ok\nnext never\n128 0 line 6 refused 20 NoFile\nnext never\n\
            128 0 line 7 ok\nnext 0\n128 0 port 0 90 3C 40\nnext 500000000\n\
            list client 128 a in 9 out 9\nlist port 128:p0 both 99\nlist queue 128:q0 running\n\
            list edge 128:p0 128:p0\nnext 500000000\n",
    },
    // What has no line feed is no line.
    Talk {
        lines: b"7\n0 128 open a 9 9",
        answers: b"next never\n",
    },
];

/// The folder has a file, and what is none.
const ENTRIES: &[Entry] = &[
    ("small.mid", Ok(SMALL)),
    ("torn.mid", Err(Standing::Denied)),
];

const LEFT_OUT: &str = "midiseq: left out torn.mid\n";

fn source(alloc: Global, bytes: &[u8]) -> Result<MemSource, OutOfMemory>
    ensures { IfOk result (λ s. s.broken ≡ false) }
{
    Ok(MemSource::new(Vec::from_slice(alloc, bytes)?))
}

fn sink(alloc: Global) -> Result<MemSink, OutOfMemory>
    ensures { IfOk result (λ s. s.broken ≡ false) }
{
    MemSink::new(alloc, 0)
}

/// The lines are answered so, of clients that may play the files of the folder; and the file that is left out is told.
fn check(rt: &impl Abort, alloc: Global, talk: &Talk) -> Result<(), Fail> {
    let store = MemFolder {
        alloc,
        entries: ENTRIES,
        times: 0,
    };
    let mut told = notes(alloc);
    let mut input = source(alloc, talk.lines)?;
    let mut out = sink(alloc)?;
    let outcome = live(
        alloc,
        &store,
        Some("tunes"),
        false,
        &mut input,
        &mut out,
        &mut told,
    );
    assert!(rt; outcome == Ok(()));
    assert!(rt; out.bytes() == talk.answers, "{:?}", talk.lines);
    assert!(rt; told.text.as_str() == LEFT_OUT);
    Ok(())
}

#[test]
fn answers_lines(rt: HostRuntime) -> Result<(), Fail> {
    for talk in TALKS {
        check(&rt, rt.alloc(), talk)?;
    }
    Ok(())
}

/// What is printed of lines where a device fails, and how that ends.
fn printed(
    alloc: Global,
    input: &mut MemSource,
    out: &mut MemSink,
) -> Result<(), ProgramFault<'static>>
    requires input { input.old.broken ≡ false }
    requires out { out.old.broken ≡ false }
{
    let store = MemFolder {
        alloc,
        entries: &[],
        times: 0,
    };
    live(alloc, &store, None, false, input, out, &mut notes(alloc))
}

/// To a sink that takes a byte at a time, and fails at a write, those of the writes before are printed.
#[test]
fn each_write_of_answers_fails(rt: HostRuntime) -> Result<(), Fail> {
    let alloc = rt.alloc();
    let (lines, answers) = (
        b"0 128 open a 9 9\n5\n",
        b"128 0 line 1 ok\nnext never\nnext never\n",
    );
    for write in 0..answers.len() {
        let mut input = source(alloc, lines)?;
        let mut out = sink(alloc)?;
        out.piece(1);
        out.fail_at(write as u64);
        let outcome = printed(alloc, &mut input, &mut out);
        assert!(rt; outcome == Err(ProgramFault::CannotWrite(STANDARD)));
        assert!(rt; out.bytes() == &answers[..write]);
    }
    Ok(())
}

/// The lines are read in pieces of 4,096 bytes. Whichever read fails, each line that came before it is answered.
#[test]
fn each_read_of_lines_fails(rt: HostRuntime) -> Result<(), Fail> {
    let alloc = rt.alloc();
    // The first piece ends within a line.
    let lines = repeated(alloc, b"77\n", 3000)?;
    for (read, answered) in [(0, 0), (1, 1365), (2, 2730), (3, 3000)] {
        let mut input = source(alloc, lines.as_slice())?;
        input.fail_at(read);
        let mut out = sink(alloc)?;
        let outcome = printed(alloc, &mut input, &mut out);
        let answers = repeated(alloc, b"next never\n", answered)?;
        assert!(rt; outcome == Err(ProgramFault::CannotRead(STANDARD)));
        assert!(rt; out.bytes() == answers.as_slice(), "{read}");
    }
    Ok(())
}

//! Files that are not made of texts: of each reason the fault, over a folder in memory.

ghost use Rattle.std.specs.Prelude.{◌≡◌, IfOk, false};

use super::left_out::{Entry, MemFolder};
use byte_io::MemSource;
use memory::OutOfMemory;
use program_tasks::{ProgramFault, STANDARD, Stream, make};
use smf_make::{Expected, MakeFault};
use std::alloc::Global;
use std::process::Abort;
use std::test::Fail;

const WHOLE: &[u8] = b"format 0 tracks 1 division 480\ntrack 0\n0 90 3C 40\n480 end\n";

/// The text of a file, and one whose third line goes back in time.
const ENTRIES: &[Entry] = &[
    ("whole.txt", Ok(WHOLE)),
    (
        "back.txt",
        Ok(b"format 0 tracks 1 division 480\ntrack 0\n7 90 3C 40\n6 end\n"),
    ),
];

/// The stream of a text, where the file is to go, and why it does not.
struct Making {
    text: Stream<'static>,
    out: &'static str,
    fault: ProgramFault<'static>,
}

const MAKINGS: &[Making] = &[
    Making {
        text: Stream::Path("nowhere.txt"),
        out: "new.mid",
        fault: ProgramFault::CannotRead("nowhere.txt"),
    },
    Making {
        text: Stream::Path("tunes/whole.txt"),
        out: "tunes/whole.txt",
        fault: ProgramFault::OutIsText("tunes/whole.txt"),
    },
    Making {
        text: Stream::Path("tunes/back.txt"),
        out: "new.mid",
        fault: ProgramFault::Make(MakeFault::Line {
            line: 4,
            expected: Expected::Event { from: 7 },
        }),
    },
    // The store takes no file.
    Making {
        text: Stream::Path("tunes/whole.txt"),
        out: "new.mid",
        fault: ProgramFault::CannotWrite("new.mid"),
    },
    Making {
        text: Stream::Standard,
        out: "new.mid",
        fault: ProgramFault::Make(MakeFault::Line {
            line: 2,
            expected: Expected::Track(0),
        }),
    },
];

fn source(alloc: Global, bytes: &[u8]) -> Result<MemSource, OutOfMemory>
    ensures { IfOk result (λ s. s.broken ≡ false) }
{
    Ok(MemSource::new(Vec::from_slice(alloc, bytes)?))
}

fn folder(alloc: Global) -> MemFolder {
    MemFolder {
        alloc,
        entries: ENTRIES,
        times: 0,
    }
}

#[test]
fn makes_no_files(rt: HostRuntime) -> Result<(), Fail> {
    for told in MAKINGS {
        check(&rt, rt.alloc(), told)?;
    }
    Ok(())
}

fn check(rt: &impl Abort, alloc: Global, told: &Making) -> Result<(), Fail> {
    let mut input = source(alloc, b"format 0 tracks 1 division 480\ntrack 1\n")?;
    let outcome = make(alloc, &folder(alloc), told.text, told.out, &mut input);
    assert!(rt; outcome == Err(told.fault), "{}", told.out);
    Ok(())
}

/// A text on standard input whose read fails is told by the name of standard input.
#[test]
fn a_read_of_a_text_fails(rt: HostRuntime) -> Result<(), Fail> {
    let alloc = rt.alloc();
    let mut input = source(alloc, WHOLE)?;
    input.fail_at(1);
    let outcome = make(
        alloc,
        &folder(alloc),
        Stream::Standard,
        "new.mid",
        &mut input,
    );
    assert!(rt; outcome == Err(ProgramFault::CannotRead(STANDARD)));
    Ok(())
}

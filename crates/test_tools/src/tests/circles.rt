//! Circles, from the files of scripts to the text that is printed, over files in memory.

ghost use Rattle.std.specs.Prelude.{◌≡◌, IfOk, false};

use byte_io::{DeviceFault, MemSink, MemSource};
use file_store::{FileStore, Standing};
use memory::OutOfMemory;
use node_table::ClientId;
use program_tasks::{
    CircleAnswer, CircleQuestion, EndWord, Ended, Notes, ProgramFault, Session, circle, finish,
};
use std::alloc::Global;
use std::fmt::Display;
use std::process::Abort;
use std::test::Fail;

/// The file whose reads fail.
pub(super) const BROKEN: &str = "broken.txt";

fn source(alloc: Global, path: &str, bytes: &[u8]) -> Result<MemSource, DeviceFault>
    ensures { IfOk result (λ s. s.broken ≡ false) }
{
    let mut source = MemSource::new(Vec::from_slice(alloc, bytes)?);
    if path != BROKEN {
        return Ok(source);
    }
    source.fail_at(0);
    Ok(source)
}

/// The log that can't be begun, and the one whose second write fails.
pub(super) const SEALED: &str = "sealed/129.log";

pub(super) const FULL: &str = "full/129.log";

fn log_sink(alloc: Global, path: &str) -> Result<MemSink, DeviceFault>
    ensures { IfOk result (λ s. s.broken ≡ false) }
{
    if path == SEALED {
        return Err(DeviceFault::Broken);
    }
    let mut sink = MemSink::new(alloc, 0)?;
    if path == FULL {
        sink.fail_at(1);
    }
    Ok(sink)
}

/// Files in memory by their paths. What is written to them is lost.
#[derive(Drop)]
pub(super) struct MemFiles {
    pub(super) alloc: Global,
    pub(super) files: &'static [(&'static str, &'static [u8])],
}

impl FileStore for MemFiles {
    type Reader = MemSource;

    type Writer = MemSink;

    ghost IsOpened = { λ _ _. Unit {0} };

    ghost CannotOpen = { λ _. Unit {0} };

    ghost IsStanding = { λ _ _. Unit {0} };

    ghost CannotList = { λ _. Unit {0} };

    ghost HasNames = { λ _ _. Unit {0} };

    ghost IsBegun = { λ _ _. Unit {0} };

    ghost CannotBegin = { λ _. Unit {0} };

    ghost IsStored = { λ _ _. Unit {0} };

    ghost CannotStore = { λ _. Unit {0} };

    ghost IsPlaced = { λ _ _ _. Unit {0} };

    ghost CannotPlace = { λ _. Unit {0} };

    ghost AreOne = { λ _ _. Unit {0} };

    ghost AreApart = { λ _ _. Unit {0} };

    fn open(&self, path: &str) -> Result<MemSource, DeviceFault> {
        for (name, bytes) in self.files {
            if *name == path {
                return source(self.alloc, path, bytes);
            }
        }
        Err(DeviceFault::Broken)
    }

    fn open_regular(&self, path: &str) -> Result<MemSource, DeviceFault> {
        self.open(path)
    }

    fn look(&self, path: &str) -> Standing {
        if self.open(path).is_ok() {
            Standing::File
        } else {
            Standing::Nothing
        }
    }

    fn names(&self, _alloc: Global, _folder: &str) -> Result<Vec<String>, DeviceFault> {
        Err(DeviceFault::Broken)
    }

    fn begin(&self, _alloc: Global, _path: &str) -> Result<MemSink, DeviceFault> {
        Err(DeviceFault::Broken)
    }

    fn store(&self, _path: &str, _written: MemSink) -> Result<(), DeviceFault> {
        Err(DeviceFault::Broken)
    }

    fn discard(&self, _begun: MemSink) {}

    fn begin_in_place(&self, path: &str, _append: bool) -> Result<MemSink, DeviceFault> {
        log_sink(self.alloc, path)
    }

    fn is_one(&self, path: &str, other: &str) -> bool {
        path == other
    }
}

/// Counts the lines that it is told.
#[derive(Drop)]
pub(super) struct Counted {
    pub(super) lines: u64,
}

impl Notes for Counted {
    ghost HasTold = { λ _ _. Unit {0} };

    fn tell<D: Display + Drop>(&mut self, _line: D) {
        self.lines = self.lines.saturating_add(1);
    }
}

/// The scripts of a studio, a synthesizer that anyone may join, one who joins it and one who finds no port there, and a
/// file that can't be read.
const FILES: &[(&str, &[u8])] = &[
    (
        "keyboard.txt",
        b"0 open keyboard 16 16\n0 port 0 keys 33\n100 bytes 0 92 43 50\n600 schedule 129:q0 0 t960 92 48 50\n",
    ),
    (
        "sequencer.txt",
        b"0 open sequencer 16 16\n0 port 0 tune 33\n0 queue 0 480 500000\n0 share 129:q0\n500 start 129:q0\n",
    ),
    (
        "synthesizer.txt",
        b"0 open synthesizer 100 1\n0 port 0 voices 2\n0 filter 0 3 5 3 0 127 12\n0 connect 128:p0 130:f0\n\
0 connect 129:p0 130:f0\n0 connect 130:f0 130:p0\n",
    ),
    (
        "open.txt",
        b"0 open synth 100 100\n0 port 0 in 66\n0 connect 128:p0 129:p0\n",
    ),
    (
        "joiner.txt",
        b"0 open joiner 9 9\n0 port 0 out 1\n1 connect 130:p0 129:p0\n",
    ),
    (
        "refused.txt",
        b"0 open refused 9 9\n0 port 0 out 1\n1 connect 130:p0 129:p1\n",
    ),
    ("back.txt", b"5 open keys 16 16\n3 port 0 keys 33\n"),
    (BROKEN, b"0 open keys 100 100\n"),
];

/// The moment at which the sessions end.
const UNTIL: &str = "1000";

/// No moment is greater.
const NO_END: &str = "18446744073709551615";

fn sink(alloc: Global) -> Result<MemSink, OutOfMemory>
    ensures { IfOk result (λ s. s.broken ≡ false) }
{
    MemSink::new(alloc, 0)
}

/// Asks for the circle round a client, and whether it is closed in its session.
fn round(owner: u8, in_session: bool) -> Result<CircleQuestion, Fail> {
    let owner = ClientId::new(owner).ok_or("a client number")?;
    Ok(CircleQuestion::Of { owner, in_session })
}

/// Prints the circles that are asked for. No line is told beside them.
fn print(
    rt: &impl Abort,
    alloc: Global,
    question: CircleQuestion,
    until: &'static str,
    words: &[&'static str],
    out: &mut MemSink,
) -> Result<CircleAnswer, ProgramFault<'static>>
    requires { out.old.broken ≡ false }
{
    let store = MemFiles {
        alloc,
        files: FILES,
    };
    let mut notes = Counted { lines: 0 };
    let session = Session::of_words(alloc, EndWord::Until(until), None, false, words)?;
    let answer = circle(alloc, &store, &session, question, out, &mut notes);
    assert!(rt; notes.lines == 0);
    answer
}

/// What is asked of the session of these words is printed so, and answered so.
fn check(
    rt: &impl Abort,
    alloc: Global,
    question: CircleQuestion,
    words: &[&'static str],
    text: &str,
    answer: CircleAnswer,
) -> Result<(), Fail> {
    let mut out = sink(alloc)?;
    assert!(rt; print(rt, alloc, question, UNTIL, words, &mut out) == Ok(answer));
    assert!(rt; out.bytes() == text.as_bytes());
    Ok(())
}

/// A keyboard, a sequencer and a synthesizer.
const STUDIO: [&str; 3] = [
    "128=keyboard.txt",
    "129=sequencer.txt",
    "130=synthesizer.txt",
];

#[test]
fn prints_circles(rt: HostRuntime) -> Result<(), Fail> {
    let shut = "circle 130\n\
        member 128 because line 4 of 130 connects 128:p0 to 130:f0\n\
        member 129 because line 5 of 130 connects 129:p0 to 130:f0\nshut\n";
    check(
        &rt,
        rt.alloc(),
        round(130, false)?,
        &STUDIO,
        shut,
        CircleAnswer::Shut,
    )
}

#[test]
fn prints_all_circles(rt: HostRuntime) -> Result<(), Fail> {
    let shut = "128 shut with 129\n129 shut\n130 shut with 128 129\n";
    let open = "129 open line 2 of 129 port 0 caps 66: anyone may join it\n";
    check(
        &rt,
        rt.alloc(),
        CircleQuestion::OfAll,
        &STUDIO,
        shut,
        CircleAnswer::Shut,
    )?;
    check(
        &rt,
        rt.alloc(),
        CircleQuestion::OfAll,
        &["129=open.txt"],
        open,
        CircleAnswer::Open,
    )
}

#[test]
fn answers_for_every_end(rt: HostRuntime) -> Result<(), Fail> {
    let words = ["129=sequencer.txt", "128=back.txt"];
    for (question, shut) in [
        (round(129, false)?, "circle 129\nshut\n"),
        (CircleQuestion::OfAll, "129 shut\n"),
    ] {
        let mut out = sink(rt.alloc())?;
        let printed = print(&rt, rt.alloc(), question, NO_END, &words, &mut out);
        let (client, line) = (128, 2);
        assert!(rt; printed == Err(ProgramFault::GoesBack { client, line }));
        assert!(rt; out.bytes().is_empty());
        let mut out = sink(rt.alloc())?;
        let printed = print(&rt, rt.alloc(), question, NO_END, &words[..1], &mut out);
        assert!(rt; printed == Ok(CircleAnswer::Shut));
        assert!(rt; out.bytes() == shut.as_bytes());
    }
    Ok(())
}

#[test]
fn prints_a_circle_that_is_open(rt: HostRuntime) -> Result<(), Fail> {
    let words = ["129=open.txt", "128=keyboard.txt"];
    let open = "circle 129\n\
        member 128 because line 3 of 129 connects 128:p0 to 129:p0\n\
        open line 2 of 129 port 0 caps 66: anyone may join it\n\
        mend line 2 of 129 port 0 caps 2: nobody else may join it\nopen\n";
    check(
        &rt,
        rt.alloc(),
        round(129, false)?,
        &words,
        open,
        CircleAnswer::Open,
    )
}

/// Whether the circle of the open synthesizer is closed in the session of these words is told so.
fn check_in_session(
    rt: &impl Abort,
    alloc: Global,
    words: &[&'static str],
    told: &str,
) -> Result<(), Fail> {
    let open = format!(in alloc;
        "circle 129\n\
        member 128 because line 3 of 129 connects 128:p0 to 129:p0\n\
        open line 2 of 129 port 0 caps 66: anyone may join it\n\
        mend line 2 of 129 port 0 caps 2: nobody else may join it\nopen\n{told}\n"
    )?;
    check(
        rt,
        alloc,
        round(129, true)?,
        words,
        open.as_str(),
        CircleAnswer::Open,
    )
}

#[test]
fn tells_whether_it_is_closed_in_its_session(rt: HostRuntime) -> Result<(), Fail> {
    let words = ["129=open.txt", "128=keyboard.txt", "130=joiner.txt"];
    let closed = "closed in this session";
    check_in_session(&rt, rt.alloc(), &words[..2], closed)?;
    let reached = "reached by line 3 of 130 connects 130:p0 to 129:p0";
    check_in_session(&rt, rt.alloc(), &words, reached)?;
    let words = ["129=open.txt", "128=keyboard.txt", "130=refused.txt"];
    check_in_session(&rt, rt.alloc(), &words, closed)
}

#[test]
fn tells_who_has_no_script(rt: HostRuntime) -> Result<(), Fail> {
    let words = ["128=keyboard.txt"];
    let silent = "circle 128\n\
        member 129 because line 4 of 128 schedules on 129:q0, and has no script\nshut\n";
    check(
        &rt,
        rt.alloc(),
        round(128, false)?,
        &words,
        silent,
        CircleAnswer::Shut,
    )?;
    check(
        &rt,
        rt.alloc(),
        round(191, false)?,
        &words,
        "circle 191\nshut\n",
        CircleAnswer::Shut,
    )
}

// All scripts are opened before the first is read.
#[test]
fn prints_nothing_where_a_script_cannot_be_read(rt: HostRuntime) -> Result<(), Fail> {
    for (words, path) in [
        (["128=keyboard.txt", "129=none.txt"], "none.txt"),
        (["128=broken.txt", "129=open.txt"], "broken.txt"),
        (["128=broken.txt", "129=none.txt"], "none.txt"),
    ] {
        let mut out = sink(rt.alloc())?;
        let printed = print(&rt, rt.alloc(), round(128, false)?, UNTIL, &words, &mut out);
        assert!(rt; printed == Err(ProgramFault::CannotRead(path)));
        assert!(rt; out.bytes().is_empty());
    }
    Ok(())
}

#[test]
fn tells_that_nothing_more_is_taken(rt: HostRuntime) -> Result<(), Fail> {
    let mut out = sink(rt.alloc())?;
    out.fail_at(0);
    let printed = print(
        &rt,
        rt.alloc(),
        round(130, false)?,
        UNTIL,
        &STUDIO,
        &mut out,
    );
    assert!(rt; printed == Err(ProgramFault::CannotWrite("-")));
    assert!(rt; out.bytes().is_empty());
    Ok(())
}

#[test]
fn ends_as_the_circle_is(rt: HostRuntime) {
    let mut notes = Counted { lines: 0 };
    for (ended, status) in [
        (Ended::Done, 0),
        (Ended::Answered(CircleAnswer::Shut), 0),
        (Ended::Answered(CircleAnswer::Open), 3),
    ] {
        assert!(rt; finish(Ok(ended), &mut notes) == status);
    }
    assert!(rt; notes.lines == 0);
}

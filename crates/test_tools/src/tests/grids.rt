//! The ticks and the tempos of files, as words say them.

use super::circles::{BROKEN, MemFiles};
use program_tasks::{GridWords, ProgramFault};
use smf_files::SmfFault;
use std::alloc::Global;
use std::process::Abort;
use std::test::Fail;
use tempo_clock::TempoEntry;

/// Files by their paths.
const FILES: &[(&str, &[u8])] = &[
    // 96 ticks per quarter note of half a second, and from tick 96 on of a quarter of one.
    (
        "tempos.mid",
        b"MThd\x00\x00\x00\x06\x00\x00\x00\x01\x00\x60MTrk\x00\x00\x00\x12\
        \x00\xFF\x51\x03\x07\xA1\x20\x60\xFF\x51\x03\x03\xD0\x90\x00\xFF\x2F\x00",
    ),
    // 25 frames per second of 40 ticks each.
    (
        "frames.mid",
        b"MThd\x00\x00\x00\x06\x00\x00\x00\x01\xE7\x28MTrk\x00\x00\x00\x04\x00\xFF\x2F\x00",
    ),
    // 480 ticks per quarter note, and no tempo: a quarter note lasts half a second.
    (
        "short.mid",
        b"MThd\x00\x00\x00\x06\x00\x00\x00\x01\x01\xE0MTrk\x00\x00\x00\x04\x00\xFF\x2F\x00",
    ),
    ("keys.txt", b"0 open keys 100 100\n"),
    // Tracks that play behind one another.
    (
        "two.mid",
        b"MThd\x00\x00\x00\x06\x00\x02\x00\x01\x01\xE0MTrk\x00\x00\x00\x04\x00\xFF\x2F\x00",
    ),
    (BROKEN, b""),
];

/// The words give this division word and these tempo entries.
fn check_grid(
    rt: &impl Abort,
    alloc: Global,
    words: GridWords<'static>,
    division: u16,
    entries: &[TempoEntry],
) -> Result<(), Fail> {
    let store = MemFiles {
        alloc,
        files: FILES,
    };
    let grid = words.grid(alloc, &store).ok().ok_or("a grid")?;
    assert!(rt; grid.division() == division);
    let (first, more) = grid.entries();
    assert!(rt; first == entries);
    assert!(rt; more.is_empty());
    Ok(())
}

/// The words give no ticks, for this reason.
fn check_fault(
    rt: &impl Abort,
    alloc: Global,
    words: GridWords<'static>,
    fault: ProgramFault<'static>,
) {
    let store = MemFiles {
        alloc,
        files: FILES,
    };
    assert!(rt; words.grid(alloc, &store).err() == Some(fault));
}

#[test]
fn reads_ticks_and_tempos(rt: HostRuntime) -> Result<(), Fail> {
    for (ppq, bpm, division, tempo) in [
        (None, None, 480, 500_000),
        (Some("96"), None, 96, 500_000),
        (Some("96"), Some("120"), 96, 500_000),
        (None, Some("100"), 480, 600_000),
        (Some("1"), Some("60000000"), 1, 1),
        (Some("32767"), Some("4"), 32_767, 15_000_000),
        (Some("00480"), Some("0060"), 480, 1_000_000),
        // A seventh of 60,000,000 is 8,571,428 and four sevenths.
        (None, Some("7"), 480, 8_571_428),
        (None, Some("40000000"), 480, 1),
    ] {
        let words = GridWords::Said { ppq, bpm };
        let entry = TempoEntry { tick: 0, tempo };
        check_grid(&rt, rt.alloc(), words, division, &[entry])?;
    }
    Ok(())
}

#[test]
fn tells_what_says_no_ticks(rt: HostRuntime) {
    for word in ["0", "32768", "", "96.0", "-96", "+96", "96 ", "ninety"] {
        let words = GridWords::Said {
            ppq: Some(word),
            bpm: Some("3"),
        };
        check_fault(&rt, rt.alloc(), words, ProgramFault::NotAPpq(word));
    }
}

#[test]
fn tells_what_says_no_tempo(rt: HostRuntime) {
    for word in ["3", "60000001", "0", "", "120.5", "-120", "4294967416"] {
        let words = GridWords::Said {
            ppq: Some("96"),
            bpm: Some(word),
        };
        check_fault(&rt, rt.alloc(), words, ProgramFault::NotABpm(word));
    }
}

#[test]
fn takes_ticks_and_tempos_of_a_file(rt: HostRuntime) -> Result<(), Fail> {
    let first = TempoEntry {
        tick: 0,
        tempo: 500_000,
    };
    let second = TempoEntry {
        tick: 96,
        tempo: 250_000,
    };
    let tempos = GridWords::Like("tempos.mid");
    check_grid(&rt, rt.alloc(), tempos, 96, &[first, second])?;
    let frames = GridWords::Like("frames.mid");
    check_grid(&rt, rt.alloc(), frames, 0xE728, &[])?;
    let short = GridWords::Like("short.mid");
    check_grid(&rt, rt.alloc(), short, 480, &[first])
}

#[test]
fn tells_of_a_file_that_gives_no_ticks(rt: HostRuntime) {
    for (path, fault) in [
        ("none.mid", ProgramFault::CannotRead("none.mid")),
        (BROKEN, ProgramFault::CannotRead(BROKEN)),
        ("keys.txt", ProgramFault::Smf(SmfFault::NotMidi)),
        ("two.mid", ProgramFault::Smf(SmfFault::Format2)),
    ] {
        check_fault(&rt, rt.alloc(), GridWords::Like(path), fault);
    }
}

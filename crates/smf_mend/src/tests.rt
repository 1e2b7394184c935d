//! Files that are mended, files that are not, and containers, with bytes worked out by hand.

use crate::{Forgiven, mend, unwrapped};
use smf_grammar::SmfFault;
use std::test::Fail;

/// A file, and what comes of it.
struct Row {
    name: &'static str,
    given: &'static [u8],
    mended: &'static [u8],
    running_status: Option<Forgiven>,
    high_data: Option<Forgiven>,
}

/// Two tracks of format 1 and a chunk of another type. The second message of the first track stands behind a text.
const TWO_TRACKS: &[u8] = b"MThd\x00\x00\x00\x06\x00\x01\x00\x02\x00\x60MTrk\x00\x00\x00\x10\
    \x00\x90\x3C\x40\x00\xFF\x01\x01a\x60\x3C\x00\x00\xFF\x2F\x00\
    XYZ1\x00\x00\x00\x01\xAAMTrk\x00\x00\x00\x0F\
    \x00\xC0\x85\x00\x06\x00\xC0\x87\x81\x00\x08\x00\xFF\x2F\x00";

const ROWS: &[Row] = &[
    Row {
        name: "a strict file",
        given: b"MThd\x00\x00\x00\x06\x00\x00\x00\x01\x00\x60MTrk\x00\x00\x00\x0B\
            \x00\x90\x3C\x40\x60\x3C\x00\x00\xFF\x2F\x00",
        mended: b"MThd\x00\x00\x00\x06\x00\x00\x00\x01\x00\x60MTrk\x00\x00\x00\x0B\
            \x00\x90\x3C\x40\x60\x3C\x00\x00\xFF\x2F\x00",
        running_status: None,
        high_data: None,
    },
    Row {
        name: "running status over a meta event, and two exclusive ones",
        given: b"MThd\x00\x00\x00\x06\x00\x00\x00\x01\x00\x60MTrk\x00\x00\x00\x1B\
            \x00\x90\x3C\x40\x00\xFF\x01\x01a\x60\x3C\x00\x00\xF0\x01\xF7\x00\xF7\x01\xF8\
            \x00\x3E\x40\x00\xFF\x2F\x00",
        mended: b"MThd\x00\x00\x00\x06\x00\x00\x00\x01\x00\x60MTrk\x00\x00\x00\x1D\
            \x00\x90\x3C\x40\x00\xFF\x01\x01a\x60\x90\x3C\x00\x00\xF0\x01\xF7\x00\xF7\x01\xF8\
            \x00\x90\x3E\x40\x00\xFF\x2F\x00",
        running_status: Some(Forgiven {
            times: 2,
            first: 31,
        }),
        high_data: None,
    },
    Row {
        name: "a program change with bit 7",
        given: b"MThd\x00\x00\x00\x06\x00\x00\x00\x01\x00\x60MTrk\x00\x00\x00\x08\
            \x81\x00\xC0\x85\x00\xFF\x2F\x00",
        mended: b"MThd\x00\x00\x00\x06\x00\x00\x00\x01\x00\x60MTrk\x00\x00\x00\x08\
            \x81\x00\xC0\x05\x00\xFF\x2F\x00",
        running_status: None,
        high_data: Some(Forgiven {
            times: 1,
            first: 22,
        }),
    },
    Row {
        name: "two tracks",
        given: TWO_TRACKS,
        mended: b"MThd\x00\x00\x00\x06\x00\x01\x00\x02\x00\x60MTrk\x00\x00\x00\x11\
            \x00\x90\x3C\x40\x00\xFF\x01\x01a\x60\x90\x3C\x00\x00\xFF\x2F\x00\
            MTrk\x00\x00\x00\x0E\x00\xC0\x05\x00\x06\x00\x07\x81\x00\x08\x00\xFF\x2F\x00",
        running_status: Some(Forgiven {
            times: 1,
            first: 31,
        }),
        high_data: Some(Forgiven {
            times: 2,
            first: 55,
        }),
    },
];

#[test]
fn mends_files(rt: HostRuntime) -> Result<(), Fail> {
    for row in ROWS {
        let name = row.name;
        let Ok(mended) = mend(rt.alloc(), row.given) else {
            return Err(Fail::new("a file is not mended"));
        };
        assert!(rt; mended.bytes.as_slice() == row.mended, "{name}");
        assert!(rt; mended.running_status == row.running_status, "{name}");
        assert!(rt; mended.high_data == row.high_data, "{name}");
    }
    Ok(())
}

/// Files that are not mended, and their faults.
const FAULTS: &[(&'static [u8], SmfFault)] = &[
    // Before any status.
    (
        b"MThd\x00\x00\x00\x06\x00\x00\x00\x01\x00\x60MTrk\x00\x00\x00\x0B\
            \x00\xFF\x01\x00\x00\x3C\x40\x00\xFF\x2F\x00",
        SmfFault::NoStatus { at: 26 },
    ),
    // Bit 7 in a control change.
    (
        b"MThd\x00\x00\x00\x06\x00\x00\x00\x01\x00\x60MTrk\x00\x00\x00\x08\
            \x00\xB0\x07\x85\x00\xFF\x2F\x00",
        SmfFault::BadData { at: 22 },
    ),
    // Bit 7 in the pressure of a channel.
    (
        b"MThd\x00\x00\x00\x06\x00\x00\x00\x01\x00\x60MTrk\x00\x00\x00\x07\
            \x00\xD0\x85\x00\xFF\x2F\x00",
        SmfFault::BadData { at: 22 },
    ),
    // No status of another track runs on.
    (
        b"MThd\x00\x00\x00\x06\x00\x01\x00\x02\x00\x60MTrk\x00\x00\x00\x08\
            \x00\x90\x3C\x40\x00\xFF\x2F\x00MTrk\x00\x00\x00\x07\x00\x3C\x40\x00\xFF\x2F\x00",
        SmfFault::NoStatus { at: 38 },
    ),
    (b"RIFF", SmfFault::NotMidi),
];

#[test]
fn tells_faults(rt: HostRuntime) -> Result<(), Fail> {
    for (bytes, expected) in FAULTS {
        let fault = match mend(rt.alloc(), bytes) {
            Ok(_) => return Err(Fail::new("a file")),
            Err(fault) => fault,
        };
        assert!(rt; fault == *expected, "of {bytes:?}");
    }
    Ok(())
}

/// Bytes, and the file that is in them.
const CONTAINERS: &[(&'static [u8], &'static [u8])] = &[
    (b"RIFF\x10\x00\x00\x00RMIDdata\x04\x00\x00\x00MThd", b"MThd"),
    // A chunk of odd length before it, and another one behind.
    (
        b"RIFF\x00\x00\x00\x00RMIDLIST\x03\x00\x00\x00abc\x00data\x02\x00\x00\x00MTdata\x00\x00\x00\x00",
        b"MT",
    ),
    // None, a cut one, another type, and no container.
    (b"RIFF\x04\x00\x00\x00RMID", b"RIFF\x04\x00\x00\x00RMID"),
    (
        b"RIFF\x10\x00\x00\x00RMIDdata\x00\x00\x00\x04MThd",
        b"RIFF\x10\x00\x00\x00RMIDdata\x00\x00\x00\x04MThd",
    ),
    (
        b"RIFF\x10\x00\x00\x00WAVEdata\x04\x00\x00\x00MThd",
        b"RIFF\x10\x00\x00\x00WAVEdata\x04\x00\x00\x00MThd",
    ),
    (b"MThd\x00\x00\x00\x06", b"MThd\x00\x00\x00\x06"),
];

#[test]
fn unwraps_containers(rt: HostRuntime) {
    for (bytes, content) in CONTAINERS {
        assert!(rt; unwrapped(bytes) == *content, "of {bytes:?}");
    }
}

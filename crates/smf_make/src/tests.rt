//! A file made of a text once, and its faults as they are printed.

ghost use Rattle.std.specs.Prelude.{◌≡◌, false, IfOk};

use crate::{Expected, MakeFault, Maker, make_file, make_text};
use byte_io::{MemSource, OutOfMemory};
use std::alloc::Global;
use std::test::Fail;

/// Most of the example of Standard MIDI Files 1.0, "Program Fragments and Example MIDI Files", with a text.
const TEXT: &[u8] = b"format 0 tracks 1 division 96\r\n# An example\ntrack 0\n0 time 4 2 24 8\n\
    0 tempo 500000\n0 C0 05\n0 C1 2e\n0 92 30 60\n0 92 3C 60\n96 91 43 40\n\
    192  90 4C 20\n384 text \"a \\x22b\\x22\"\n384 82 30 40\n384 82 3C 40\n384 end\n";

const FILE: &[u8] = b"MThd\x00\x00\x00\x06\x00\x00\x00\x01\x00\x60MTrk\x00\x00\x00\x39\
    \x00\xFF\x58\x04\x04\x02\x18\x08\x00\xFF\x51\x03\x07\xA1\x20\x00\xC0\x05\x00\xC1\x2E\
    \x00\x92\x30\x60\x00\x3C\x60\x60\x91\x43\x40\x60\x90\x4C\x20\
    \x81\x40\xFF\x01\x05a \"b\"\x00\x82\x30\x40\x00\x3C\x40\x00\xFF\x2F\x00";

#[test]
fn makes_a_file(rt: HostRuntime) -> Result<(), Fail> {
    let Ok(bytes) = make_file(rt.alloc(), TEXT) else {
        return Err(Fail::new("no file"));
    };
    assert!(rt; bytes.as_slice() == FILE);
    Ok(())
}

#[test]
fn makes_a_file_line_by_line(rt: HostRuntime) -> Result<(), Fail> {
    let mut maker = Maker::new(rt.alloc());
    for line in [
        b"format 1 tracks 2 division 480".as_slice(),
        b"track 0".as_slice(),
        b"0 C0 05".as_slice(),
        b"128 end".as_slice(),
        b"track 1".as_slice(),
        b"0 C0 05".as_slice(),
        b"0 end".as_slice(),
    ] {
        maker = match maker.line(line) {
            Ok(maker) => maker,
            Err(_) => return Err(Fail::new("a line was refused")),
        };
    }
    let Ok(bytes) = maker.finish() else {
        return Err(Fail::new("no file"));
    };
    assert!(rt;
        bytes.as_slice()
            == b"MThd\x00\x00\x00\x06\x00\x01\x00\x02\x01\xE0MTrk\x00\x00\x00\x08\x00\xC0\x05\
                \x81\x00\xFF\x2F\x00MTrk\x00\x00\x00\x07\x00\xC0\x05\x00\xFF\x2F\x00"
                .as_slice()
    );
    Ok(())
}

#[test]
fn tells_a_fault(rt: HostRuntime) -> Result<(), Fail> {
    let text = b"format 1 tracks 2 division 96\n\ntrack 0\n5 end\ntrack 2\n";
    let fault = match make_file(rt.alloc(), text) {
        Ok(_) => return Err(Fail::new("a file")),
        Err(fault) => fault,
    };
    let expected = Expected::Track(1);
    assert!(rt; fault == MakeFault::Line { line: 5, expected });
    let printed = format!(in rt.alloc(); "{fault}")?;
    assert!(rt; printed.as_str() == "line 5: expected the line of track 1");
    Ok(())
}

/// How many bytes `make_text` reads at once.
const PIECE: usize = 8192;

/// A text of one track whose event stands behind a remark of so many bytes, by what stands behind that.
fn one_track(alloc: Global, remark: usize, last: &[u8]) -> Result<MemSource, OutOfMemory>
    ensures { IfOk result (λ s. s.broken ≡ false) }
{
    let mut text = Vec::from_slice(alloc, b"format 0 tracks 1 division 96\ntrack 0\n#")?;
    text.extend_from_slice(vec![in alloc; b'-'; remark]?.as_slice())?;
    text.extend_from_slice(last)?;
    Ok(MemSource::new(text))
}

#[test]
fn makes_a_file_of_a_text_as_it_comes(rt: HostRuntime) -> Result<(), Fail> {
    let mut input = MemSource::new(Vec::from_slice(rt.alloc(), TEXT)?);
    let Ok(bytes) = make_text(rt.alloc(), &mut input) else {
        return Err(Fail::new("no file"));
    };
    assert!(rt; bytes.as_slice() == FILE);
    Ok(())
}

/// The first piece ends at each place of the last lines.
#[test]
fn makes_a_file_of_a_text_in_pieces(rt: HostRuntime) -> Result<(), Fail> {
    for last in [
        b"\n0 C0 05\n0 end\n".as_slice(),
        b"\r\n0 C0 05\r\n0 end".as_slice(),
    ] {
        for remark in PIECE - 56..PIECE - 38 {
            let mut input = one_track(rt.alloc(), remark, last)?;
            let Ok(bytes) = make_text(rt.alloc(), &mut input) else {
                return Err(Fail::new("no file"));
            };
            assert!(rt;
                bytes.as_slice()
                    == b"MThd\x00\x00\x00\x06\x00\x00\x00\x01\x00\x60MTrk\x00\x00\x00\x07\
                        \x00\xC0\x05\x00\xFF\x2F\x00"
                        .as_slice(),
                "behind {remark} bytes"
            );
        }
    }
    Ok(())
}

/// A text of one track, whose remark has so many bytes and which ends so, and why no file is made of it.
struct Refused {
    remark: usize,
    last: &'static [u8],
    /// The read that fails, if one does.
    fail_at: Option<u64>,
    fault: MakeFault,
}

/// Line 4 was to say the first event.
const NO_EVENT: MakeFault = MakeFault::Line {
    line: 4,
    expected: Expected::Event { from: 0 },
};

const REFUSED: &[Refused] = &[
    // In the second piece a message is cut, where a line end follows it and where none does.
    Refused {
        remark: PIECE,
        last: b"\n0 C0\n0 end\n",
        fail_at: None,
        fault: NO_EVENT,
    },
    Refused {
        remark: PIECE,
        last: b"\n0 C0",
        fail_at: None,
        fault: NO_EVENT,
    },
    // The track has no end.
    Refused {
        remark: PIECE,
        last: b"\n0 C0 05\n",
        fail_at: None,
        fault: MakeFault::Line {
            line: 5,
            expected: Expected::Event { from: 0 },
        },
    },
    // A read fails: before the line that is wrong, at once, and where the text has ended.
    Refused {
        remark: PIECE,
        last: b"\n0 C0\n",
        fail_at: Some(1),
        fault: MakeFault::Read,
    },
    Refused {
        remark: 0,
        last: b"\n0 end\n",
        fail_at: Some(0),
        fault: MakeFault::Read,
    },
    Refused {
        remark: 0,
        last: b"\n0 end\n",
        fail_at: Some(1),
        fault: MakeFault::Read,
    },
    // A line that is wrong is told before a later read fails.
    Refused {
        remark: 0,
        last: b"\n0 C0\n",
        fail_at: Some(1),
        fault: NO_EVENT,
    },
];

#[test]
fn tells_the_fault_of_a_text_in_pieces(rt: HostRuntime) -> Result<(), Fail> {
    for refused in REFUSED {
        let mut input = one_track(rt.alloc(), refused.remark, refused.last)?;
        if let Some(k) = refused.fail_at {
            input.fail_at(k);
        }
        match make_text(rt.alloc(), &mut input) {
            Ok(_) => return Err(Fail::new("a file")),
            Err(told) => assert!(rt; told == refused.fault, "told {told}"),
        }
    }
    Ok(())
}

#[test]
fn no_text_has_no_header(rt: HostRuntime) -> Result<(), Fail> {
    let mut nothing = MemSource::new(Vec::new(rt.alloc()));
    let fault = MakeFault::Line {
        line: 1,
        expected: Expected::Header,
    };
    match make_text(rt.alloc(), &mut nothing) {
        Ok(_) => Err(Fail::new("a file")),
        Err(told) => {
            assert!(rt; told == fault, "told {told}");
            Ok(())
        }
    }
}

/// Lines that say the message 90 3C 40 at tick 0.
const SAME_MESSAGE: &[&[u8]] = &[
    b"0 90 3C 40",
    b"0 90 3c 40",
    b"0 90 3C 40\r",
    b"00000000000000000000 90 3C 40",
    // blanks at the ends
    b" 0 90 3C 40",
    b"\t 0 90 3C 40",
    b"0 90 3C 40 ",
    b"0 90 3C 40 \t",
    // more than one blank, or another, before each word
    b"0  90 3C 40",
    b"0\t90 3C 40",
    b"0 90  3C 40",
    b"0 90\t3C 40",
    b"0 90 3C  40",
    b"0 90 3C\t40",
    b"\t0\t 90 \t3c\t\t40\t",
];

/// Lines that say no event.
const NO_EVENTS: &[&[u8]] = &[
    b"0",
    b"0 ",
    b"90 3C 40",
    b"0x 90 3C 40",
    b"000000000000000000000 90 3C 40",
    b"18446744073709551616 90 3C 40",
    // a data byte too few
    b"0 90 3C",
    b"0 90 3C ",
    b"0 90\t3C",
    b"0 90",
    b"0 C5",
    b"0 C5 ",
    // one too many
    b"0 90 3C 40 00",
    b"0 90 3C 40\t00",
    b"0\t90 3C 40  00",
    b"0 C5 07 00",
    b"0 C5 07\t00",
    // a word that is no byte, also behind a message
    b"0 090 3C 40",
    b"0 9 3C 40",
    b"0 90 03C 40",
    b"0 90 3C 400",
    b"0 90 3C 4",
    b"0 90 3C 4G",
    b"0 90 3C-40",
    b"0 90 3C 40-",
    b"0 90 3C 40 0",
    b"0 90 3C 40 x",
    b"0 90\t3C\t400",
    b"0 C5 07 0",
    // bit 7 in a data byte
    b"0 90 3C 80",
    b"0 90 80 40",
    b"0 90\t3C\tff",
    b"0 C5 80",
    b"0 C5\tff",
    // no status of a channel
    b"0 3C 40",
    b"0 7F 00 00",
    b"0 F1 00",
    b"0 F2 00 00",
    b"0 F8",
    b"0 F8 00",
    b"0 f8 00 00",
    b"0 FF 2F 00",
];

/// A text of one track with this line.
fn with_line(alloc: Global, line: &[u8]) -> Result<Vec<u8>, OutOfMemory> {
    let mut text = Vec::from_slice(alloc, b"format 0 tracks 1 division 96\ntrack 0\n")?;
    text.extend_from_slice(line)?;
    text.extend_from_slice(b"\n0 end\n")?;
    Ok(text)
}

#[test]
fn takes_a_message_however_blanks_part_it(rt: HostRuntime) -> Result<(), Fail> {
    for line in SAME_MESSAGE {
        let text = with_line(rt.alloc(), line)?;
        let Ok(bytes) = make_file(rt.alloc(), text.as_slice()) else {
            return Err(Fail::new("no file"));
        };
        assert!(rt;
            bytes.as_slice()
                == b"MThd\x00\x00\x00\x06\x00\x00\x00\x01\x00\x60MTrk\x00\x00\x00\x08\
                    \x00\x90\x3C\x40\x00\xFF\x2F\x00"
                    .as_slice()
        );
    }
    Ok(())
}

#[test]
fn refuses_what_is_no_event(rt: HostRuntime) -> Result<(), Fail> {
    let fault = MakeFault::Line {
        line: 3,
        expected: Expected::Event { from: 0 },
    };
    for line in NO_EVENTS {
        let text = with_line(rt.alloc(), line)?;
        match make_file(rt.alloc(), text.as_slice()) {
            Ok(_) => return Err(Fail::new("a file")),
            Err(told) => assert!(rt; told == fault, "told {told}"),
        }
    }
    Ok(())
}

/// Each kind of messages, in a line whose bytes single spaces part and in one with tabs, and the file of each.
#[test]
fn takes_each_kind_of_messages(rt: HostRuntime) -> Result<(), Fail> {
    for text in [
        b"format 0 tracks 1 division 96\ntrack 0\n\
            0 80 00 7F\n1 9f 7F 00\n2 A0 01 02\n3 Bf 7b 00\n4 C0 7F\n5 df 00\n6 E0 00 40\n7 EF 7f 7F\n8 F0 7E f7\n9 F7 F8\n\
            9 f0\n268435464 end\n"
            .as_slice(),
        b"format 0 tracks 1 division 96\ntrack 0\n\
            0\t80 00\t7F\n1 9f\t7F 00\n2 A0 01 02 \n3  Bf 7b 00\n4 C0\t7F\n5\tdf 00\t\n6 E0 00  40\n7 EF\t7f 7F\n8 F0  7E f7\n\
            9 F7 F8 \n9\tf0\n268435464 end\n"
            .as_slice(),
    ] {
        let Ok(bytes) = make_file(rt.alloc(), text) else {
            return Err(Fail::new("no file"));
        };
        assert!(rt;
            bytes.as_slice()
                == b"MThd\x00\x00\x00\x06\x00\x00\x00\x01\x00\x60MTrk\x00\x00\x00\x31\
                    \x00\x80\x00\x7F\x01\x9F\x7F\x00\x01\xA0\x01\x02\x01\xBF\x7B\x00\x01\xC0\x7F\x01\xDF\x00\
                    \x01\xE0\x00\x40\x01\xEF\x7F\x7F\x01\xF0\x02\x7E\xF7\x01\xF7\x01\xF8\x00\xF0\x00\
                    \xFF\xFF\xFF\x7F\xFF\x2F\x00"
                    .as_slice()
        );
    }
    Ok(())
}

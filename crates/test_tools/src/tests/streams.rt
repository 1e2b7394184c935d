//! Small streams passed on, and read and written back.

use crate::printed;
use program_tasks::Tool;
use std::test::Fail;

/// A tool, a stream, and what the tool prints of it.
const PRINTED: &[(Tool, &'static [u8], &'static [u8])] = &[
    (Tool::Thru, &[0x90, 0x3C, 0x40], b"0 129:p0 90 3C 40\n"),
    // Real time comes before the exclusive message around it.
    (
        Tool::Wire,
        &[0xF0, 0x7D, 0x01, 0xFE, 0x02, 0xF7],
        b"FE\nF0 7D 01 02 F7\nwritten FE F0 7D 01 02 F7\n",
    ),
    // Another status ends an exclusive message.
    (
        Tool::Wire,
        &[0xF0, 0x7D, 0x01, 0x90, 0x3C, 0x40],
        b"F0 7D 01 F7\n90 3C 40\nwritten F0 7D 01 F7 90 3C 40\n",
    ),
    // The last line comes where there is no message, too.
    (Tool::Wire, b"", b"written\n"),
];

#[test]
fn prints_streams(rt: HostRuntime) -> Result<(), Fail> {
    for (tool, stream, text) in PRINTED {
        assert!(rt;
            printed(rt.alloc(), *tool, stream)?.as_slice() == *text,
            "of {stream:?}"
        );
    }
    Ok(())
}

#[test]
fn passes_more_than_may_wait(rt: HostRuntime) -> Result<(), Fail> {
    let alloc = rt.alloc();
    let mut stream = Vec::new(alloc);
    let mut lines = Vec::new(alloc);
    for _turn in 0..2500 {
        stream.push(0xF8)?;
        lines.extend_from_slice(b"0 129:p0 F8\n")?;
    }
    let text = printed(alloc, Tool::Thru, stream.as_slice())?;
    assert!(rt; text.as_slice() == lines.as_slice());
    Ok(())
}

#[test]
fn passes_many_requests_that_end_an_exclusive(rt: HostRuntime) -> Result<(), Fail> {
    let alloc = rt.alloc();
    let mut stream = Vec::from_slice(alloc, &[0xF0, 0x01])?;
    let mut lines = Vec::from_slice(alloc, b"0 129:p0 F0 01 F7\n")?;
    for _turn in 0..1100 {
        stream.push(0xF6)?;
        lines.extend_from_slice(b"0 129:p0 F6\n")?;
    }
    let text = printed(alloc, Tool::Thru, stream.as_slice())?;
    assert!(rt; text.as_slice() == lines.as_slice());
    Ok(())
}

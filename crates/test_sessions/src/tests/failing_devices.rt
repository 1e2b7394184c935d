//! Devices that fail.

use super::devices::Devices;
use super::sending::{FIRST_NOTE, LISTENER, SENDER};
use super::session::{Part, Session, assert_text};
use super::strangers::HOSTILE_THIRD_SCRIPT;
use agenda_heap::HeapAgenda;
use byte_io::MemSink;
use node_table::ClientId;
use seq_session::*;
use std::alloc::Global;
use std::process::Abort;
use std::test::Fail;

/// Runs a session without files.
fn run_to(alloc: Global, devices: &mut Devices, until: u64) -> Result<Option<SessionFault>, Fail> {
    let files = NamedFiles::new(&[], &[]).ok_or("no files")?;
    devices.run(alloc, &files, HeapAgenda::new(alloc), until)
}

fn client(number: u8) -> Result<ClientId, Fail> {
    Ok(ClientId::new(number).ok_or("a client number")?)
}

/// The listing takes no byte. All logs are whole, and that of an empty script has nothing.
#[test]
fn listing_that_takes_nothing(rt: HostRuntime) -> Result<(), Fail> {
    let alloc = rt.alloc();
    let mut devices = Devices::of(alloc, FIRST_NOTE.parts)?;
    devices.add(alloc, 131, b"")?;
    devices.listing.piece(0);
    let fault = run_to(alloc, &mut devices, FIRST_NOTE.until)?;
    assert!(rt; fault == Some(SessionFault::WriteListing));
    let wanted = [SENDER.log, LISTENER.log, ""];
    for (log, wanted) in devices.logs.iter().zip(wanted.iter()) {
        assert_text(&rt, log.bytes(), wanted);
    }
    assert_text(&rt, devices.listing.bytes(), "");
    Ok(())
}

/// What a session without a failure leaves.
fn plain(rt: &impl Abort, alloc: Global, session: &Session) -> Result<Devices, Fail> {
    let mut plain = Devices::of(alloc, session.parts)?;
    assert!(rt; run_to(alloc, &mut plain, session.until)?.is_none());
    Ok(plain)
}

/// The devices of a session whose sinks have room for what the plain run leaves, and take a byte at a time.
fn bytewise(alloc: Global, session: &Session, plain: &Devices) -> Result<Devices, Fail> {
    let mut devices = Devices::of(alloc, session.parts)?;
    devices.logs.clear();
    for log in plain.logs.iter() {
        devices.logs.push(bytewise_sink(alloc, log.bytes().len())?)?;
    }
    devices.listing = bytewise_sink(alloc, plain.listing.bytes().len())?;
    Ok(devices)
}

fn bytewise_sink(alloc: Global, room: usize) -> Result<MemSink, Fail> {
    let mut sink = MemSink::new(alloc, room)?;
    sink.piece(1);
    Ok(sink)
}

/// A sink has taken the first bytes of a text, so many of them.
fn assert_front(rt: &impl Abort, sink: &MemSink, text: &[u8], count: usize) {
    let count = count.min(text.len());
    assert!(rt; sink.bytes() == &text[..count]);
}

/// The logs before a place are whole, that one has so many bytes, and the later ones have none.
fn assert_logs(rt: &impl Abort, devices: &Devices, plain: &Devices, place: usize, count: usize) {
    assert!(rt; devices.logs.len() == plain.logs.len());
    for (at, (log, whole)) in devices.logs.iter().zip(plain.logs.iter()).enumerate() {
        let text = whole.bytes();
        let taken = if at < place {
            text.len()
        } else if at == place {
            count
        } else {
            0
        };
        assert_front(rt, log, text, taken);
    }
}

/// A session ends so, on these devices.
fn assert_ends(
    rt: &impl Abort,
    alloc: Global,
    devices: &mut Devices,
    until: u64,
    wanted: Option<SessionFault>,
) -> Result<(), Fail> {
    assert!(rt; run_to(alloc, devices, until)? == wanted);
    Ok(())
}

// What a session without a failure leaves is lent to those that follow, so that it is dropped at one place alone.

/// Each of the two reads of each script fails: the first gives the script, the second tells its end.
fn assert_reads(
    rt: &impl Abort,
    alloc: Global,
    session: &Session,
    plain: &Devices,
) -> Result<(), Fail> {
    for (place, part) in session.parts.iter().enumerate() {
        let client = client(part.client)?;
        for read in 0..2 {
            let mut devices = bytewise(alloc, session, plain)?;
            if let Some(source) = devices.scripts.get_mut(place) {
                source.reader.fail_at(read);
            }
            let fault = Some(SessionFault::Read { client });
            assert_ends(rt, alloc, &mut devices, session.until, fault)?;
            assert_logs(rt, &devices, plain, 0, 0);
            assert_front(rt, &devices.listing, b"", 0);
        }
    }
    Ok(())
}

/// Each write of each log fails, a byte each.
fn assert_log_writes(
    rt: &impl Abort,
    alloc: Global,
    session: &Session,
    plain: &Devices,
) -> Result<(), Fail> {
    for (place, part) in session.parts.iter().enumerate() {
        let client = client(part.client)?;
        for write in 0..part.log.len() {
            let mut devices = bytewise(alloc, session, plain)?;
            if let Some(log) = devices.logs.get_mut(place) {
                log.fail_at(write as u64);
            }
            let fault = Some(SessionFault::Write { client });
            assert_ends(rt, alloc, &mut devices, session.until, fault)?;
            assert_logs(rt, &devices, plain, place, write);
            assert_front(rt, &devices.listing, b"", 0);
        }
    }
    Ok(())
}

/// Each write of each log fails while the session runs, a byte each. No line was skipped, so the later logs have
/// nothing yet.
fn assert_streamed_writes(
    rt: &impl Abort,
    alloc: Global,
    session: &Session,
    plain: &Devices,
) -> Result<(), Fail> {
    let files = NamedFiles::new(&[], &[]).ok_or("no files")?;
    for (place, part) in session.parts.iter().enumerate() {
        let client = client(part.client)?;
        for write in 0..part.log.len() {
            let mut devices = bytewise(alloc, session, plain)?;
            if let Some(log) = devices.logs.get_mut(place) {
                log.fail_at(write as u64);
            }
            let agenda = HeapAgenda::new(alloc);
            let fault = devices.stream(alloc, &files, agenda, session.until)?;
            assert!(rt; fault == Some(SessionFault::Write { client }));
            assert_logs(rt, &devices, plain, place, write);
        }
    }
    Ok(())
}

/// Each write of the listing fails, a byte each; and then none does.
fn assert_listing_writes(
    rt: &impl Abort,
    alloc: Global,
    session: &Session,
    plain: &Devices,
) -> Result<(), Fail> {
    let listing = plain.listing.bytes();
    for write in 0..listing.len() + 1 {
        let mut devices = bytewise(alloc, session, plain)?;
        devices.listing.fail_at(write as u64);
        let fault = (write < listing.len()).then_some(SessionFault::WriteListing);
        assert_ends(rt, alloc, &mut devices, session.until, fault)?;
        assert_logs(rt, &devices, plain, session.parts.len(), 0);
        assert_front(rt, &devices.listing, listing, write);
    }
    Ok(())
}

#[test]
fn each_read_and_each_write_fails(rt: HostRuntime) -> Result<(), Fail> {
    for session in [FIRST_NOTE, HOSTILE_THIRD_SCRIPT] {
        let plain = plain(&rt, rt.alloc(), &session)?;
        assert_reads(&rt, rt.alloc(), &session, &plain)?;
        assert_log_writes(&rt, rt.alloc(), &session, &plain)?;
        assert_listing_writes(&rt, rt.alloc(), &session, &plain)?;
    }
    Ok(())
}

/// The logs are written while the session runs, and each write of them fails.
#[test]
fn each_streamed_write_fails(rt: HostRuntime) -> Result<(), Fail> {
    let plain = plain(&rt, rt.alloc(), &FIRST_NOTE)?;
    assert_streamed_writes(&rt, rt.alloc(), &FIRST_NOTE, &plain)
}

/// Two clients, of each of which a line is skipped.
const SKIPPING: Session = Session {
    parts: &[
        Part {
            client: 128,
            script: "0 open a 8 8\nnonsense\n",
            log: "skip 2 unreadable\n0 line 1 ok\n",
        },
        Part {
            client: 129,
            script: "0 open b 8 8\nnonsense\n",
            log: "skip 2 unreadable\n0 line 1 ok\n",
        },
    ],
    songs: &[],
    until: 1,
    listing: None,
};

/// The skipped lines of all clients are written before any other line, so that the later logs have them where a write
/// behind them fails, and no more.
#[test]
fn skipped_lines_are_written_first(rt: HostRuntime) -> Result<(), Fail> {
    let plain = plain(&rt, rt.alloc(), &SKIPPING)?;
    for (write, first, second) in [
        (5, "skip ", ""),
        (18, "skip 2 unreadable\n", "skip 2 unreadable\n"),
        (20, "skip 2 unreadable\n0 ", "skip 2 unreadable\n"),
    ] {
        assert_skipped(&rt, rt.alloc(), &plain, write, first, second)?;
    }
    Ok(())
}

/// Where a write of the first log fails, the two logs have these texts.
fn assert_skipped(
    rt: &impl Abort,
    alloc: Global,
    plain: &Devices,
    write: u64,
    first: &str,
    second: &str,
) -> Result<(), Fail> {
    let files = NamedFiles::new(&[], &[]).ok_or("no files")?;
    let mut devices = bytewise(alloc, &SKIPPING, plain)?;
    if let Some(log) = devices.logs.get_mut(0) {
        log.fail_at(write);
    }
    let fault = devices.stream(alloc, &files, HeapAgenda::new(alloc), SKIPPING.until)?;
    let client = client(128)?;
    assert!(rt; fault == Some(SessionFault::Write { client }));
    for (log, wanted) in devices.logs.iter().zip([first, second].iter()) {
        assert_text(rt, log.bytes(), wanted);
    }
    Ok(())
}

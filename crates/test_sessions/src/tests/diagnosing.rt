//! What a run says of lines that did nothing, or most likely not what was meant, worked out by hand.

use agenda_heap::HeapAgenda;
use byte_io::MemSource;
use node_table::{Addr, ClientId, Node, PortAddr, PortNo};
use script_text::{LineFault, WordKind};
use seq_engine::Loss;
use seq_session::*;
use seq_state::Refusal;
use std::alloc::Global;
use std::test::Fail;

fn client(number: u8) -> Result<ClientId, Fail> {
    Ok(ClientId::new(number).ok_or("a client number")?)
}

/// A run of the scripts of clients 128 and 129, up to moment 10.
fn ran(alloc: Global, first: &str, second: &str) -> Result<SessionRun, Fail> {
    let mut scripts = Vec::new(alloc);
    for (number, text) in [(128, first), (129, second)] {
        scripts.push(ScriptSource {
            client: client(number)?,
            reader: MemSource::new(Vec::from_slice(alloc, text.as_bytes())?),
        })?;
    }
    let sources = scripts.as_mut_slice();
    if !clients_rise(sources) || !readers_are_sound(sources) {
        return Err("scripts that can be run".into());
    }
    let files = NamedFiles::new(&[], &[]).ok_or("a name for each file")?;
    let run = run_scripts(alloc, sources, &files, HeapAgenda::new(alloc), 10);
    Ok(run.ok().ok_or("a run")?)
}

fn told(number: u8, line: u64, cause: Cause) -> Result<Diagnostic, Fail> {
    Ok(Diagnostic {
        client: client(number)?,
        line,
        cause,
    })
}

fn skipped(number: u8, line: u64, why: SkipReason) -> Result<Diagnostic, Fail> {
    told(number, line, Cause::Skipped(why))
}

fn refused(number: u8, line: u64, refusal: Refusal, about: About) -> Result<Diagnostic, Fail> {
    told(number, line, Cause::Refused(refusal, about))
}

/// The address of a port.
fn port(number: u8, port: u8) -> Result<Addr, Fail> {
    Ok(Addr {
        client: client(number)?,
        node: Node::Port(PortNo::new(port).ok_or("a port number")?),
    })
}

#[test]
fn tells_of_skipped_lines_and_then_of_refusals(rt: HostRuntime) -> Result<(), Fail> {
    // The second client's line is refused first, since the run comes to it first.
    let first =
        "0 open keys 8 8\nfrob\n# frob\n5 connect 128:p0 129:p0\n3 pools\n11 pools\n5 receive 1\n";
    let second = "0 open synth 8 8\n1 open synth 8 8\n1 unport 3\n5 port 0 in\n";
    let run = ran(rt.alloc(), first, second)?;
    let found = run.diagnostics(rt.alloc())?;
    let caps_missing = LineFault::Missing {
        kind: WordKind::Caps,
    };
    let expected = [
        told(128, 2, Cause::Unreadable(LineFault::NoMoment))?,
        skipped(128, 5, SkipReason::Late)?,
        skipped(128, 6, SkipReason::PastEnd)?,
        told(129, 4, Cause::Unreadable(caps_missing))?,
        refused(129, 2, Refusal::AlreadyOpen, About::Nothing)?,
        refused(129, 3, Refusal::NoNode, About::Node(port(129, 3)?))?,
        refused(128, 4, Refusal::NoSender, About::Node(port(128, 0)?))?,
    ];
    assert!(rt; found.as_slice() == expected.as_slice());
    Ok(())
}

#[test]
fn tells_nothing_of_lines_that_did_what_they_say(rt: HostRuntime) -> Result<(), Fail> {
    let run = ran(rt.alloc(), "0 open keys 8 8\n\n# a remark\n0 pools\n", "")?;
    assert!(rt; run.diagnostics(rt.alloc())?.is_empty());
    assert!(rt; run.log.losses.as_slice().is_empty());
    Ok(())
}

#[test]
fn tells_what_was_lost(rt: HostRuntime) -> Result<(), Fail> {
    // Of three messages one finds room; the client closes at 5, and has lost nothing more by the end.
    let first = "0 open keys 8 8\n0 port 0 out 33\n1 bytes 0 F8 F8 F8\n";
    let second =
        "0 open synth 1 8\n0 port 0 in 66\n0 connect 128:p0 129:p0\n5 close\n6 open synth 1 8\n";
    let run = ran(rt.alloc(), first, second)?;
    let expected = [Loss {
        client: client(129)?,
        messages: 2,
    }];
    assert!(rt; run.log.losses.as_slice() == expected.as_slice());
    assert!(rt; run.diagnostics(rt.alloc())?.is_empty());
    Ok(())
}

/// Tempos and channels as they are often meant and seldom said, and lines like them that are refused.
const SLIPS: &str = "0 open keys 8 8\n0 queue 0 480 120\n0 queue 1 480 999\n0 queue 2 480 1000\n\
    1 tempo 128:q0 1\n1 tempo 128:q0 0\n1 tempo 128:q7 120\n2 filter 0 99 10 1023 0 127 0\n\
    2 filter 1 99 512 1023 0 127 0\n2 filter 0 99 10 1023 0 127 0\n";

/// So does another client, at the moment of the first tempos.
const MORE_SLIPS: &str =
    "0 open synth 8 8\n0 filter 3 99 1 1023 0 127 0\n1 setfilter 3 10 1023 0 127 0\n\
    1 setfilter 4 10 1023 0 127 0\n";

fn slipped(number: u8, line: u64, slip: Slip) -> Result<SlipOnLine, Fail> {
    Ok(SlipOnLine {
        client: client(number)?,
        line,
        slip,
    })
}

#[test]
fn tells_of_slips_in_the_order_of_the_run(rt: HostRuntime) -> Result<(), Fail> {
    let run = ran(rt.alloc(), SLIPS, MORE_SLIPS)?;
    let found = run.slips(rt.alloc())?;
    let expected = [
        slipped(128, 2, Slip::TempoAsBpm(120))?,
        slipped(128, 3, Slip::TempoAsBpm(999))?,
        slipped(128, 5, Slip::TempoAsBpm(1))?,
        slipped(129, 3, Slip::ChannelsTen)?,
        slipped(128, 8, Slip::ChannelsTen)?,
    ];
    assert!(rt; found.as_slice() == expected.as_slice());
    Ok(())
}

#[test]
fn knows_which_ports_were_there(rt: HostRuntime) -> Result<(), Fail> {
    // The first client drops its port, and the second asks for one before it is open.
    let first = "0 open keys 8 8\n0 port 0 out 33\n5 close\n";
    let second = "0 port 0 in 66\n1 open synth 8 8\n1 port 1 in 66\n";
    let run = ran(rt.alloc(), first, second)?;
    for (number, port, there) in [
        (128, 0, true),
        (128, 1, false),
        (129, 0, false),
        (129, 1, true),
        (130, 0, false),
    ] {
        let addr = PortAddr {
            client: client(number)?,
            port: PortNo::new(port).ok_or("a port number")?,
        };
        assert!(rt; run.had_port(addr) == there);
    }
    Ok(())
}

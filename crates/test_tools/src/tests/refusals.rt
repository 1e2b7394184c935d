//! What is told of refused lines, from scripts to the lines that tell of them.

use agenda_heap::HeapAgenda;
use byte_io::MemSource;
use node_table::ClientId;
use program_tasks::DiagnosticLine;
use seq_session::{
    Diagnostic, NamedFiles, ScriptSource, SessionRun, clients_rise, readers_are_sound, run_scripts,
};
use std::alloc::Global;
use std::process::Abort;
use std::test::Fail;

/// A run of these scripts, up to moment 100, in a folder without files.
fn ran(alloc: Global, scripts: &[(u8, &str)]) -> Result<SessionRun, Fail> {
    let mut sources = Vec::new(alloc);
    for (number, text) in scripts {
        sources.push(ScriptSource {
            client: ClientId::new(*number).ok_or("a client number")?,
            reader: MemSource::new(Vec::from_slice(alloc, text.as_bytes())?),
        })?;
    }
    let sources = sources.as_mut_slice();
    if !clients_rise(sources) || !readers_are_sound(sources) {
        return Err("scripts that can be run".into());
    }
    let files = NamedFiles::new(&[], &[]).ok_or("no files")?;
    let run = run_scripts(alloc, sources, &files, HeapAgenda::new(alloc), 100);
    Ok(run.ok().ok_or("a run")?)
}

/// The lines that tell of these, each with the client's number for the path of its script.
fn lines_of(alloc: Global, diagnostics: &[Diagnostic]) -> Result<String, Fail> {
    let mut text = String::new(alloc);
    for diagnostic in diagnostics {
        let client = diagnostic.client;
        let path = format!(in alloc; "{client}")?;
        let line = DiagnosticLine {
            path: path.as_str(),
            diagnostic: *diagnostic,
        };
        let line = format!(in alloc; "{line}\n")?;
        text.push_str(line.as_str())?;
    }
    Ok(text)
}

/// A run of these scripts tells just this.
fn check_told(
    rt: &impl Abort,
    alloc: Global,
    scripts: &[(u8, &str)],
    told: &str,
) -> Result<(), Fail> {
    let run = ran(alloc, scripts)?;
    let diagnostics = run.diagnostics(alloc)?;
    let text = lines_of(alloc, diagnostics.as_slice())?;
    assert!(rt; text.as_str() == told);
    Ok(())
}

/// Each refusal that has no file and no capability to do with it, but for SourcesFull, in the order of their numbers.
const REFUSED: &str = "\
0 send 0 F8
0 open demo 16 1
0 open demo 16 1
0 port 0 a-name-with-more-than-thirty-two-letters 33
0 receive 0
0 filter 0 99 65535 1023 60 48 0
0 port 0 a 99
0 port 0 a 99
0 unport 15
0 connect 128:p1 128:p0
0 connect 128:p0 191:f15
0 filter 0 99 65535 1023 0 127 0
0 filter 0 99 65535 1023 0 127 0
0 connect 128:p0 128:f0
0 connect 128:p0 128:f0
0 disconnect 128:f0 128:p0
0 filter 1 99 65535 1023 0 127 0
0 connect 128:f0 128:f1
0 connect 128:f1 128:f0
0 queue 7 96 500000
0 queue 7 96 500000
0 status 129:q3
0 start 128:q1
0 start 128:q7
0 continue 128:q7
1 stop 128:q7
1 stop 128:q7
1 play 128:q7 0 nothing.mid
1 tempo 128:q7 0
1 start 128:q7
2 schedule 128:q7 0 n+18446744073709551615 F8
2 schedule 128:q7 0 t960 F8
2 schedule 128:q7 0 t960 F8
";

const REFUSED_TOLD: &str = "\
128:1: refused 1 NotOpen: open first
128:3: refused 2 AlreadyOpen: close first
128:4: refused 3 BadName: a name has 1 to 32 visible ASCII characters
128:5: refused 4 BadSize: IN, OUT and MAX are 1 to 2000, and PPQ is 1 to 32767
128:6: refused 5 BadRule: KINDS is at most 1023, LOW at most HIGH, HIGH at most 127, SHIFT -127 to 127, \
CHANNEL at most 15
128:8: refused 6 NodeExists: 128:p0 is there already: use another number, or drop it
128:9: refused 7 NoNode: 128:p15 is not there: make it first
128:10: refused 8 NoSender: 128:p1 is not there: its client has to make it first
128:11: refused 9 NoDest: 191:f15 is not there: its client has to make it first
128:13: refused 6 NodeExists: 128:f0 is there already: use another number, or drop it
128:15: refused 11 AlreadyConnected: 128:p0 to 128:f0 is there already
128:16: refused 12 NotConnected: there is no subscription 128:f0 to 128:p0
128:19: refused 14 Cycle: 128:f1 to 128:f0 would close a ring of filters: leave out one subscription of it
128:21: refused 15 QueueExists: 128:q7 is there already: use another number, or drop it
128:22: refused 16 NotYours: 129:q3 is client 129's: only status, schedule and play may use it, once it is shared
128:23: refused 17 NoQueue: 128:q1 is not there: make it first
128:25: refused 18 QueueRunning: 128:q7 runs already: stop it first
128:27: refused 19 QueueStopped: 128:q7 is held already
128:28: refused 20 NoFile: no file of this name was taken from the folder of --dir
128:29: refused 22 BadTempo: a tempo is 1 to 16777215, and a queue that counts frames has none
128:31: refused 23 BadTime: now and DUE together are past 18446744073709551615
128:33: refused 24 OutFull: the output pool is full: wait until something was sent, drop, or open with a greater OUT
";

#[test]
fn names_what_each_refusal_is_about(rt: HostRuntime) -> Result<(), Fail> {
    check_told(&rt, rt.alloc(), &[(128, REFUSED)], REFUSED_TOLD)
}

/// A node of another client for each that may stand in the way of a subscription.
const NODES: &str = "\
0 open nodes 16 16
0 port 0 no-read 32
0 port 1 no-subs-read 1
0 port 2 source 33
0 filter 3 64 65535 1023 0 127 0
0 port 4 no-subs-write 2
0 port 5 target 66
0 port 6 kept-source 161
0 port 7 kept-target 194
1 connect 129:p2 129:p0
1 connect 129:p2 129:p7
";

const JOINED: &str = "\
0 open joiner 16 16
0 port 0 both 99
1 connect 129:p0 129:f3
1 connect 129:p1 129:f3
1 connect 129:p2 129:f3
1 connect 129:p2 129:p4
1 connect 129:p6 129:p7
1 connect 129:p2 129:p7
1 disconnect 129:p2 129:p4
1 connect 128:p0 129:p7
1 connect 129:p6 128:p0
1 connect 129:p2 129:p5
";

#[test]
fn names_the_capability_that_stands_in_the_way(rt: HostRuntime) -> Result<(), Fail> {
    let told = "\
128:3: refused 10 NotPermitted: 129:p0 lacks READ: its owner chooses that
128:4: refused 10 NotPermitted: 129:p1 lacks SUBS_READ: its owner chooses that
128:5: refused 10 NotPermitted: 129:f3 lacks WRITE: its owner chooses that
128:6: refused 10 NotPermitted: 129:p4 lacks SUBS_WRITE: its owner chooses that
128:7: refused 10 NotPermitted: 129:p6 has NO_EXPORT: its owner chooses that
128:8: refused 10 NotPermitted: 129:p7 has NO_EXPORT: its owner chooses that
128:9: refused 10 NotPermitted: 129:p4 lacks SUBS_WRITE: its owner chooses that
129:10: refused 10 NotPermitted: 129:p0 lacks WRITE: its owner chooses that
";
    check_told(&rt, rt.alloc(), &[(128, JOINED), (129, NODES)], told)
}

/// A port that is made, made once more in vain, dropped and made with other capabilities, and goes with its client.
const REMADE: &str = "\
0 open remade 16 16
0 port 0 in 2
0 filter 0 3 65535 1023 0 127 0
2 port 0 in 66
4 unport 0
4 port 0 in 64
6 close
6 open remade 16 16
6 port 0 in 1
8 unport 0
8 port 0 in 66
";

#[test]
fn names_the_capabilities_of_the_node_that_is_there(rt: HostRuntime) -> Result<(), Fail> {
    let joiner = "\
0 open joiner 16 16
0 port 0 out 33
1 connect 128:p0 129:p0
3 connect 128:p0 129:p0
5 connect 128:p0 129:p0
7 connect 129:p0 128:p0
7 connect 129:p0 129:p0
9 connect 128:p0 129:p0
";
    let told = "\
128:3: refused 10 NotPermitted: 129:p0 lacks SUBS_WRITE: its owner chooses that
129:4: refused 6 NodeExists: 129:p0 is there already: use another number, or drop it
128:4: refused 10 NotPermitted: 129:p0 lacks SUBS_WRITE: its owner chooses that
128:5: refused 10 NotPermitted: 129:p0 lacks WRITE: its owner chooses that
128:6: refused 10 NotPermitted: 129:p0 lacks SUBS_READ: its owner chooses that
128:7: refused 10 NotPermitted: 129:p0 lacks SUBS_READ: its owner chooses that
";
    check_told(&rt, rt.alloc(), &[(128, joiner), (129, REMADE)], told)
}

/// The script of a client that subscribes a port to each of its sixteen.
fn sixteen(alloc: Global, client: u8) -> Result<String, Fail> {
    let mut text = format!(in alloc; "0 open sixteen 16 16\n")?;
    for port in 0u8..16 {
        let made = format!(in alloc; "0 port {port} a 33\n0 connect {client}:p{port} 128:p0\n")?;
        text.push_str(made.as_str())?;
    }
    Ok(text)
}

#[test]
fn names_the_node_whose_sources_are_full(rt: HostRuntime) -> Result<(), Fail> {
    let alloc = rt.alloc();
    let first = sixteen(alloc, 129)?;
    let second = sixteen(alloc, 130)?;
    let scripts = [
        (128, "0 open full 16 16\n0 port 0 in 66\n"),
        (129, first.as_str()),
        (130, second.as_str()),
        (
            131,
            "0 open last 16 16\n0 port 0 a 33\n0 connect 131:p0 128:p0\n",
        ),
    ];
    let told =
        "131:3: refused 13 SourcesFull: 128:p0 has 32 sources already: end another subscription first\n";
    check_told(&rt, alloc, &scripts, told)
}

//! Circles of small sessions, from scripts to the printed text.

use memory::Items;
use node_table::ClientId;
use seq_session::{NamedFiles, Script};
use session_circle::{
    EveryEnd, are_all_shut, circle_for_every_end, circle_of_scripts, circle_text,
    circles_for_every_end, circles_of_scripts, first_reach, reach_text, table_text,
};
use std::alloc::Global;
use std::rt::HostRuntime;
use std::test::Fail;

const UNTIL: u64 = 2_450_000_000;

fn client(number: u8) -> Result<ClientId, Fail> {
    Ok(ClientId::new(number).ok_or("a client number")?)
}

fn scripts_of(alloc: Global, scripts: &[(u8, &str)]) -> Result<Vec<Script>, Fail> {
    let mut all = Vec::new(alloc);
    for (number, text) in scripts {
        let text = Items::new(Vec::from_slice(alloc, text.as_bytes())?);
        all.push(Script {
            client: client(*number)?,
            text,
        })?;
    }
    Ok(all)
}

/// What is printed of the circle round a client, in a run with this end.
fn printed_until(
    alloc: Global,
    owner: u8,
    scripts: &[(u8, &str)],
    until: u64,
) -> Result<Vec<u8>, Fail> {
    let all = scripts_of(alloc, scripts)?;
    let owner = client(owner)?;
    let files = NamedFiles::new(&[], &[]).ok_or("no files")?;
    let found = circle_of_scripts(alloc, owner, all.as_slice(), &files, until)?;
    Ok(circle_text(alloc, owner, all.as_slice(), &found)?)
}

/// What is printed of the circle round a client.
fn printed(alloc: Global, owner: u8, scripts: &[(u8, &str)]) -> Result<Vec<u8>, Fail> {
    printed_until(alloc, owner, scripts, UNTIL)
}

// ---- the studio of the examples

const KEYBOARD: &str = "\
# A keyboard, client 128. Its port may be read (READ 1) and subscribed to (SUBS_READ 32), and not written to.
0 open keyboard 16 16
0 port 0 keys 33
# A note on channel 3, played by hand: note on, and its end by running status (a note on of velocity 0).
100000000 bytes 0 92 43 50
400000000 bytes 0 43 00
# The sequencer lets others use its queue: a note on the third beat of the tune, for one beat.
600000000 schedule 129:q0 0 t960 92 48 50
600000000 schedule 129:q0 0 t1440 82 48 40
";

// There is no folder, so the files that it names are not there.
const SEQUENCER: &str = "\
# A sequencer, client 129. It plays a melody (channel 1) and its bass (channel 2) on one queue.
0 open sequencer 16 16
0 port 0 tune 33
0 queuefrom 0 melody.mid
0 share 129:q0
0 play 129:q0 0 melody.mid
0 play 129:q0 0 bass.mid
500000000 start 129:q0
";

const SYNTHESIZER: &str = "\
# A synthesizer, client 130. Its port and its filter may be written to (WRITE 2), and nobody else may
# subscribe them to anything, since they lack SUBS_WRITE 64: so what comes in is for the synthesizer to say.
0 open synthesizer 100 1
0 port 0 voices 2
# Note offs and note ons (KINDS 1 + 2) of channels 1 and 3 (CHANNELS 1 + 4), all notes, an octave up.
0 filter 0 3 5 3 0 127 12
0 connect 128:p0 130:f0
0 connect 129:p0 130:f0
0 connect 130:f0 130:p0
2450000000 pools
";

const STRANGER: &str = "\
0 open stranger 1 8
0 port 0 noise 99
1 connect 131:p0 130:p0
1 connect 131:p0 130:f0
1 disconnect 128:p0 130:f0
1 stop 129:q0
";

const SYNTHESIZERS_CIRCLE: &str = "\
circle 130
member 128 because line 7 of 130 connects 128:p0 to 130:f0
member 129 because line 8 of 130 connects 129:p0 to 130:f0
shut
";

#[test]
fn the_studio_is_shut_round_the_synthesizer(rt: HostRuntime) -> Result<(), Fail> {
    let studio = [(128, KEYBOARD), (129, SEQUENCER), (130, SYNTHESIZER)];
    let text = printed(rt.alloc(), 130, &studio)?;
    assert!(rt; text.as_slice() == SYNTHESIZERS_CIRCLE.as_bytes());
    Ok(())
}

#[test]
fn a_stranger_changes_nothing(rt: HostRuntime) -> Result<(), Fail> {
    let studio = [
        (128, KEYBOARD),
        (129, SEQUENCER),
        (130, SYNTHESIZER),
        (131, STRANGER),
    ];
    let text = printed(rt.alloc(), 130, &studio)?;
    assert!(rt; text.as_slice() == SYNTHESIZERS_CIRCLE.as_bytes());
    Ok(())
}

// ---- a port that anyone may join

const KEYS: &str = "\
# A keyboard: a port that others may listen to, and one note.
0 open keys 100 100
0 port 0 out 33
5 send 0 90 3C 40
";

const SYNTH: &str = "\
# A synthesizer that listens to the keyboard.
0 open synth 100 100
0 port 0 in 66
0 connect 128:p0 129:p0
";

const SYNTHS_CIRCLE: &str = "\
circle 129
member 128 because line 4 of 129 connects 128:p0 to 129:p0
open line 3 of 129 port 0 caps 66: anyone may join it
mend line 3 of 129 port 0 caps 2: nobody else may join it
open
";

#[test]
fn the_synth_is_open(rt: HostRuntime) -> Result<(), Fail> {
    let text = printed(rt.alloc(), 129, &[(128, KEYS), (129, SYNTH)])?;
    assert!(rt; text.as_slice() == SYNTHS_CIRCLE.as_bytes());
    Ok(())
}

const KEYS_CIRCLE: &str = "\
circle 128
shut
";

// The keyboard's port is its own, and nobody may write to it.
#[test]
fn a_circle_of_one(rt: HostRuntime) -> Result<(), Fail> {
    let text = printed(rt.alloc(), 128, &[(128, KEYS), (129, SYNTH)])?;
    assert!(rt; text.as_slice() == KEYS_CIRCLE.as_bytes());
    Ok(())
}

// ---- members of members

// A filter of a member is inside, so that its sources are members too.
const MIXER: &str = "\
0 open mixer 9 9
0 filter 0 35 65535 1023 0 127 0
0 connect 128:p0 129:f0
0 schedule 140:q0 0 t1 F8
";

// The last line but one joins its own port to the guest's; the last parts it from a port that is nowhere.
const DESK: &str = "\
0 open desk 9 9
0 port 0 in 2
0 filter 0 35 65535 1023 0 127 0
0 connect 129:f0 130:f0
0 connect 130:f0 130:p0
0 connect 130:p0 131:p0
1 disconnect 130:p0 132:p5
";

// Its port is made twice, the second time with other capabilities.
const GUEST: &str = "\
0 open guest 9 9
0 port 0 any 99
1 connect 131:p0 130:p0
1 connect 131:p0 129:f0
2 connect 140:p0 131:p0
3 tempo 140:q0 250000
4 filter 3 66 65535 1023 0 127 0
5 unport 0
5 port 0 any 67
";

const STUDIO: [(u8, &str); 4] = [(128, KEYS), (129, MIXER), (130, DESK), (131, GUEST)];

const DESKS_CIRCLE: &str = "\
circle 130
member 129 because line 4 of 130 connects 129:f0 to 130:f0
member 128 because line 3 of 129 connects 128:p0 to 129:f0
member 140 because line 4 of 129 schedules on 140:q0, and has no script
apart line 6 of 130 connects 130:p0 to 131:p0
apart line 7 of 130 disconnects 130:p0 from 132:p5
shut
";

#[test]
fn a_filter_of_a_member_asks_for_more(rt: HostRuntime) -> Result<(), Fail> {
    let text = printed(rt.alloc(), 130, &STUDIO)?;
    assert!(rt; text.as_slice() == DESKS_CIRCLE.as_bytes());
    Ok(())
}

const GUESTS_CIRCLE: &str = "\
circle 131
member 140 because line 5 of 131 connects 140:p0 to 131:p0, and has no script
apart line 3 of 131 connects 131:p0 to 130:p0
apart line 4 of 131 connects 131:p0 to 129:f0
open line 2 of 131 port 0 caps 99: anyone may join it
mend line 2 of 131 port 0 caps 35: nobody else may join it
open line 7 of 131 filter 3 caps 66: anyone may join it
mend line 7 of 131 filter 3 caps 2: nobody else may join it
open line 9 of 131 port 0 caps 67: anyone may join it
mend line 9 of 131 port 0 caps 3: nobody else may join it
open
";

#[test]
fn each_opening_is_told(rt: HostRuntime) -> Result<(), Fail> {
    let text = printed(rt.alloc(), 131, &STUDIO)?;
    assert!(rt; text.as_slice() == GUESTS_CIRCLE.as_bytes());
    Ok(())
}

// ---- what asks for a client

const ASKER: &str = "\
0 open asker 9 9
0 port 0 in 2
0 unqueue 129:q0
0 start 130:q1
0 stop 131:q2
0 continue 132:q3
0 tempo 133:q4 500000
0 status 134:q5
0 share 135:q6
0 schedule 136:q7 0 t1 F8
0 connect 137:f15 128:p15
0 disconnect 138:p15 128:p0
0 play 139:q0 0 none.mid
";

const ASKERS_CIRCLE: &str = "\
circle 128
member 129 because line 3 of 128 drops 129:q0, and has no script
member 130 because line 4 of 128 starts 130:q1, and has no script
member 131 because line 5 of 128 stops 131:q2, and has no script
member 132 because line 6 of 128 continues 132:q3, and has no script
member 133 because line 7 of 128 sets the tempo of 133:q4, and has no script
member 134 because line 8 of 128 asks 134:q5, and has no script
member 135 because line 9 of 128 shares 135:q6, and has no script
member 136 because line 10 of 128 schedules on 136:q7, and has no script
member 137 because line 11 of 128 connects 137:f15 to 128:p15, and has no script
member 138 because line 12 of 128 disconnects 138:p15 from 128:p0, and has no script
member 139 because line 13 of 128 plays on 139:q0, and has no script
shut
";

// None of these is done, since nobody else is open: who is asked for does not hang on that.
#[test]
fn each_verb_is_told(rt: HostRuntime) -> Result<(), Fail> {
    let text = printed(rt.alloc(), 128, &[(128, ASKER)])?;
    assert!(rt; text.as_slice() == ASKERS_CIRCLE.as_bytes());
    Ok(())
}

// ---- every end of the run

/// What is printed of the circle round a client for every end, or of the line that goes back in time.
fn printed_for_every_end(
    alloc: Global,
    owner: u8,
    scripts: &[(u8, &str)],
) -> Result<Vec<u8>, Fail> {
    let all = scripts_of(alloc, scripts)?;
    let owner = client(owner)?;
    let files = NamedFiles::new(&[], &[]).ok_or("no files")?;
    match circle_for_every_end(alloc, owner, all.as_slice(), &files)? {
        EveryEnd::Found(found) => Ok(circle_text(alloc, owner, all.as_slice(), &found)?),
        EveryEnd::GoesBack { client, line } => {
            Ok(format!(in alloc; "line {line} of {client} goes back\n")?.into_bytes())
        }
    }
}

#[test]
fn the_studio_is_shut_for_every_end(rt: HostRuntime) -> Result<(), Fail> {
    let studio = [(128, KEYBOARD), (129, SEQUENCER), (130, SYNTHESIZER)];
    let text = printed_for_every_end(rt.alloc(), 130, &studio)?;
    assert!(rt; text.as_slice() == SYNTHESIZERS_CIRCLE.as_bytes());
    Ok(())
}

// Its filter comes late, and anyone may join it.
const SLOW: &str = "\
0 open slow 9 9
0 port 0 in 2
18446744073709551615 filter 0 66 65535 1023 0 127 0
";

const SLOWS_CIRCLE: &str = "\
circle 128
open line 3 of 128 filter 0 caps 66: anyone may join it
mend line 3 of 128 filter 0 caps 2: nobody else may join it
open
";

#[test]
fn no_opening_is_past_every_end(rt: HostRuntime) -> Result<(), Fail> {
    let text = printed_until(rt.alloc(), 128, &[(128, SLOW)], UNTIL)?;
    assert!(rt; text.as_slice() == KEYS_CIRCLE.as_bytes());
    let text = printed_for_every_end(rt.alloc(), 128, &[(128, SLOW)])?;
    assert!(rt; text.as_slice() == SLOWS_CIRCLE.as_bytes());
    Ok(())
}

// Until 8 its port is that of line 3, and later that of line 2.
const BACK: &str = "\
0 open back 9 9
9 port 0 in 2
5 port 0 in 66
4 unport 0
";

#[test]
fn a_line_that_goes_back_is_told(rt: HostRuntime) -> Result<(), Fail> {
    let text = printed_for_every_end(rt.alloc(), 128, &[(128, KEYS), (129, BACK)])?;
    assert!(rt; text.as_slice() == "line 3 of 129 goes back\n".as_bytes());
    Ok(())
}

// ---- a table

/// What is printed of the circles round all clients, and whether all are shut.
fn table_printed(alloc: Global, scripts: &[(u8, &str)]) -> Result<(Vec<u8>, bool), Fail> {
    let all = scripts_of(alloc, scripts)?;
    let files = NamedFiles::new(&[], &[]).ok_or("no files")?;
    let found = circles_of_scripts(alloc, all.as_slice(), &files, UNTIL)?;
    Ok((table_text(alloc, &found)?, are_all_shut(&found)))
}

const STUDIOS_TABLE: &str = "\
128 shut with 129
129 shut
130 shut with 128 129
131 open line 2 of 131 port 0 caps 99: anyone may join it
";

#[test]
fn the_table_of_the_studio(rt: HostRuntime) -> Result<(), Fail> {
    let studio = [
        (128, KEYBOARD),
        (129, SEQUENCER),
        (130, SYNTHESIZER),
        (131, STRANGER),
    ];
    let (text, all_shut) = table_printed(rt.alloc(), &studio)?;
    assert!(rt; text.as_slice() == STUDIOS_TABLE.as_bytes());
    assert!(rt; !all_shut);
    Ok(())
}

const DESKS_TABLE: &str = "\
128 shut
129 shut with 128 140
130 shut with 129 128 140, apart line 6 of 130 connects 130:p0 to 131:p0
";

#[test]
fn the_first_line_apart_is_told(rt: HostRuntime) -> Result<(), Fail> {
    let desk = [(128, KEYS), (129, MIXER), (130, DESK)];
    let (text, all_shut) = table_printed(rt.alloc(), &desk)?;
    assert!(rt; text.as_slice() == DESKS_TABLE.as_bytes());
    assert!(rt; all_shut);
    Ok(())
}

/// What is printed of the circles round all clients for every end, or of the line that goes back in time.
fn table_for_every_end(alloc: Global, scripts: &[(u8, &str)]) -> Result<Vec<u8>, Fail> {
    let all = scripts_of(alloc, scripts)?;
    let files = NamedFiles::new(&[], &[]).ok_or("no files")?;
    match circles_for_every_end(alloc, all.as_slice(), &files)? {
        EveryEnd::Found(found) => Ok(table_text(alloc, &found)?),
        EveryEnd::GoesBack { client, line } => {
            Ok(format!(in alloc; "line {line} of {client} goes back\n")?.into_bytes())
        }
    }
}

const SLOWS_TABLE: &str = "\
128 open line 3 of 128 filter 0 caps 66: anyone may join it
129 open line 3 of 129 port 0 caps 66: anyone may join it
";

#[test]
fn the_table_for_every_end(rt: HostRuntime) -> Result<(), Fail> {
    let text = table_for_every_end(rt.alloc(), &[(128, SLOW), (129, SYNTH)])?;
    assert!(rt; text.as_slice() == SLOWS_TABLE.as_bytes());
    let text = table_for_every_end(rt.alloc(), &[(128, KEYS), (129, BACK)])?;
    assert!(rt; text.as_slice() == "line 3 of 129 goes back\n".as_bytes());
    Ok(())
}

// ---- closed in one session

/// What is printed of whether the circle round a client is closed in a session.
fn reach(alloc: Global, owner: u8, scripts: &[(u8, &str)]) -> Result<Vec<u8>, Fail> {
    let all = scripts_of(alloc, scripts)?;
    let owner = client(owner)?;
    let files = NamedFiles::new(&[], &[]).ok_or("no files")?;
    let found = circle_of_scripts(alloc, owner, all.as_slice(), &files, UNTIL)?;
    let first = first_reach(alloc, owner, all.as_slice(), &files, UNTIL, &found)?;
    Ok(reach_text(alloc, &found, first)?)
}

const CLOSED: &str = "closed in this session\n";

#[test]
fn the_studio_is_closed_beside_a_stranger(rt: HostRuntime) -> Result<(), Fail> {
    let studio = [
        (128, KEYBOARD),
        (129, SEQUENCER),
        (130, SYNTHESIZER),
        (131, STRANGER),
    ];
    let text = reach(rt.alloc(), 130, &studio)?;
    assert!(rt; text.as_slice() == CLOSED.as_bytes());
    Ok(())
}

const JOINER: &str = "\
0 open joiner 9 9
0 port 0 out 1
1 connect 130:p0 129:p0
";

const JOINED: &str = "reached by line 3 of 130 connects 130:p0 to 129:p0\n";

#[test]
fn the_open_synth_is_reached(rt: HostRuntime) -> Result<(), Fail> {
    let session = [(128, KEYS), (129, SYNTH), (130, JOINER)];
    let text = reach(rt.alloc(), 129, &session)?;
    assert!(rt; text.as_slice() == JOINED.as_bytes());
    Ok(())
}

// The synth has no port 1, listens to the keyboard already, and never to this client. At the client's own port no one
// is kept out.
const REFUSED: &str = "\
0 open refused 9 9
0 port 0 out 99
1 connect 130:p0 129:p1
1 connect 128:p0 129:p0
1 disconnect 130:p0 129:p0
1 connect 128:p0 130:p0
";

#[test]
fn the_open_synth_is_closed_where_all_are_refused(rt: HostRuntime) -> Result<(), Fail> {
    let session = [(128, KEYS), (129, SYNTH), (130, REFUSED)];
    let text = reach(rt.alloc(), 129, &session)?;
    assert!(rt; text.as_slice() == CLOSED.as_bytes());
    Ok(())
}

const LEAVER: &str = "\
0 open leaver 9 9
0 port 0 out 1
1 connect 130:p0 129:p1
2 connect 130:p0 129:p0
3 disconnect 130:p0 129:p0
";

const LEFT: &str = "reached by line 4 of 130 connects 130:p0 to 129:p0\n";

#[test]
fn who_leaves_again_has_reached_in(rt: HostRuntime) -> Result<(), Fail> {
    let session = [(128, KEYS), (129, SYNTH), (130, LEAVER)];
    let text = reach(rt.alloc(), 129, &session)?;
    assert!(rt; text.as_slice() == LEFT.as_bytes());
    Ok(())
}

const PARTER: &str = "\
0 open parter 9 9
1 disconnect 128:p0 129:p0
";

const PARTED: &str = "reached by line 2 of 130 disconnects 128:p0 from 129:p0\n";

#[test]
fn who_parts_members_reaches_in(rt: HostRuntime) -> Result<(), Fail> {
    let session = [(128, KEYS), (129, SYNTH), (130, PARTER)];
    let text = reach(rt.alloc(), 129, &session)?;
    assert!(rt; text.as_slice() == PARTED.as_bytes());
    Ok(())
}

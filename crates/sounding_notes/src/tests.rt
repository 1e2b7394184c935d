use super::*;
use midi_wire::Message;
use node_table::{ClientId, PortAddr, PortNo};
use seq_state::{Delivery, LogEntry, Reply};
use std::alloc::Global;
use std::process::Abort;
use std::test::Fail;

/// Messages that come to ports, each as client, port and bytes, and the notes that sound after them, each as client,
/// port, channel and note.
struct Worked {
    came: &'static [(u8, u8, &'static [u8])],
    sounding: &'static [(u8, u8, u8, u8)],
}

const TABLE: &[Worked] = &[
    Worked {
        came: &[],
        sounding: &[],
    },
    // A note on and its note off; a note that is started twice and ended once; a note off of nothing.
    Worked {
        came: &[
            (128, 0, b"\x90\x3C\x40"),
            (128, 0, b"\x80\x3C\x40"),
            (128, 0, b"\x90\x3D\x40"),
            (128, 0, b"\x90\x3D\x01"),
            (128, 0, b"\x80\x3D\x00"),
            (128, 0, b"\x80\x3E\x00"),
        ],
        sounding: &[],
    },
    // Velocity 0 ends the note of its channel alone.
    Worked {
        came: &[
            (128, 0, b"\x90\x3C\x40"),
            (128, 0, b"\x91\x3C\x40"),
            (128, 0, b"\x90\x3C\x00"),
        ],
        sounding: &[(128, 0, 1, 60)],
    },
    // In order, whatever the order in which they came, with the least and the greatest of each number.
    Worked {
        came: &[
            (191, 15, b"\x9F\x7F\x7F"),
            (191, 0, b"\x90\x40\x01"),
            (128, 15, b"\x91\x00\x40"),
            (128, 15, b"\x90\x02\x40"),
            (128, 15, b"\x90\x01\x40"),
            (128, 0, b"\x90\x00\x40"),
        ],
        sounding: &[
            (128, 0, 0, 0),
            (128, 15, 0, 1),
            (128, 15, 0, 2),
            (128, 15, 1, 0),
            (191, 0, 0, 64),
            (191, 15, 15, 127),
        ],
    },
    // All notes off ends those of its channel and port that have started by then; all sound off likewise.
    Worked {
        came: &[
            (128, 0, b"\x90\x3C\x40"),
            (128, 0, b"\x90\x40\x40"),
            (128, 0, b"\x91\x3C\x40"),
            (129, 0, b"\x90\x3C\x40"),
            (128, 0, b"\xB0\x7B\x00"),
            (128, 0, b"\x90\x43\x40"),
            (130, 2, b"\x92\x3C\x40"),
            (130, 2, b"\xB2\x78\x00"),
        ],
        sounding: &[(128, 0, 0, 67), (128, 0, 1, 60), (129, 0, 0, 60)],
    },
    // The modes end notes; reset all controllers and local control do not.
    Worked {
        came: &[
            (128, 0, b"\x90\x01\x40"),
            (128, 1, b"\x90\x01\x40"),
            (128, 2, b"\x90\x01\x40"),
            (128, 3, b"\x90\x01\x40"),
            (128, 4, b"\x90\x01\x40"),
            (128, 5, b"\x90\x01\x40"),
            (128, 0, b"\xB0\x79\x00"),
            (128, 1, b"\xB0\x7A\x00"),
            (128, 2, b"\xB0\x7C\x00"),
            (128, 3, b"\xB0\x7D\x00"),
            (128, 4, b"\xB0\x7E\x01"),
            (128, 5, b"\xB0\x7F\x00"),
        ],
        sounding: &[(128, 0, 0, 1), (128, 1, 0, 1)],
    },
    // A reset ends the notes of all channels of its port; other messages end none.
    Worked {
        came: &[
            (128, 0, b"\x90\x3C\x40"),
            (128, 0, b"\x9F\x3C\x40"),
            (128, 1, b"\x90\x3C\x40"),
            (128, 0, b"\xFF"),
            (128, 0, b"\x93\x3C\x40"),
            (128, 0, b"\xF8"),
            (128, 0, b"\xC3\x3C"),
            (128, 0, b"\xA3\x3C\x00"),
            (128, 0, b"\xE3\x3C\x00"),
            (128, 0, b"\xF2\x3C\x00"),
            (128, 0, b"\xF0\x3C\xF7"),
        ],
        sounding: &[(128, 0, 3, 60), (128, 1, 0, 60)],
    },
];

/// A reply, and then these messages.
fn entries_of(
    rt: &impl Abort,
    alloc: Global,
    came: &[(u8, u8, &'static [u8])],
) -> Result<Vec<LogEntry>, Fail> {
    let mut entries = Vec::new(alloc);
    entries.push(LogEntry::Replied {
        index: 0,
        moment: 0,
        client: ClientId::new(128).expect(rt, "a client"),
        reply: Reply::Done,
    })?;
    for (client, port, bytes) in came {
        entries.push(LogEntry::Delivered(Delivery {
            moment: 0,
            target: PortAddr {
                client: ClientId::new(*client).expect(rt, "a client"),
                port: PortNo::new(*port).expect(rt, "a port"),
            },
            message: Message::from_bytes(alloc, bytes)?.expect(rt, "a message"),
        }))?;
    }
    Ok(entries)
}

/// Each list of messages leaves the notes that were worked out.
#[test]
fn notes_sound_as_worked_out(rt: HostRuntime) -> Result<(), Fail> {
    for row in TABLE {
        let entries = entries_of(&rt, rt.alloc(), row.came)?;
        let found = sounding_notes(rt.alloc(), entries.as_slice())?;
        assert!(rt; found.len() == row.sounding.len());
        for (note, worked) in found.as_slice().iter().zip(row.sounding) {
            let client = note.target.client.number();
            let port = note.target.port.number();
            assert!(rt; (client, port, note.channel, note.note) == *worked);
        }
    }
    Ok(())
}

//! Sessions that were worked out by hand.

use super::devices::Devices;
use agenda_heap::{HeapAgenda, SortedAgenda};
use seq_session::*;
use smf_files::SmfFile;
use std::alloc::Global;
use std::process::Abort;
use std::str;
use std::test::Fail;

/// A client's script, and its log.
#[derive(Clone, Copy)]
pub struct Part {
    pub client: u8,
    pub script: &'static str,
    pub log: &'static str,
}

/// A Standard MIDI File, and the name by which scripts know it.
#[derive(Clone, Copy)]
pub struct Song {
    pub name: &'static str,
    pub bytes: &'static [u8],
}

/// What clients say, and what they hear of it.
#[derive(Clone, Copy)]
pub struct Session {
    /// By rising client.
    pub parts: &'static [Part],
    pub songs: &'static [Song],
    pub until: u64,
    /// The listing at the end, where that is worked out too.
    pub listing: Option<&'static str>,
}

/// Runs a session under both agendas, with the logs written at the end and while it runs. Each time its logs and its
/// listing are those that were worked out.
pub fn assert_session(rt: &impl Abort, alloc: Global, session: &Session) -> Result<(), Fail> {
    let names = names_of(alloc, session.songs)?;
    let songs = songs_of(alloc, session.songs)?;
    assert_played(rt, alloc, session, names.as_slice(), songs.as_slice())
}

fn names_of(alloc: Global, songs: &[Song]) -> Result<Vec<Vec<u8>>, Fail> {
    let mut names = Vec::new(alloc);
    for song in songs {
        names.push(Vec::from_slice(alloc, song.name.as_bytes())?)?;
    }
    Ok(names)
}

fn songs_of(alloc: Global, songs: &[Song]) -> Result<Vec<SmfFile<'static>>, Fail> {
    let mut read = Vec::new(alloc);
    for song in songs {
        read.push(SmfFile::read(alloc, song.bytes)?)?;
    }
    Ok(read)
}

/// The same with these files.
pub fn assert_played(
    rt: &impl Abort,
    alloc: Global,
    session: &Session,
    names: &[Vec<u8>],
    songs: &[SmfFile<'_>],
) -> Result<(), Fail> {
    let files = NamedFiles::new(names, songs).ok_or("a name for each file")?;
    let mut heap = Devices::of(alloc, session.parts)?;
    let fault = heap.run(alloc, &files, HeapAgenda::new(alloc), session.until)?;
    assert!(rt; fault.is_none());
    assert_texts(rt, session, &heap);
    let mut sorted = Devices::of(alloc, session.parts)?;
    let fault = sorted.stream(alloc, &files, SortedAgenda::new(alloc), session.until)?;
    assert!(rt; fault.is_none());
    assert_texts(rt, session, &sorted);
    Ok(())
}

fn assert_texts(rt: &impl Abort, session: &Session, devices: &Devices) {
    assert!(rt; devices.logs.len() == session.parts.len());
    for (part, log) in session.parts.iter().zip(devices.logs.iter()) {
        assert_text(rt, log.bytes(), part.log);
    }
    if let Some(listing) = session.listing {
        assert_text(rt, devices.listing.bytes(), listing);
    }
}

pub fn assert_text(rt: &impl Abort, text: &[u8], wanted: &str) {
    assert!(rt; str::from_utf8(text) == Ok(wanted));
}

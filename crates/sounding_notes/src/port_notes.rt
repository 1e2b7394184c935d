//! The notes of one port.

ghost use Rattle.std.specs.Prelude.{◌≡◌, ◌≤◌, ◌<◌, ◌==◌, ◌&&◌, ◌+◌, ◌*◌, ◌∷◌, ℕ, [], length, false, if◌then◌else◌, OnOk};
ghost use Rattle.sounding_notes.specs.Kept.{reads, port_places, IsHeard};
ghost use Rattle.sounding_notes.specs.Sounding.{ends_all, most_notes};
ghost use Rattle.midi_wire.specs.Kinds.{channels};

use memory::OutOfMemory;
use midi_wire::{CHANNELS, CONTROL_CHANGE, FullBytes, Message, NOTE_OFF, NOTE_ON, ShortMessage};
use std::alloc::Global;
use std::marker::Model;

/// How many notes a channel has.
pub(crate) const NOTES: u8 = 128;

/// The control that silences a channel at once.
pub(crate) const ALL_SOUND_OFF: u8 = 0x78;

/// The control that ends the notes of a channel. Those behind it set its mode, and end them too.
pub(crate) const ALL_NOTES_OFF: u8 = 0x7B;

/// The status of a system reset.
pub(crate) const SYSTEM_RESET: u8 = 0xFF;

/// A place for each note of each channel.
const PLACES: usize = 2048;

/// Which notes of a port sound.
#[derive(Drop)]
pub(crate) struct PortNotes {
    // By channel and note. There is no place before the first message of three bytes, and after a reset.
    places: Vec<bool>,
}

impl Model for PortNotes {
    ghost use Rattle.std.specs.Prelude.{List, Bool};

    ghost Value = { List Bool };

    ghost view = { λ n. n.places.items };
}

/// Whether a control ends the notes of its channel.
fn ends_all(control: u8) -> bool
    ensures { result ≡ ends_all control }
{
    control == ALL_SOUND_OFF || control >= ALL_NOTES_OFF
}

fn place_of(channel: u8, note: u8) -> usize
    requires channel { channel < channels }
    requires note { note < most_notes }
    ensures place { result ≡ channel * 128 + note }
    ensures small { result < port_places }
{
    channel as usize * NOTES as usize + note as usize
}

impl PortNotes {
    pub(crate) fn new(alloc: Global) -> PortNotes
        ensures { result ≡ [] }
    {
        PortNotes {
            places: Vec::new(alloc),
        }
    }

    /// Whether no note has a place, so that none sounds.
    pub(crate) fn is_empty(&self) -> bool
        ensures { result ≡ (length self.now == 0) }
    {
        self.places.is_empty()
    }

    pub(crate) fn sounds(&self, channel: u8, note: u8) -> bool
        requires channel { channel < channels }
        requires note { note < most_notes }
        ensures { result ≡ reads self.now channel note }
    {
        match self.places.get(place_of(channel, note)) {
            Some(sounds) => *sounds,
            None => false,
        }
    }

    fn set(&mut self, channel: u8, note: u8, sounds: bool)
        requires whole { length self.old ≡ port_places }
        requires channel { channel < channels }
        requires note { note < most_notes }
        ensures whole { length self.new ≡ port_places }
        ensures place { (c n : ℕ) → c < channels → n < most_notes → reads self.new c n
            ≡ (if (c == channel) && (n == note) then sounds else reads self.old c n) }
    {
        self.places[place_of(channel, note)] = sounds;
    }

    /// Ends the notes of a channel.
    fn end_channel(&mut self, channel: u8)
        requires whole { length self.old ≡ port_places }
        requires channel { channel < channels }
        ensures { (c n : ℕ) → c < channels → n < most_notes → reads self.new c n
            ≡ (if c == channel then false else reads self.old c n) }
    {
        for note in 0..NOTES {
            self.set(channel, note, false);
        }
    }

    /// Hears a message of three bytes.
    fn hear_three(&mut self, status: u8, first: u8, second: u8)
        requires whole { length self.old ≡ port_places }
        requires data { first < 128 }
        ensures { IsHeard (status ∷ first ∷ second ∷ []) self.old self.new }
    {
        let channel = status % CHANNELS;
        match status - channel {
            NOTE_ON => self.set(channel, first, second > 0),
            NOTE_OFF => self.set(channel, first, false),
            CONTROL_CHANGE if ends_all(first) => self.end_channel(channel),
            _ => {}
        }
    }

    /// Hears a message that comes to the port.
    pub(crate) fn hear(&mut self, message: &Message) -> Result<(), OutOfMemory>
        ensures { OnOk result (IsHeard message.now self.old self.new) }
    {
        // Its data bytes are below 128.
        message.is_message();
        match message.full_bytes() {
            FullBytes::Short(ShortMessage::One(status)) => {
                if status == SYSTEM_RESET {
                    self.places.clear();
                }
            }
            FullBytes::Short(ShortMessage::Two(_, _)) => {}
            FullBytes::Short(ShortMessage::Three(status, first, second)) => {
                self.places.resize(PLACES, false)?;
                self.hear_three(status, first, second);
            }
            FullBytes::Exclusive(_) => {}
        }
        Ok(())
    }
}

//! The table of statuses, and what may follow each in a message.

ghost use Rattle.std.specs.Prelude.{◌≡◌, ◌∷◌, ◌↔◌, ℕ, IsTrue};
ghost use Rattle.midi_wire.specs.Messages.{begins, is_status, is_real_time, is_group, ends_data, is_tail, is_message};
ghost use Rattle.midi_wire.specs.Writings.{is_channel};

/// The first status byte: bytes below are data.
pub(crate) const FIRST_STATUS: u8 = 0x80;

/// How many channels there are: the low half of the status of a channel message.
pub const CHANNELS: u8 = 16;

/// The statuses of the channel messages, on the first channel: those of the others come behind.
pub const NOTE_OFF: u8 = FIRST_STATUS;

pub const NOTE_ON: u8 = 0x90;

pub const POLY_PRESSURE: u8 = 0xA0;

pub const CONTROL_CHANGE: u8 = 0xB0;

pub const PROGRAM_CHANGE: u8 = 0xC0;

pub const CHANNEL_PRESSURE: u8 = 0xD0;

pub const PITCH_BEND: u8 = 0xE0;

/// The status of an exclusive message.
pub const EXCLUSIVE: u8 = 0xF0;

/// The status that ends an exclusive message (EOX).
pub const END_OF_EXCLUSIVE: u8 = 0xF7;

/// The first status of real time.
pub(crate) const FIRST_REAL_TIME: u8 = 0xF8;

/// The most data bytes of an exclusive message, between F0 and F7.
pub(crate) const MOST_DATA: usize = 65536;

/// The statuses of messages of a channel with two data bytes: bit n for those from 16n on.
// Bits, since a test of both ranges costs twice as much.
const VOICES_OF_TWO: u32 = 0x4F00;

/// How many data bytes a message has.
#[derive(Clone, Copy, Debug, PartialEq, Eq)]
pub enum Width {
    One,
    Two,
}

/// What a status begins (MIDI 1.0 Detailed Specification, "Summary of Status Bytes").
#[derive(Clone, Copy, Debug, PartialEq, Eq)]
pub enum StatusClass {
    /// 8n to En: messages of a channel, also by running status.
    Channel(Width),
    /// F1, F2, F3: one system common message with data.
    Common(Width),
    /// F6: a tune request, a system common message without data.
    TuneRequest,
    /// F0: a system exclusive message.
    Exclusive,
    /// F8, FA, FB, FC, FE, FF: one message of real time.
    RealTime,
    /// F4, F5, F9, FD, which are undefined, F7, and what is no status: no message.
    Nothing,
}

impl StatusClass {
    /// The row of a byte in the table of statuses.
    #[inline]
    #[tactic(auto, unfolding(crate::specs::Messages::begins))]
    pub fn of(byte: u8) -> StatusClass
        ensures { result ≡ begins byte }
    {
        match byte {
            0x00..=0x7F => StatusClass::Nothing,
            0x80..=0xBF => StatusClass::Channel(Width::Two),
            0xC0..=0xDF => StatusClass::Channel(Width::One),
            0xE0..=0xEF => StatusClass::Channel(Width::Two),
            EXCLUSIVE => StatusClass::Exclusive,
            0xF1 | 0xF3 => StatusClass::Common(Width::One),
            0xF2 => StatusClass::Common(Width::Two),
            0xF6 => StatusClass::TuneRequest,
            0xF8 | 0xFA..=0xFC | 0xFE | 0xFF => StatusClass::RealTime,
            0xF4 | 0xF5 | END_OF_EXCLUSIVE | 0xF9 | 0xFD => StatusClass::Nothing,
        }
    }

    /// Whether it begins messages of a channel, which alone have running status.
    #[inline]
    pub fn is_channel(self) -> bool
        ensures { result ≡ is_channel self }
    {
        matches!(self, StatusClass::Channel(_))
    }
}

/// Whether a byte is a status, and no data.
#[inline]
pub(crate) fn is_status(byte: u8) -> bool
    ensures { result ≡ is_status byte }
{
    byte >= FIRST_STATUS
}

/// Whether a byte begins messages of a channel with two data bytes.
#[inline]
pub(crate) fn is_voice_of_two(byte: u8) -> bool
    ensures { IsTrue result ↔ (begins byte ≡ StatusClass.Channel Width.Two) }
{
    VOICES_OF_TWO >> (byte >> 4) & 1 == 1
}

/// Whether a byte is a status of real time, also an undefined one.
#[inline]
pub(crate) fn is_real_time(byte: u8) -> bool
    ensures { result ≡ is_real_time byte }
{
    byte >= FIRST_REAL_TIME
}

/// Whether these are the full bytes of one message.
pub(crate) fn is_message(bytes: &[u8]) -> bool
    ensures { result ≡ is_message bytes.now }
{
    match bytes {
        [] => false,
        [status, tail @ ..] => is_tail(StatusClass::of(*status), tail),
    }
}

/// Whether these may follow a status in a message.
fn is_tail(class: StatusClass, tail: &[u8]) -> bool
    ensures { result ≡ is_tail class tail.now }
{
    match class {
        StatusClass::Channel(width) | StatusClass::Common(width) => is_group(width, tail),
        StatusClass::Exclusive => is_exclusive_tail(tail),
        StatusClass::TuneRequest | StatusClass::RealTime => tail.is_empty(),
        StatusClass::Nothing => false,
    }
}

/// Whether these are so many data bytes.
fn is_group(width: Width, tail: &[u8]) -> bool
    ensures { result ≡ is_group width tail.now }
{
    match (width, tail) {
        (Width::One, [first]) => !is_status(*first),
        (Width::Two, [first, second]) => !is_status(*first) && !is_status(*second),
        _ => false,
    }
}

/// Whether F0 and these bytes are a whole exclusive message.
pub fn is_exclusive_tail(tail: &[u8]) -> bool
    ensures { result ≡ is_message (EXCLUSIVE ∷ tail.now) }
{
    tail.len() <= MOST_DATA + 1 && ends_data(tail)
}

/// Whether these are data bytes with F7 as the last.
fn ends_data(tail: &[u8]) -> bool
    ensures { result ≡ ends_data tail.now }
{
    for i in 0..tail.len() {
        let byte = tail[i];
        if is_status(byte) {
            return byte == END_OF_EXCLUSIVE && tail.len() - i == 1;
        }
    }
    false
}

//! One message.

ghost use Rattle.std.specs.Prelude.{◌≡◌, ◌≤◌, ◌<◌, ℕ, [], ◌∷◌, ◌++◌, ◌+◌, length, vec_len, vec_capacity, slice_get, if◌then◌else◌, bytes_eq, IfOk, OnOk, OnErr, IfSome, IfNone, IsTrue};
ghost use Rattle.std.specs.Cmp.{partial_equiv_from_equiv};
ghost use Rattle.std.specs.Cmp.Lexicographic.{nat_list_eq_equiv};
ghost use Rattle.midi_wire.specs.Messages.{One, Two, IsMessage, exclusive_message, is_message};
ghost use Rattle.midi_wire.specs.Kinds.{kind_of, channel_number, is_base, with_one_data, with_two_data, channel_message};
ghost use Rattle.std.specs.Rc.{rc_value};
ghost use Rattle.midi_wire.specs.Parsing.{bytes_given, message_in};
ghost use Rattle.midi_wire.specs.declared.message.TheConstants.{SHARED};
ghost use Rattle.midi_wire.specs.Writings.{status_of, tail_of};

use crate::kind::{Kind, kind_of_status};
use crate::status::{
    CHANNEL_PRESSURE, CHANNELS, CONTROL_CHANGE, END_OF_EXCLUSIVE, EXCLUSIVE, FIRST_STATUS,
    NOTE_OFF, NOTE_ON, PITCH_BEND, POLY_PRESSURE, PROGRAM_CHANGE, StatusClass, is_message,
};
use memory::OutOfMemory;
use smallvec::SmallVec;
use std::alloc::Global;
use std::marker::Model;
use std::rc::Rc;

/// So many data bytes of exclusive messages take one allocation, which several messages may share; more take two.
pub(crate) const SHARED: usize = 128;

/// The full bytes of a message that has at most three: its status, and what follows it.
#[derive(Clone, Copy, Debug, PartialEq, Eq)]
pub enum ShortMessage {
    One(u8),
    Two(u8, u8),
    Three(u8, u8, u8),
}

/// The full bytes of a message.
#[derive(Clone, Copy, Debug)]
pub enum FullBytes<'m> {
    Short(ShortMessage),
    /// The data of an exclusive message, which stands between F0 and F7.
    Exclusive(&'m [u8]),
}

/// How a message is kept.
#[derive(Debug, Drop)]
enum Form {
    Short(ShortMessage),
    /// The data of an exclusive message: `len` of these bytes, from this place on.
    // In this order a message takes 16 bytes.
    Exclusive {
        from: u8,
        len: u32,
        bytes: Rc<SmallVec<u8, SHARED>>,
    },
}

/// One message, seen as its full bytes: its status, its data, and F7 at the end of an exclusive message.
///
/// Each value is a whole message of the MIDI 1.0 Detailed Specification ("Messages"), with no more than 65,536 data
/// bytes.
#[derive(Debug, Drop)]
pub struct Message {
    form: Form,
}

impl Model for Message {
    ghost use Rattle.std.specs.Prelude.{List, ℕ};

    ghost Value = { List ℕ };

    ghost use Rattle.midi_wire.specs.Parsing.{full_bytes, IsWithin};
    ghost use Rattle.std.specs.Prelude.{IsTrue};
    ghost use Rattle.midi_wire.specs.Messages.{is_message};

    ghost view = { λ m. full_bytes m.form };

    ghost invariant = { λ m. IsTrue (is_message (full_bytes m.form)) × IsWithin m.form };
}

impl PartialEq for Message {
    ghost eq = { bytes_eq };

    ghost laws = { partial_equiv_from_equiv nat_list_eq_equiv };

    /// Whether both have the same full bytes.
    fn eq(&self, other: &Message) -> bool {
        let count = self.len();
        if other.len() != count {
            return false;
        }
        for i in 0..count {
            if self.byte_at(i) != other.byte_at(i) {
                return false;
            }
        }
        true
    }
}

impl Eq for Message {
    ghost laws = { nat_list_eq_equiv };
}

impl Message {
    #[inline]
    pub(crate) fn alone(status: u8) -> Message
        requires { IsTrue (is_message (status ∷ [])) }
        ensures { result ≡ status ∷ [] }
    {
        Message {
            form: Form::Short(ShortMessage::One(status)),
        }
    }

    /// A message of two bytes. The caller has tested that they are one; `from_bytes` tests any bytes.
    #[inline]
    pub fn with_one(status: u8, first: u8) -> Message
        requires { IsTrue (is_message (status ∷ first ∷ [])) }
        ensures { result ≡ status ∷ first ∷ [] }
    {
        Message {
            form: Form::Short(ShortMessage::Two(status, first)),
        }
    }

    /// A message of three bytes, under the same condition.
    #[inline]
    pub fn with_two(status: u8, first: u8, second: u8) -> Message
        requires { IsTrue (is_message (status ∷ first ∷ second ∷ [])) }
        ensures { result ≡ status ∷ first ∷ second ∷ [] }
    {
        Message {
            form: Form::Short(ShortMessage::Three(status, first, second)),
        }
    }

    /// An exclusive message of this data, without F0 and F7, under the same condition.
    pub fn exclusive(alloc: Global, payload: &[u8]) -> Result<Message, OutOfMemory>
        requires { IsTrue (is_message (exclusive_message payload.now)) }
        ensures { IfOk result (λ m. m ≡ exclusive_message payload.now) }
    {
        let bytes = SmallVec::from_slice(alloc, payload)?;
        Ok(Message {
            form: Form::Exclusive {
                from: 0,
                len: payload.len() as u32,
                bytes: Rc::new(alloc, bytes)?,
            },
        })
    }

    /// An exclusive message whose data stands among bytes that others share, under the same condition.
    #[inline(always)]
    pub(crate) fn exclusive_in(
        bytes: &Rc<SmallVec<u8, SHARED>>,
        from: usize,
        len: usize,
    ) -> Result<Message, OutOfMemory>
        requires few { length (rc_value bytes.now).items ≤ SHARED }
        requires within { from + len ≤ length (rc_value bytes.now).items }
        requires message { IsTrue (is_message (message_in from len (rc_value bytes.now).items)) }
        ensures { IfOk result (λ m. m ≡ message_in from len (rc_value bytes.now).items) }
    {
        Ok(Message {
            form: Form::Exclusive {
                from: from as u8,
                len: len as u32,
                bytes: bytes.clone()?,
            },
        })
    }

    /// The message of a channel with this kind, channel (0 to 15) and data (0 to 127), if there is one.
    ///
    /// A program change and a channel pressure have one data byte: `second` must be 0. The kinds of the system
    /// messages have no channel, and give none (MIDI 1.0 Detailed Specification, "Channel Voice Messages").
    pub fn channel(kind: Kind, channel: u8, first: u8, second: u8) -> Option<Message>
        ensures { result ≡ channel_message kind channel first second }
    {
        match kind {
            Kind::NoteOff => Message::voice_of_two(NOTE_OFF, channel, first, second),
            Kind::NoteOn => Message::voice_of_two(NOTE_ON, channel, first, second),
            Kind::PolyPressure => Message::voice_of_two(POLY_PRESSURE, channel, first, second),
            Kind::ControlChange => Message::voice_of_two(CONTROL_CHANGE, channel, first, second),
            Kind::ProgramChange => Message::voice_of_one(PROGRAM_CHANGE, channel, first, second),
            Kind::ChannelPressure => Message::voice_of_one(
                CHANNEL_PRESSURE,
                channel,
                first,
                second,
            ),
            Kind::PitchBend => Message::voice_of_two(PITCH_BEND, channel, first, second),
            Kind::SystemCommon | Kind::RealTime | Kind::Exclusive => None,
        }
    }

    /// A channel message with one data byte.
    fn voice_of_one(base: u8, channel: u8, first: u8, second: u8) -> Option<Message>
        requires { IsTrue (is_base One base) }
        ensures { result ≡ with_one_data base channel first second }
    {
        if channel < CHANNELS && first < FIRST_STATUS && second == 0 {
            return Some(Message::with_one(base + channel, first));
        }
        None
    }

    /// A channel message with two data bytes.
    fn voice_of_two(base: u8, channel: u8, first: u8, second: u8) -> Option<Message>
        requires { IsTrue (is_base Two base) }
        ensures { result ≡ with_two_data base channel first second }
    {
        if channel < CHANNELS && first < FIRST_STATUS && second < FIRST_STATUS {
            return Some(Message::with_two(base + channel, first, second));
        }
        None
    }

    /// The message with these full bytes, where they are those of one message, from its status to its last byte.
    ///
    /// Memory is taken only for the data of an exclusive message.
    pub fn from_bytes(alloc: Global, bytes: &[u8]) -> Result<Option<Message>, OutOfMemory>
        ensures ok { IfOk result
            (λ found. found ≡ (if is_message bytes.now then Some bytes.now else None)) }
        ensures err { OnErr result (IsTrue (is_message bytes.now)) }
        ensures exclusive { OnErr result (kind_of bytes.now ≡ Kind.Exclusive) }
    {
        if !is_message(bytes) {
            return Ok(None);
        }
        let status = bytes[0];
        if status == EXCLUSIVE {
            let payload = &bytes[1..bytes.len() - 1];
            return Ok(Some(Message::exclusive(alloc, payload)?));
        }
        Ok(Some(match bytes.len() {
            1 => Message::alone(status),
            2 => Message::with_one(status, bytes[1]),
            _ => Message::with_two(status, bytes[1], bytes[2]),
        }))
    }

    /// The same message once more. The data of an exclusive message is shared, not copied.
    pub fn duplicate(&self) -> Result<Message, OutOfMemory>
        ensures ok { IfOk result (λ m. m ≡ self.now) }
        ensures exclusive { OnErr result (kind_of self.now ≡ Kind.Exclusive) }
        ensures message { IsMessage self.now }
    {
        let form = match &self.form {
            Form::Short(short) => Form::Short(*short),
            Form::Exclusive { from, len, bytes } => Form::Exclusive {
                from: *from,
                len: *len,
                bytes: bytes.clone()?,
            },
        };
        Ok(Message { form })
    }

    /// The kind, by the status.
    pub fn kind(&self) -> Kind
        ensures { result ≡ kind_of self.now }
    {
        kind_of_status(self.status())
    }

    /// The channel, 0 to 15, of a channel message; none of a system message.
    pub fn channel_of(&self) -> Option<u8>
        ensures { result ≡ channel_number self.now }
    {
        let status = self.status();
        if StatusClass::of(status).is_channel() {
            Some(status % CHANNELS)
        } else {
            None
        }
    }

    /// Its full bytes, in the form in which it has them. It takes no memory.
    // Inline, so that what a caller does for each number of bytes stands where the form is known.
    #[inline(always)]
    pub fn full_bytes(&self) -> FullBytes<'_>
        ensures { bytes_given result ≡ self.now }
    {
        match &self.form {
            Form::Short(short) => FullBytes::Short(*short),
            Form::Exclusive { from, len, bytes } => {
                let from = *from as usize;
                FullBytes::Exclusive(&bytes.as_ref().as_slice()[from..from + *len as usize])
            }
        }
    }

    /// How many bytes it has, its status among them.
    pub fn len(&self) -> usize
        ensures { result ≡ length self.now }
    {
        match self.full_bytes() {
            FullBytes::Short(ShortMessage::One(_)) => 1,
            FullBytes::Short(ShortMessage::Two(_, _)) => 2,
            FullBytes::Short(ShortMessage::Three(_, _, _)) => 3,
            FullBytes::Exclusive(payload) => payload.len() + 2,
        }
    }

    /// One of its full bytes: 0 is the status.
    pub fn byte_at(&self, i: usize) -> Option<u8>
        ensures { result ≡ slice_get self.now i }
    {
        match self.full_bytes() {
            FullBytes::Short(ShortMessage::One(status)) => [status].get(i).copied(),
            FullBytes::Short(ShortMessage::Two(status, first)) => [status, first].get(i).copied(),
            FullBytes::Short(ShortMessage::Three(status, first, second)) => {
                [status, first, second].get(i).copied()
            }
            FullBytes::Exclusive(payload) => exclusive_byte(payload, i),
        }
    }

    /// It has the form of a message ("Messages"). It does nothing.
    #[inline]
    pub fn is_message(&self)
        ensures { IsMessage self.now }
    {
        // The invariant is known only once a field is read.
        let _form = &self.form;
    }

    /// The status, the first byte.
    #[inline]
    pub fn status(&self) -> u8
        ensures value { result ≡ status_of self.now }
        ensures message { IsMessage self.now }
    {
        match &self.form {
            Form::Short(ShortMessage::One(status)) => *status,
            Form::Short(ShortMessage::Two(status, _)) => *status,
            Form::Short(ShortMessage::Three(status, _, _)) => *status,
            Form::Exclusive { .. } => EXCLUSIVE,
        }
    }

    /// Appends the full bytes, status and all. Where there is no memory, nothing changes.
    // Most messages have three bytes or less: a call would cost as much as they do.
    #[inline(always)]
    pub fn append_to(&self, out: &mut Vec<u8>) -> Result<(), OutOfMemory>
        ensures ok { OnOk result (out.new.items ≡ out.old.items ++ self.now) }
        ensures err { OnErr result (out.new.items ≡ out.old.items) }
        ensures full { OnErr result (vec_capacity out.old < vec_len out.old + length self.now) }
    {
        match self.full_bytes() {
            FullBytes::Short(ShortMessage::One(status)) => {
                out.extend_from_slice(&[status])?;
            }
            FullBytes::Short(ShortMessage::Two(status, first)) => {
                out.extend_from_slice(&[status, first])?;
            }
            FullBytes::Short(ShortMessage::Three(status, first, second)) => {
                out.extend_from_slice(&[status, first, second])?;
            }
            FullBytes::Exclusive(data) => {
                out.reserve(data.len() + 2)?;
                out.push(EXCLUSIVE).ok().unwrap();
                out.extend_from_slice(data).ok().unwrap();
                out.push(END_OF_EXCLUSIVE).ok().unwrap();
            }
        }
        Ok(())
    }

    /// Appends what follows the status. Where there is no memory, nothing changes.
    pub(crate) fn append_tail(&self, out: &mut Vec<u8>) -> Result<(), OutOfMemory>
        ensures ok { OnOk result (out.new.items ≡ out.old.items ++ tail_of self.now) }
        ensures err { OnErr result (out.new.items ≡ out.old.items) }
        ensures full { OnErr result
            (vec_capacity out.old < vec_len out.old + length (tail_of self.now)) }
    {
        match self.full_bytes() {
            FullBytes::Short(ShortMessage::One(_)) => {}
            FullBytes::Short(ShortMessage::Two(_, first)) => {
                out.extend_from_slice(&[first])?;
            }
            FullBytes::Short(ShortMessage::Three(_, first, second)) => {
                out.extend_from_slice(&[first, second])?;
            }
            FullBytes::Exclusive(data) => {
                out.reserve(data.len() + 1)?;
                out.extend_from_slice(data).ok().unwrap();
                out.push(END_OF_EXCLUSIVE).ok().unwrap();
            }
        }
        Ok(())
    }
}

/// One of the full bytes of an exclusive message with this data.
fn exclusive_byte(payload: &[u8], i: usize) -> Option<u8>
    ensures { result ≡ slice_get (exclusive_message payload.now) i }
{
    if i == 0 {
        return Some(EXCLUSIVE);
    }
    if i == payload.len() + 1 {
        return Some(END_OF_EXCLUSIVE);
    }
    payload.get(i - 1).copied()
}

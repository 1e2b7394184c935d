//! What one command has still to send.

ghost use Rattle.std.specs.Prelude.{◌≡◌, List, [], ◌∷◌, map, Some, IsTrue, IfOk, OnOk};
ghost use Rattle.seq_state.specs.State.{DueMessage};
ghost use Rattle.seq_settle.specs.Events.{file_event};
ghost use Rattle.seq_settle.specs.Sends.{next_due};

use memory::OutOfMemory;
use midi_wire::Message;
use smf_files::Cursor;
use std::marker::Model;
use tempo_clock::Due;

/// Where the events come from.
#[derive(Drop)]
enum EventSource<'b> {
    /// A message that was scheduled, until it is sent.
    Scheduled { due: Due, message: Option<Message> },
    /// A file that is played.
    Played(Cursor<'b>),
}

/// The events that one command has still to send: one that was scheduled, or those of a file that is played.
#[derive(Drop)]
pub struct Events<'b> {
    source: EventSource<'b>,
}

impl<'b> Model for Events<'b> {
    ghost use Rattle.std.specs.Prelude.{List};
    ghost use Rattle.std.specs.Coded.{coded_list};
    ghost use Rattle.seq_state.specs.State.{DueMessage};
    ghost use Rattle.seq_state.specs.Codes.{coded_due_message};
    ghost use Rattle.seq_settle.specs.Events.{events_seen};

    ghost Value = { List DueMessage };

    ghost coded = { coded_list coded_due_message };

    ghost view = { λ e. events_seen e.source };
}

impl<'b> Events<'b> {
    /// One message, when it is due.
    pub fn scheduled(due: Due, message: Message) -> Events<'b>
        ensures { result ≡ record { due = due; message = message } ∷ [] }
    {
        Events {
            source: EventSource::Scheduled {
                due,
                message: Some(message),
            },
        }
    }

    /// What a cursor in a file still gives, each event due at its tick.
    pub fn played(cursor: Cursor<'b>) -> Events<'b>
        ensures { result ≡ map file_event cursor.entry }
    {
        Events {
            source: EventSource::Played(cursor),
        }
    }

    /// When the first of them is due.
    pub fn first_due(&self) -> Option<Due>
        ensures { result ≡ next_due self.now }
    {
        match &self.source {
            EventSource::Scheduled {
                due,
                message: Some(_),
            } => Some(*due),
            EventSource::Scheduled { .. } => None,
            EventSource::Played(cursor) => match cursor.peek_tick() {
                Some(tick) => Some(Due::Tick(tick)),
                None => None,
            },
        }
    }

    /// Takes the first of them, if there is one. Where memory is refused, all stay.
    pub fn next(&mut self) -> Result<Option<Message>, OutOfMemory>
        ensures first { IfOk result (λ r. (e : DueMessage) (es : List DueMessage) → self.old ≡ e ∷ es →
            r ≡ Some e.message) }
        ensures rest { OnOk result ((e : DueMessage) (es : List DueMessage) → self.old ≡ e ∷ es →
            self.new ≡ es) }
    {
        match &mut self.source {
            EventSource::Scheduled { due: _, message } => Ok(message.take()),
            EventSource::Played(cursor) => next_of(cursor),
        }
    }

    /// Whether what is left is one message, which was scheduled.
    #[inline(always)]
    pub(crate) fn is_scheduled(&self) -> bool
        ensures { IsTrue result → (e : DueMessage) × (self.now ≡ e ∷ []) }
    {
        match &self.source {
            EventSource::Scheduled { due: _, message } => message.is_some(),
            EventSource::Played(_) => false,
        }
    }

    /// The message of the first of them, if there is one.
    #[inline(always)]
    pub(crate) fn into_first(self) -> Result<Option<Message>, OutOfMemory>
        ensures { IfOk result (λ r. (e : DueMessage) (es : List DueMessage) → self.entry ≡ e ∷ es →
            r ≡ Some e.message) }
    {
        let Events { source } = self;
        match source {
            EventSource::Scheduled { due: _, message } => Ok(message),
            EventSource::Played(mut cursor) => next_of(&mut cursor),
        }
    }
}

/// Takes the message of the first event that a cursor gives, if there is one. Where memory is refused, all stay.
fn next_of(cursor: &mut Cursor<'_>) -> Result<Option<Message>, OutOfMemory>
    ensures first { IfOk result (λ r. (e : DueMessage) (es : List DueMessage) →
        map file_event cursor.old ≡ e ∷ es → r ≡ Some e.message) }
    ensures rest { OnOk result ((e : DueMessage) (es : List DueMessage) →
        map file_event cursor.old ≡ e ∷ es → map file_event cursor.new ≡ es) }
{
    match cursor.next()? {
        Some(event) => Ok(Some(event.message)),
        None => Ok(None),
    }
}

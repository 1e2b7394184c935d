//! A sequencer that answers lines.

ghost use Rattle.std.specs.Prelude.{◌≡◌, ◌++◌, OnOk};
ghost use Rattle.std.specs.FinMap as finmap;
ghost use Rattle.seq_state.specs.State.{State, start};
ghost use Rattle.session_live.specs.Answers.{answer, after_item, parts_text};
ghost use Rattle.session_live.specs.Lines.{Heard, nothing_heard, heard_after, item, skipped_loose};
ghost use Rattle.session_live.specs.Lines as Item;
ghost use Rattle.session_live.specs.Talk.{next_number, IsHeard};
ghost use Rattle.script_text.specs.declared.reading.SkipReason.{SkipReason};

use crate::answers::{list, skip, take, wait};
use crate::heard::{HeardLines, MOST_LINE};
use crate::parts::Writer;
use agenda_heap::Agenda;
use memory::OutOfMemory;
use node_table::ClientId;
use script_text::{LiveLine, SkipReason, live_line};
use seq_engine::Engine;
use seq_session::NamedFiles;
use seq_state::Input;
use std::alloc::Global;

/// A sequencer that answers lines.
#[derive(Drop)]
pub(crate) struct Talk<'f, 'b, A: Agenda> {
    alloc: Global,
    pub(crate) files: NamedFiles<'f, 'b>,
    pub(crate) engine: Engine<'f, 'b, A>,
    pub(crate) heard: HeardLines,
    writer: Writer,
}

impl<'f, 'b, A: Agenda + Drop> Talk<'f, 'b, A> {
    /// A sequencer with no clients, at moment 0, whose clients may play these files.
    pub(crate) fn new(alloc: Global, files: NamedFiles<'f, 'b>, agenda: A) -> Talk<'f, 'b, A>
        requires { A.content agenda ≡ finmap.empty }
        ensures heard { IsHeard result.files result.engine result.heard.said result.heard.loose
            nothing_heard start }
        ensures files { result.files ≡ files.entry }
    {
        let engine = Engine::new(alloc, files.files(), agenda);
        Talk {
            alloc,
            files,
            engine,
            heard: HeardLines::new(),
            writer: Writer::new(alloc),
        }
    }
}

impl<'f, 'b, A: Agenda> Talk<'f, 'b, A> {
    /// Adds the answer to a line, which is without its line feed.
    ///
    /// After an error the text ends within the answer, and no line may follow.
    pub(crate) fn answer(&mut self, line: &[u8], text: &mut Vec<u8>) -> Result<(), OutOfMemory>
        ensures heard { OnOk result ((h : Heard) (s : State) →
            IsHeard self.old.files self.old.engine self.old.heard.said self.old.heard.loose h s →
            let x = item self.old.files.names h line.now in
            IsHeard self.new.files self.new.engine self.new.heard.said self.new.heard.loose
            (heard_after h x) (after_item self.old.files.files s x)) }
        ensures text { OnOk result ((h : Heard) (s : State) →
            IsHeard self.old.files self.old.engine self.old.heard.said self.old.heard.loose h s →
            let x = item self.old.files.names h line.now in
            text.new.items
            ≡ text.old.items ++ parts_text (answer self.old.files.files s x)) }
        ensures files { self.new.files ≡ self.old.files }
    {
        if line.len() > MOST_LINE {
            return self.answer_too_long(text);
        }
        match live_line(self.alloc, self.files.names(), line)? {
            LiveLine::Nothing => Ok(()),
            LiveLine::Unknown(client) => self.skip(&client, SkipReason::Unreadable, text),
            LiveLine::Says(client, moment, command) => {
                if moment < self.engine.now() {
                    return self.skip(&Some(client), SkipReason::Late, text);
                }
                let input = Input {
                    moment,
                    actor: client,
                    command,
                };
                take(
                    &mut self.engine,
                    &mut self.heard,
                    &mut self.writer,
                    &input,
                    text,
                )
            }
            LiveLine::Passes(moment) => {
                if moment < self.engine.now() {
                    return self.skip(&None, SkipReason::Late, text);
                }
                wait(
                    &mut self.engine,
                    &mut self.heard,
                    &mut self.writer,
                    moment,
                    text,
                )
            }
            LiveLine::Asks => list(&mut self.engine, &mut self.heard, text),
        }
    }

    /// Adds the answer to a line that is too long.
    pub(crate) fn answer_too_long(&mut self, text: &mut Vec<u8>) -> Result<(), OutOfMemory>
        ensures heard { OnOk result ((h : Heard) (s : State) →
            IsHeard self.old.files self.old.engine self.old.heard.said self.old.heard.loose h s →
            IsHeard self.new.files self.new.engine self.new.heard.said self.new.heard.loose
            (heard_after h (skipped_loose h SkipReason.TooLong)) s) }
        ensures text { OnOk result ((h : Heard) (s : State) →
            IsHeard self.old.files self.old.engine self.old.heard.said self.old.heard.loose h s →
            text.new.items ≡ text.old.items ++ parts_text
            (answer self.old.files.files s (skipped_loose h SkipReason.TooLong))) }
        ensures files { self.new.files ≡ self.old.files }
    {
        self.skip(&None, SkipReason::TooLong, text)
    }

    /// Skips a line that names this client, or none.
    fn skip(
        &mut self,
        client: &Option<ClientId>,
        why: SkipReason,
        text: &mut Vec<u8>,
    ) -> Result<(), OutOfMemory>
        ensures heard { OnOk result ((h : Heard) (s : State) →
            IsHeard self.old.files self.old.engine self.old.heard.said self.old.heard.loose h s →
            IsHeard self.new.files self.new.engine self.new.heard.said self.new.heard.loose
            (heard_after h (Item.Skipped client.now (next_number h client.now) why)) s) }
        ensures text { OnOk result ((h : Heard) (s : State) →
            IsHeard self.old.files self.old.engine self.old.heard.said self.old.heard.loose h s →
            text.new.items ≡ text.old.items ++ parts_text (answer self.old.files.files s
            (Item.Skipped client.now (next_number h client.now) why))) }
        ensures files { self.new.files ≡ self.old.files }
    {
        skip(
            &mut self.engine,
            &mut self.heard,
            &mut self.writer,
            client,
            why,
            text,
        )
    }
}

//! A stream passed from one client of a sequencer to another.

ghost use Rattle.std.specs.Prelude.{◌≡◌, ◌≤◌, ◌<◌, ◌+◌, ◌*◌, ◌++◌, ◌⊎◌, ◌^◌, [], true, false, length, IfOk, IfErr, OnOk, OnErr, IsErrOf};
ghost use Rattle.std.specs.List.{flat_map};
ghost use Rattle.midi_wire.specs.Readings.{rest};
ghost use Rattle.byte_io.specs.Marks.{SinkMarks};
ghost use Rattle.byte_io.specs.Moved.{GaveSome};
ghost use Rattle.smf_grammar.specs.Chunks.{most_bytes};
ghost use Rattle.std.specs.FinMap as map;
ghost use Rattle.std.specs.Int.RustNames.{bit_or};
ghost use Rattle.seq_state.specs.Step.{port_addr, step};
ghost use Rattle.tool_text.specs.Faults.{blames_sink, IsOfStream};
ghost use Rattle.tool_text.specs.Stream.{message_lines, IsRendered, IsRenderedInPart, GaveTooMany};
ghost use Rattle.seq_engine.specs.Begun.{seen_at_start};
ghost use Rattle.tool_text.specs.Thru.{passage_line, thru_line, thru_text, fed_stream, input_at_start, engine_joined};
ghost use Rattle.tool_text.specs.Thru.{most_piece, after_input, IsPassing, IsFed};

use crate::fault::ToolFault;
use crate::heading::Heading;
use crate::limits::MOST;
use crate::printing::{Printer, print_stream};
use agenda_heap::{Agenda, HeapAgenda};
use bitflags::Flags;
use byte_io::{Sink, Source};
use cell_pools::MOST_WAITING;
use memory::{Items, OutOfMemory};
use midi_wire::{FullBytes, ShortMessage};
use node_table::{Addr, Caps, ClientId, FIRST_CLIENT, Node, PortNo};
use seq_engine::{Command, Delivery, Engine, Input, StepOut};
use std::alloc::Global;

/// How many bytes are passed on at once. Each completes at most two messages, so that a piece completes no more than
/// `MOST_WAITING`, for which the second client has room.
const MOST_PIECE: usize = 1000;

/// Passes the MIDI stream that `input` gives from the first of two clients of a sequencer to the second, and prints
/// each message that comes there: its moment, the port that it came to, and its bytes.
///
/// At a fault the sink has taken the first part of the text.
pub fn thru_text<R: Source, W: Sink>(
    alloc: Global,
    input: &mut R,
    out: &mut W,
) -> Result<(), ToolFault>
    requires input_sound { R.failed input.old ≡ false }
    requires out_sound { W.failed out.old ≡ false }

    ensures text { OnOk result (IsRendered R.HasLeft W.HasTaken thru_text
        input.old input.new out.old out.new) }
    ensures short { OnErr result (IsRenderedInPart R.HasLeft W.HasTaken thru_text
        input.old input.new out.old out.new) }
    ensures bounded { GaveSome R.HasLeft (most_bytes + 1) input.old input.new }

    // `Read` comes where a read failed or there were too many bytes, and out of memory is reported only where the
    // source did not fail. Only `Write` blames the sink.
    ensures read { IsErrOf result ToolFault.Read → (R.failed input.new ≡ true)
        ⊎ GaveTooMany R.HasLeft input.old input.new }
    ensures unread { IsErrOf result ToolFault.OutOfMemory → R.failed input.new ≡ false }
    ensures marks { SinkMarks W.failed W.takes_some out.old out.new (blames_sink result) }
    ensures only { IfErr result IsOfStream }
{
    let mut passage = Passage::new(alloc, HeapAgenda::new(alloc))?;
    print_stream(alloc, &mut passage, input, out, MOST as u64)
}

/// A sequencer that a stream is passed through.
#[derive(Drop)]
struct Passage<'b, A: Agenda> {
    alloc: Global,
    engine: Engine<'b, 'b, A>,
}

impl<'b, A: Agenda + Drop> Passage<'b, A> {
    /// No byte has passed.
    fn new(alloc: Global, agenda: A) -> Result<Passage<'b, A>, ToolFault>
        requires { A.content agenda ≡ map.empty }
        ensures fed { IfOk result (λ p. IsFed p.engine []) }
        ensures only { IfErr result (λ e. e ≡ ToolFault.OutOfMemory) }
    {
        Ok(Passage {
            alloc,
            engine: joined(alloc, agenda)?,
        })
    }
}

impl<'b, A: Agenda> Printer for Passage<'b, A> {
    ghost use Rattle.tool_text.specs.Stream.{message_lines};
    ghost use Rattle.smf_grammar.specs.Chunks.{most_bytes};
    ghost use Rattle.tool_text.specs.Thru.{thru_line, IsFed};

    ghost WasFed = { λ p read. IsFed p.engine read };

    ghost lines = { λ _. message_lines thru_line };

    ghost most = { most_bytes };

    fn take(&mut self, piece: &[u8], text: &mut Vec<u8>) -> Result<(), ToolFault> {
        pass_on(self.alloc, &mut self.engine, piece, text)
    }
}

/// A sequencer with two clients, the second of which has subscribed its port to the first's.
fn joined<'b, A: Agenda + Drop>(alloc: Global, agenda: A) -> Result<Engine<'b, 'b, A>, ToolFault>
    requires { A.content agenda ≡ map.empty }
    ensures joined { IfOk result (λ e. e ≡ engine_joined) }
    ensures only { IfErr result (λ e. e ≡ ToolFault.OutOfMemory) }
{
    let mut engine = Engine::new(alloc, &[], agenda);
    join(alloc, &mut engine)?;
    Ok(engine)
}

/// Opens the two clients, and subscribes the port of the second to that of the first.
fn join<'b, A: Agenda>(alloc: Global, engine: &mut Engine<'b, 'b, A>) -> Result<(), ToolFault>
    requires { engine.old ≡ seen_at_start [] }
    ensures joined { OnOk result (engine.new ≡ engine_joined) }
    ensures only { IfErr result (λ e. e ≡ ToolFault.OutOfMemory) }
{
    let source = ClientId::new(FIRST_CLIENT).unwrap();
    let sink = ClientId::new(FIRST_CLIENT + 1).unwrap();
    let port = PortNo::new(0).unwrap();
    let readable = both(Caps::READ, Caps::SUBS_READ);
    let writable = both(Caps::WRITE, Caps::SUBS_WRITE);
    say(engine, source, opening(alloc, b"source", 1)?)?;
    say(engine, source, creation(alloc, port, b"out", readable)?)?;
    say(engine, sink, opening(alloc, b"sink", MOST_WAITING)?)?;
    say(engine, sink, creation(alloc, port, b"in", writable)?)?;
    say(engine, sink, connection(source, sink, port))
}

/// All that two sets of capabilities have.
fn both(one: Caps, other: Caps) -> Caps
    ensures { result.0 ≡ bit_or one.0 other.0 }
{
    let mut caps = one;
    caps.insert(other);
    caps
}

/// Takes a command at moment 0, of which nothing comes to a port.
fn say<'b, A: Agenda>(
    engine: &mut Engine<'b, 'b, A>,
    actor: ClientId,
    command: Command,
) -> Result<(), ToolFault>
    requires early { engine.old.moment ≡ 0 }
    requires counted { engine.old.steps < 2 ^ 63 }
    ensures state { OnOk result
        (engine.new ≡ after_input engine.old (input_at_start actor command)) }
    ensures only { IfErr result (λ e. e ≡ ToolFault.OutOfMemory) }
{
    take(engine, actor, command)?;
    Ok(())
}

/// Takes a command at moment 0, and gives what comes to ports.
fn take<'b, A: Agenda>(
    engine: &mut Engine<'b, 'b, A>,
    actor: ClientId,
    command: Command,
) -> Result<Items<Delivery>, ToolFault>
    requires early { engine.old.moment ≡ 0 }
    requires counted { engine.old.steps < 2 ^ 63 }
    ensures state { OnOk result
        (engine.new ≡ after_input engine.old (input_at_start actor command)) }
    ensures delivered { IfOk result (λ ds.
        ds ≡ (step engine.old.files engine.old.state (input_at_start actor command)).delivered) }
    ensures only { IfErr result (λ e. e ≡ ToolFault.OutOfMemory) }
{
    let input = Input {
        moment: 0,
        actor,
        command,
    };
    let StepOut {
        reply: _,
        delivered,
    } = engine.step(&input)?;
    Ok(delivered)
}

fn opening(alloc: Global, name: &[u8], in_size: u32) -> Result<Command, OutOfMemory>
    ensures { IfOk result (λ command. command ≡ Command.Open name.now in_size 1) }
{
    Ok(Command::Open {
        name: Items::new(Vec::from_slice(alloc, name)?),
        in_size,
        out_size: 1,
    })
}

fn creation(alloc: Global, port: PortNo, name: &[u8], caps: Caps) -> Result<Command, OutOfMemory>
    ensures { IfOk result (λ command. command ≡ Command.CreatePort port name.now caps) }
{
    Ok(Command::CreatePort {
        port,
        name: Items::new(Vec::from_slice(alloc, name)?),
        caps,
    })
}

fn connection(source: ClientId, target: ClientId, port: PortNo) -> Command
    ensures { result ≡ Command.Connect (port_addr source port) (port_addr target port) }
{
    Command::Connect {
        source: Addr {
            client: source,
            node: Node::Port(port),
        },
        target: Addr {
            client: target,
            node: Node::Port(port),
        },
    }
}

fn piece_of(alloc: Global, piece: &[u8]) -> Result<Command, OutOfMemory>
    ensures { IfOk result (λ command. command ≡ Command.Bytes 0 piece.now) }
{
    Ok(Command::Bytes {
        port: PortNo::new(0).unwrap(),
        bytes: Items::new(Vec::from_slice(alloc, piece)?),
    })
}

/// Feeds the first client's port, and adds a line for each message that comes to the second's.
fn pass_on<'b, A: Agenda>(
    alloc: Global,
    engine: &mut Engine<'b, 'b, A>,
    piece: &[u8],
    text: &mut Vec<u8>,
) -> Result<(), ToolFault>
    requires passing { IsPassing engine.old }
    requires counted { engine.old.steps + 2 * length piece.now < 2 ^ 63 }

    ensures text { OnOk result (text.new.items
        ≡ text.old.items ++ message_lines thru_line (fed_stream engine.old.state ++ piece.now)) }
    ensures stream { OnOk result (fed_stream engine.new.state
        ≡ rest (fed_stream engine.old.state ++ piece.now)) }
    ensures passing { OnOk result (IsPassing engine.new) }
    ensures counted { OnOk result (engine.new.steps ≤ engine.old.steps + 2 * length piece.now) }
    ensures only { IfErr result (λ e. e ≡ ToolFault.OutOfMemory) }
{
    for part in piece.chunks(MOST_PIECE) {
        pass_part(alloc, engine, part, text)?;
    }
    Ok(())
}

/// The same for so few bytes that what they complete finds room, after which the second client takes all that waits for
/// it: so there is room for the next.
fn pass_part<'b, A: Agenda>(
    alloc: Global,
    engine: &mut Engine<'b, 'b, A>,
    part: &[u8],
    text: &mut Vec<u8>,
) -> Result<(), ToolFault>
    requires passing { IsPassing engine.old }
    requires counted { engine.old.steps + 2 < 2 ^ 63 }
    requires short { length part.now ≤ most_piece }

    ensures text { OnOk result (text.new.items
        ≡ text.old.items ++ message_lines thru_line (fed_stream engine.old.state ++ part.now)) }
    ensures stream { OnOk result (fed_stream engine.new.state
        ≡ rest (fed_stream engine.old.state ++ part.now)) }
    ensures passing { OnOk result (IsPassing engine.new) }
    ensures counted { OnOk result (engine.new.steps ≡ engine.old.steps + 2) }
    ensures only { IfErr result (λ e. e ≡ ToolFault.OutOfMemory) }
{
    let source = ClientId::new(FIRST_CLIENT).unwrap();
    let sink = ClientId::new(FIRST_CLIENT + 1).unwrap();
    let delivered = take(engine, source, piece_of(alloc, part)?)?;
    add_lines(alloc, delivered, text)?;
    say(engine, sink, Command::Receive { max: MOST_WAITING })
}

/// Adds a line for each delivery.
fn add_lines(
    alloc: Global,
    delivered: Items<Delivery>,
    text: &mut Vec<u8>,
) -> Result<(), OutOfMemory>
    ensures { OnOk result (text.new.items ≡ text.old.items ++ flat_map passage_line delivered) }
{
    let Some(first) = delivered.as_slice().first() else {
        return Ok(());
    };
    let mut heading = Heading::new(alloc, first.moment, first.target)?;
    for delivery in delivered.as_slice() {
        push_delivery(delivery, &mut heading, text)?;
    }
    Ok(())
}

/// Adds the line of a delivery.
fn push_delivery(
    delivery: &Delivery,
    heading: &mut Heading,
    text: &mut Vec<u8>,
) -> Result<(), OutOfMemory>
    ensures { OnOk result (text.new.items ≡ text.old.items ++ passage_line delivery.now) }
{
    heading.turn_to(delivery.moment, delivery.target)?;
    match delivery.message.full_bytes() {
        FullBytes::Short(ShortMessage::One(status)) => heading.push_line(text, &[status]),
        FullBytes::Short(ShortMessage::Two(status, first)) => {
            heading.push_line(text, &[status, first])
        }
        FullBytes::Short(ShortMessage::Three(status, first, second)) => {
            heading.push_line(text, &[status, first, second])
        }
        FullBytes::Exclusive(payload) => heading.push_exclusive(text, payload),
    }
}

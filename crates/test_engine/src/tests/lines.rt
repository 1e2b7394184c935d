//! What clients say, one after another.

ghost use Rattle.std.specs.Prelude.{◌≤◌, length};

use midi_wire::Message;
use seq_engine::*;
use std::alloc::Global;
use std::test::Fail;

/// A port or a filter of a client.
#[derive(Clone, Copy)]
pub enum At {
    P(u8, u8),
    F(u8, u8),
}

/// A command, with its numbers as a script has them.
#[derive(Clone, Copy)]
pub enum Say {
    /// A name, and the sizes of the input and the output.
    Open(&'static str, u32, u32),
    Close,
    /// A port, its name and its capabilities.
    Port(u8, &'static str, u8),
    DeletePort(u8),
    /// A filter that may be joined to and from.
    Filter(u8, RuleArgs),
    /// A filter, and its new rule.
    Rule(u8, RuleArgs),
    Connect(At, At),
    Disconnect(At, At),
    Bytes(u8, &'static [u8]),
    Send(u8, &'static [u8]),
    /// A queue, its pulses per quarter note and its tempo.
    Queue(u8, u32, u32),
    /// A queue is named by its owner and its number, here and below.
    DeleteQueue(u8, u8),
    Start(u8, u8),
    Stop(u8, u8),
    /// And a tempo.
    Tempo(u8, u8, u32),
    Status(u8, u8),
    Share(u8, u8),
    /// On queue 0 of a client, from the actor's port 0.
    Schedule(u8, DueAt, &'static [u8]),
    Receive(u32),
    Pools,
}

use self::Say::*;

/// The filter that lets all pass as it came.
pub const ALL: RuleArgs = RuleArgs {
    channels: 65535,
    kinds: Kinds::ALL,
    low: 0,
    high: 127,
    shift: 0,
    channel: None,
};

/// The filter that raises notes, so that one tells through how many filters it came.
pub const RAISES: RuleArgs = RuleArgs { shift: 1, ..ALL };

/// What one client says, each command at its moment, and what it hears of the run.
#[derive(Clone, Copy)]
pub struct Part {
    pub client: u8,
    pub says: &'static [(u64, Say)],
    pub log: &'static str,
}

/// The inputs of a run, in the order of moment, client and line. Each client's lines are added in their order, and the
/// clients one after another.
#[derive(Drop)]
pub struct Lines {
    alloc: Global,
    inputs: Vec<Input>,
    actor: u8,
}

impl Lines {
    pub fn new(alloc: Global) -> Lines {
        Lines {
            alloc,
            inputs: Vec::new(alloc),
            actor: 128,
        }
    }

    /// What some clients say.
    pub fn of(alloc: Global, parts: &[Part]) -> Result<Lines, Fail> {
        let mut lines = Lines::new(alloc);
        for part in parts {
            lines.add(part)?;
        }
        Ok(lines)
    }

    pub fn inputs(&self) -> &[Input] {
        self.inputs.as_slice()
    }

    /// The lines of some clients alone.
    pub fn only(&mut self, members: &[u8]) {
        self.inputs
            .retain(|input| members.contains(&input.actor.number()));
    }

    pub fn add(&mut self, part: &Part) -> Result<(), Fail> {
        self.by(part.client);
        self.say_all(part.says)
    }

    /// The next lines are this client's.
    pub fn by(&mut self, actor: u8) {
        self.actor = actor;
    }

    pub fn say_all(&mut self, says: &[(u64, Say)]) -> Result<(), Fail> {
        for (moment, said) in says {
            self.say(*moment, *said)?;
        }
        Ok(())
    }

    pub fn say(&mut self, moment: u64, said: Say) -> Result<(), Fail> {
        match command_of(self.alloc, said) {
            Some(command) => self.give(moment, command),
            None => Err("a command".into()),
        }
    }

    /// Adds a command, which comes after all of its moment that the client has said before.
    pub fn give(&mut self, moment: u64, command: Command) -> Result<(), Fail> {
        let actor = ClientId::new(self.actor).ok_or("a client number")?;
        let input = Input {
            moment,
            actor,
            command,
        };
        let place = insertion_place(self.inputs.as_slice(), &input);
        self.inputs.insert(place, input)?;
        Ok(())
    }
}

/// The place among inputs, in their order, of one that is added.
fn insertion_place(inputs: &[Input], added: &Input) -> usize
    ensures { result ≤ length inputs.now }
{
    match inputs.last() {
        Some(last) if is_later(last, added) => {}
        _ => return inputs.len(),
    }
    for (place, input) in inputs.iter().enumerate() {
        if is_later(input, added) {
            return place;
        }
    }
    inputs.len()
}

/// Whether an input comes after another that is added later.
fn is_later(input: &Input, added: &Input) -> bool {
    input.moment > added.moment
        || (input.moment == added.moment && input.actor.number() > added.actor.number())
}

/// The command, where its numbers are in their ranges.
fn command_of(alloc: Global, said: Say) -> Option<Command> {
    match said {
        Open(name, in_size, out_size) => opened(alloc, name, in_size, out_size),
        Close => Some(Command::Close),
        Port(port, name, caps) => port_made(alloc, port, name, caps),
        DeletePort(port) => PortNo::new(port).map(|port| Command::DeletePort { port }),
        Filter(filter, rule) => filter_made(filter, rule),
        Rule(filter, rule) => FilterNo::new(filter).map(|filter| Command::SetFilter {
            filter,
            rule,
        }),
        Connect(source, target) => joined(source, target),
        Disconnect(source, target) => parted(source, target),
        Bytes(port, bytes) => bytes_fed(alloc, port, bytes),
        Send(port, bytes) => message_sent(alloc, port, bytes),
        Schedule(client, due_at, bytes) => scheduled(alloc, client, due_at, bytes),
        Receive(max) => Some(Command::Receive { max }),
        Pools => Some(Command::PoolStatus),
        _ => queue_command(said),
    }
}

/// The same of a command about a queue.
fn queue_command(said: Say) -> Option<Command> {
    match said {
        Queue(queue, ppq, tempo) => {
            QueueNo::new(queue).map(|queue| Command::CreateQueue { queue, ppq, tempo })
        }
        DeleteQueue(client, queue) => {
            queue_at(client, queue).map(|queue| Command::DeleteQueue { queue })
        }
        Start(client, queue) => queue_at(client, queue).map(|queue| Command::Start { queue }),
        Stop(client, queue) => queue_at(client, queue).map(|queue| Command::Stop { queue }),
        Tempo(client, queue, tempo) => {
            queue_at(client, queue).map(|queue| Command::Tempo { queue, tempo })
        }
        Status(client, queue) => {
            queue_at(client, queue).map(|queue| Command::QueueStatus { queue })
        }
        Share(client, queue) => queue_at(client, queue).map(|queue| Command::Share { queue }),
        _ => None,
    }
}

fn items(alloc: Global, bytes: &[u8]) -> Option<Items<u8>> {
    let bytes = Vec::from_slice(alloc, bytes).ok()?;
    Some(Items::new(bytes))
}

fn message(alloc: Global, bytes: &[u8]) -> Option<Message> {
    Message::from_bytes(alloc, bytes).ok()?
}

pub fn address(at: At) -> Option<Addr> {
    let (client, node) = match at {
        At::P(client, port) => (client, Node::Port(PortNo::new(port)?)),
        At::F(client, filter) => (client, Node::Filter(FilterNo::new(filter)?)),
    };
    Some(Addr {
        client: ClientId::new(client)?,
        node,
    })
}

pub fn queue_at(client: u8, queue: u8) -> Option<QueueAddr> {
    Some(QueueAddr {
        client: ClientId::new(client)?,
        queue: QueueNo::new(queue)?,
    })
}

fn opened(alloc: Global, name: &str, in_size: u32, out_size: u32) -> Option<Command> {
    let name = items(alloc, name.as_bytes())?;
    Some(Command::Open {
        name,
        in_size,
        out_size,
    })
}

fn port_made(alloc: Global, port: u8, name: &str, caps: u8) -> Option<Command> {
    let port = PortNo::new(port)?;
    let caps = Caps::new(caps)?;
    let name = items(alloc, name.as_bytes())?;
    Some(Command::CreatePort { port, name, caps })
}

/// A filter that others may join to and from.
fn filter_made(filter: u8, rule: RuleArgs) -> Option<Command> {
    let filter = FilterNo::new(filter)?;
    let caps = Caps::new(99)?;
    Some(Command::CreateFilter { filter, caps, rule })
}

fn joined(source: At, target: At) -> Option<Command> {
    let source = address(source)?;
    let target = address(target)?;
    Some(Command::Connect { source, target })
}

fn parted(source: At, target: At) -> Option<Command> {
    let source = address(source)?;
    let target = address(target)?;
    Some(Command::Disconnect { source, target })
}

fn bytes_fed(alloc: Global, port: u8, bytes: &[u8]) -> Option<Command> {
    let port = PortNo::new(port)?;
    let bytes = items(alloc, bytes)?;
    Some(Command::Bytes { port, bytes })
}

fn message_sent(alloc: Global, port: u8, bytes: &[u8]) -> Option<Command> {
    let port = PortNo::new(port)?;
    let message = message(alloc, bytes)?;
    Some(Command::Send { port, message })
}

fn scheduled(alloc: Global, client: u8, due_at: DueAt, bytes: &[u8]) -> Option<Command> {
    let queue = queue_at(client, 0)?;
    let port = PortNo::new(0)?;
    let message = message(alloc, bytes)?;
    Some(Command::Schedule {
        queue,
        port,
        due_at,
        message,
    })
}

//! What clients say.

ghost use Rattle.std.specs.Prelude.{◌≡◌, IfOk};

use memory::{Items, OutOfMemory};
use midi_wire::Message;
use node_table::{Addr, Caps, ClientId, FilterNo, PortNo, QueueAddr, QueueNo};
use route_filter::RuleArgs;
use std::alloc::Global;

/// One command of one client at one moment.
#[derive(Debug, Drop, PartialEq, Eq)]
pub struct Input {
    /// In nanoseconds from the beginning of the run.
    pub moment: u64,
    /// The client that says it.
    pub actor: ClientId,
    pub command: Command,
}

/// What a client may ask of the sequencer. Ports and filters without an address are the client's own.
#[derive(Debug, Drop, PartialEq, Eq)]
pub enum Command {
    /// Opens the client, with the sizes of its input and output pools, 1 to 2,000.
    Open {
        name: Items<u8>,
        in_size: u32,
        out_size: u32,
    },
    /// Closes the client: all that it has goes.
    Close,
    /// Makes a port, with a new stream.
    CreatePort {
        port: PortNo,
        name: Items<u8>,
        caps: Caps,
    },
    /// Drops a port, its subscriptions and what is still to be sent from it.
    DeletePort {
        port: PortNo,
    },
    /// Makes a filter.
    CreateFilter {
        filter: FilterNo,
        caps: Caps,
        rule: RuleArgs,
    },
    /// Gives a filter another rule.
    SetFilter {
        filter: FilterNo,
        rule: RuleArgs,
    },
    /// Drops a filter and its subscriptions.
    DeleteFilter {
        filter: FilterNo,
    },
    /// Subscribes the target to the source.
    Connect {
        source: Addr,
        target: Addr,
    },
    /// Ends the subscription.
    Disconnect {
        source: Addr,
        target: Addr,
    },
    /// Sends what these bytes complete of the port's MIDI stream.
    Bytes {
        port: PortNo,
        bytes: Items<u8>,
    },
    /// Sends one message, and leaves the port's stream as it is.
    Send {
        port: PortNo,
        message: Message,
    },
    /// Makes a queue that is held at 0: ticks per quarter note, 1 to 32,767, and microseconds per quarter note.
    CreateQueue {
        queue: QueueNo,
        ppq: u32,
        tempo: u32,
    },
    /// Makes a queue that is held at 0, with the division and the tempo map of a file.
    CreateQueueFrom {
        queue: QueueNo,
        /// The place of the file among those of the run, from 0.
        file: u32,
    },
    /// Drops a queue, and what is still to be sent by it.
    DeleteQueue {
        queue: QueueAddr,
    },
    /// Runs a queue from 0.
    Start {
        queue: QueueAddr,
    },
    /// Holds a queue.
    Stop {
        queue: QueueAddr,
    },
    /// Runs a queue on from where it was held.
    Continue {
        queue: QueueAddr,
    },
    /// Sets one tempo, in microseconds per quarter note, from a queue's present on.
    Tempo {
        queue: QueueAddr,
        tempo: u32,
    },
    /// Asks what a queue shows.
    QueueStatus {
        queue: QueueAddr,
    },
    /// Lets other clients schedule and play on a queue, and ask what it shows.
    Share {
        queue: QueueAddr,
    },
    /// Sends a message from a port when the queue comes to its time.
    Schedule {
        queue: QueueAddr,
        port: PortNo,
        due_at: DueAt,
        message: Message,
    },
    /// Sends all messages of a file from a port, each when the queue comes to its tick.
    Play {
        queue: QueueAddr,
        port: PortNo,
        /// The place of the file among those of the run, from 0.
        file: u32,
    },
    /// Drops all that the client has still to send.
    DropOutput,
    /// Takes the oldest of what waits in the client's input pool.
    Receive {
        /// How many at most, 1 to 2,000.
        max: u32,
    },
    /// Takes what comes at once, and lets it wait for nobody: of each moment as much as may wait in the client's input
    /// pool. What waits still waits.
    Listen,
    /// Lets what comes wait again.
    Unlisten,
    /// Asks how full the client's pools are.
    PoolStatus,
}

/// When a scheduled message is due, by its queue's clock.
#[derive(Clone, Copy, Debug, PartialEq, Eq)]
pub enum DueAt {
    /// At a tick.
    Tick(u64),
    /// So many ticks after the present one.
    TickAfter(u64),
    /// At a time in nanoseconds.
    Nanos(u64),
    /// So many nanoseconds after the present time.
    NanosAfter(u64),
}

impl Input {
    /// The same input once more. The data of an exclusive message is shared, not copied.
    pub fn duplicate(&self, alloc: Global) -> Result<Input, OutOfMemory>
        ensures { IfOk result (λ input. input ≡ self.now) }
    {
        let command = self.command.duplicate(alloc)?;
        Ok(Input {
            moment: self.moment,
            actor: self.actor,
            command,
        })
    }
}

impl Command {
    /// The same command once more. The data of an exclusive message is shared, not copied.
    pub fn duplicate(&self, alloc: Global) -> Result<Command, OutOfMemory>
        ensures { IfOk result (λ command. command ≡ self.now) }
    {
        Ok(match self {
            Command::Open {
                name,
                in_size,
                out_size,
            } => Command::Open {
                name: duplicate_of(alloc, name)?,
                in_size: *in_size,
                out_size: *out_size,
            },
            Command::Close => Command::Close,
            Command::CreatePort { port, name, caps } => Command::CreatePort {
                port: *port,
                name: duplicate_of(alloc, name)?,
                caps: *caps,
            },
            Command::DeletePort { port } => Command::DeletePort { port: *port },
            Command::CreateFilter { filter, caps, rule } => Command::CreateFilter {
                filter: *filter,
                caps: *caps,
                rule: *rule,
            },
            Command::SetFilter { filter, rule } => Command::SetFilter {
                filter: *filter,
                rule: *rule,
            },
            Command::DeleteFilter { filter } => Command::DeleteFilter { filter: *filter },
            Command::Connect { source, target } => Command::Connect {
                source: *source,
                target: *target,
            },
            Command::Disconnect { source, target } => Command::Disconnect {
                source: *source,
                target: *target,
            },
            Command::Bytes { port, bytes } => Command::Bytes {
                port: *port,
                bytes: duplicate_of(alloc, bytes)?,
            },
            Command::Send { port, message } => Command::Send {
                port: *port,
                message: message.duplicate()?,
            },
            Command::CreateQueue { queue, ppq, tempo } => Command::CreateQueue {
                queue: *queue,
                ppq: *ppq,
                tempo: *tempo,
            },
            Command::CreateQueueFrom { queue, file } => Command::CreateQueueFrom {
                queue: *queue,
                file: *file,
            },
            Command::DeleteQueue { queue } => Command::DeleteQueue { queue: *queue },
            Command::Start { queue } => Command::Start { queue: *queue },
            Command::Stop { queue } => Command::Stop { queue: *queue },
            Command::Continue { queue } => Command::Continue { queue: *queue },
            Command::Tempo { queue, tempo } => Command::Tempo {
                queue: *queue,
                tempo: *tempo,
            },
            Command::QueueStatus { queue } => Command::QueueStatus { queue: *queue },
            Command::Share { queue } => Command::Share { queue: *queue },
            Command::Schedule {
                queue,
                port,
                due_at,
                message,
            } => Command::Schedule {
                queue: *queue,
                port: *port,
                due_at: *due_at,
                message: message.duplicate()?,
            },
            Command::Play { queue, port, file } => Command::Play {
                queue: *queue,
                port: *port,
                file: *file,
            },
            Command::DropOutput => Command::DropOutput,
            Command::Receive { max } => Command::Receive { max: *max },
            Command::Listen => Command::Listen,
            Command::Unlisten => Command::Unlisten,
            Command::PoolStatus => Command::PoolStatus,
        })
    }
}

fn duplicate_of(alloc: Global, bytes: &Items<u8>) -> Result<Items<u8>, OutOfMemory>
    ensures { IfOk result (λ copy. copy ≡ bytes.now) }
{
    Ok(Items::new(Vec::from_slice(alloc, bytes.as_slice())?))
}

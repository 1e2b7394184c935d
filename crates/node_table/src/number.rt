//! Numbers of clients and nodes, and addresses.

ghost use Rattle.std.specs.Prelude.{◌≡◌, ◌≤◌, ◌<◌, ◌↔◌, ℕ, IsSome, IfSome, IfNone};
ghost use Rattle.node_table.specs.Addresses.{is_filter};
ghost use Rattle.node_table.specs.Numbers.{first_client, last_client, most_ports, most_filters, most_queues};

use std::fmt;
use std::marker::Model;

/// The least number of a client.
pub const FIRST_CLIENT: u8 = 128;

/// The greatest number of a client.
pub const LAST_CLIENT: u8 = 191;

/// How many ports a client may have.
pub const MOST_PORTS: u8 = 16;

/// How many filters a client may have.
pub const MOST_FILTERS: u8 = 16;

/// How many queues a client may have.
pub const MOST_QUEUES: u8 = 8;

/// The number of a client, 128 to 191.
#[derive(Clone, Copy, Debug, PartialEq, Eq, PartialOrd, Ord, Hash)]
pub struct ClientId(u8);

impl Model for ClientId {
    ghost use Rattle.std.specs.Prelude.{ℕ, ◌≤◌};
    ghost use Rattle.node_table.specs.Numbers.{first_client, last_client};

    ghost Value = { ℕ };

    ghost view = { λ c. c.0 };

    ghost invariant = { λ c. (first_client ≤ c.0) × (c.0 ≤ last_client) };

    ghost inverse = { λ n. record { 0 = n } };
}

impl ClientId {
    /// The client of this number, which is 128 to 191; `None` for another.
    pub fn new(number: u8) -> Option<ClientId>
        ensures valid { IsSome result ↔ ((first_client ≤ number) × (number ≤ last_client)) }
        ensures value { IfSome result (λ c. c ≡ number) }
    {
        if (FIRST_CLIENT..=LAST_CLIENT).contains(&number) {
            Some(ClientId(number))
        } else {
            None
        }
    }

    /// From 128 to 191.
    pub fn number(self) -> u8
        ensures value { result ≡ self }
        ensures low { first_client ≤ self }
        ensures high { self ≤ last_client }
    {
        let ClientId(number) = self;
        number
    }
}

impl fmt::Display for ClientId {
    ghost use Rattle.std.specs.Prelude.{Some};
    ghost use Rattle.std.specs.Fmt.{decimal};

    ghost output = { λ c. Some (decimal c) };

    fn fmt<W: fmt::Write>(&self, f: &mut fmt::Formatter<W>) -> fmt::Result {
        let number = self.0;
        write!(f, "{number}")
    }
}

/// The number of a port of a client, 0 to 15.
#[derive(Clone, Copy, Debug, PartialEq, Eq, PartialOrd, Ord, Hash)]
pub struct PortNo(u8);

impl Model for PortNo {
    ghost use Rattle.std.specs.Prelude.{ℕ, ◌<◌};
    ghost use Rattle.node_table.specs.Numbers.{most_ports};

    ghost Value = { ℕ };

    ghost view = { λ p. p.0 };

    ghost invariant = { λ p. p.0 < most_ports };

    ghost inverse = { λ n. record { 0 = n } };
}

impl PortNo {
    /// The port of this number, which is 0 to 15; `None` for another.
    pub fn new(number: u8) -> Option<PortNo>
        ensures valid { IsSome result ↔ (number < most_ports) }
        ensures value { IfSome result (λ p. p ≡ number) }
    {
        if number < MOST_PORTS {
            Some(PortNo(number))
        } else {
            None
        }
    }

    /// From 0 to 15.
    pub fn number(self) -> u8
        ensures value { result ≡ self }
        ensures small { self < most_ports }
    {
        let PortNo(number) = self;
        number
    }
}

impl fmt::Display for PortNo {
    ghost use Rattle.std.specs.Prelude.{Some};
    ghost use Rattle.std.specs.Fmt.{decimal};

    ghost output = { λ p. Some (decimal p) };

    fn fmt<W: fmt::Write>(&self, f: &mut fmt::Formatter<W>) -> fmt::Result {
        let number = self.0;
        write!(f, "{number}")
    }
}

/// The number of a filter of a client, 0 to 15.
#[derive(Clone, Copy, Debug, PartialEq, Eq, PartialOrd, Ord, Hash)]
pub struct FilterNo(u8);

impl Model for FilterNo {
    ghost use Rattle.std.specs.Prelude.{ℕ, ◌<◌};
    ghost use Rattle.node_table.specs.Numbers.{most_filters};

    ghost Value = { ℕ };

    ghost view = { λ f. f.0 };

    ghost invariant = { λ f. f.0 < most_filters };

    ghost inverse = { λ n. record { 0 = n } };
}

impl FilterNo {
    /// The filter of this number, which is 0 to 15; `None` for another.
    pub fn new(number: u8) -> Option<FilterNo>
        ensures valid { IsSome result ↔ (number < most_filters) }
        ensures value { IfSome result (λ f. f ≡ number) }
    {
        if number < MOST_FILTERS {
            Some(FilterNo(number))
        } else {
            None
        }
    }

    /// From 0 to 15.
    pub fn number(self) -> u8
        ensures value { result ≡ self }
        ensures small { self < most_filters }
    {
        let FilterNo(number) = self;
        number
    }
}

impl fmt::Display for FilterNo {
    ghost use Rattle.std.specs.Prelude.{Some};
    ghost use Rattle.std.specs.Fmt.{decimal};

    ghost output = { λ f. Some (decimal f) };

    fn fmt<W: fmt::Write>(&self, f: &mut fmt::Formatter<W>) -> fmt::Result {
        let number = self.0;
        write!(f, "{number}")
    }
}

/// The number of a queue, 0 to 7.
#[derive(Clone, Copy, Debug, PartialEq, Eq, PartialOrd, Ord, Hash)]
pub struct QueueNo(u8);

impl Model for QueueNo {
    ghost use Rattle.std.specs.Prelude.{ℕ, ◌<◌};
    ghost use Rattle.node_table.specs.Numbers.{most_queues};

    ghost Value = { ℕ };

    ghost view = { λ q. q.0 };

    ghost invariant = { λ q. q.0 < most_queues };

    ghost inverse = { λ n. record { 0 = n } };
}

impl QueueNo {
    /// The queue of this number, which is 0 to 7; `None` for another.
    pub fn new(number: u8) -> Option<QueueNo>
        ensures valid { IsSome result ↔ (number < most_queues) }
        ensures value { IfSome result (λ q. q ≡ number) }
    {
        if number < MOST_QUEUES {
            Some(QueueNo(number))
        } else {
            None
        }
    }

    /// From 0 to 7.
    pub fn number(self) -> u8
        ensures value { result ≡ self }
        ensures small { self < most_queues }
    {
        let QueueNo(number) = self;
        number
    }
}

impl fmt::Display for QueueNo {
    ghost use Rattle.std.specs.Prelude.{Some};
    ghost use Rattle.std.specs.Fmt.{decimal};

    ghost output = { λ q. Some (decimal q) };

    fn fmt<W: fmt::Write>(&self, f: &mut fmt::Formatter<W>) -> fmt::Result {
        let number = self.0;
        write!(f, "{number}")
    }
}

/// A node of a client.
#[derive(Clone, Copy, Debug, PartialEq, Eq, PartialOrd, Ord, Hash)]
pub enum Node {
    Port(PortNo),
    Filter(FilterNo),
}

impl Node {
    /// The number of a port, and nothing for a filter.
    pub fn port(self) -> Option<PortNo>
        ensures port { IfSome result (λ p. self ≡ Node.Port p) }
        ensures filter { IfNone result ((n : ℕ) × (self ≡ Node.Filter n)) }
    {
        match self {
            Node::Port(port) => Some(port),
            Node::Filter(_) => None,
        }
    }

    /// The number of a filter, and nothing for a port.
    pub fn filter(self) -> Option<FilterNo>
        ensures filter { IfSome result (λ f. self ≡ Node.Filter f) }
        ensures port { IfNone result ((n : ℕ) × (self ≡ Node.Port n)) }
    {
        match self {
            Node::Port(_) => None,
            Node::Filter(filter) => Some(filter),
        }
    }
}

impl fmt::Display for Node {
    ghost use Rattle.std.specs.Prelude.{Some};
    ghost use Rattle.node_table.specs.Text.{node_text};

    ghost output = { λ n. Some (node_text n) };

    fn fmt<W: fmt::Write>(&self, f: &mut fmt::Formatter<W>) -> fmt::Result {
        match self {
            Node::Port(port) => write!(f, "p{port}"),
            Node::Filter(filter) => write!(f, "f{filter}"),
        }
    }
}

/// The address of a node, printed as `128:p0` or `129:f3`.
#[derive(Clone, Copy, Debug, PartialEq, Eq, PartialOrd, Ord, Hash)]
pub struct Addr {
    pub client: ClientId,
    pub node: Node,
}

impl Addr {
    /// Whether it is the address of a filter, and not of a port.
    pub fn is_filter(&self) -> bool
        ensures { result ≡ is_filter self.now }
    {
        match self.node {
            Node::Port(_) => false,
            Node::Filter(_) => true,
        }
    }
}

impl fmt::Display for Addr {
    ghost use Rattle.std.specs.Prelude.{Some};
    ghost use Rattle.node_table.specs.Text.{addr_text};

    ghost output = { λ a. Some (addr_text a.client a.node) };

    fn fmt<W: fmt::Write>(&self, f: &mut fmt::Formatter<W>) -> fmt::Result {
        let client = self.client;
        let node = self.node;
        write!(f, "{client}:{node}")
    }
}

/// The address of a port, printed as `128:p0`.
#[derive(Clone, Copy, Debug, PartialEq, Eq, PartialOrd, Ord, Hash)]
pub struct PortAddr {
    pub client: ClientId,
    pub port: PortNo,
}

impl From<PortAddr> for Addr {
    ghost use Rattle.std.specs.Prelude.{◌≡◌};
    ghost use Rattle.node_table.specs.declared.number.Node.TheVariants.{Port};

    ghost from_gives = { λ a b. b ≡ record { client = a.client; node = Port a.port } };

    fn from(addr: PortAddr) -> Addr {
        Addr {
            client: addr.client,
            node: Node::Port(addr.port),
        }
    }
}

impl fmt::Display for PortAddr {
    ghost use Rattle.std.specs.Prelude.{Some};
    ghost use Rattle.node_table.specs.Text.{addr_text};
    ghost use Rattle.node_table.specs.declared.number.Node.TheVariants.{Port};

    ghost output = { λ a. Some (addr_text a.client (Port a.port)) };

    fn fmt<W: fmt::Write>(&self, f: &mut fmt::Formatter<W>) -> fmt::Result {
        let client = self.client;
        let port = self.port;
        write!(f, "{client}:p{port}")
    }
}

/// The address of a queue, printed as `128:q0`.
#[derive(Clone, Copy, Debug, PartialEq, Eq, PartialOrd, Ord, Hash)]
pub struct QueueAddr {
    pub client: ClientId,
    pub queue: QueueNo,
}

impl fmt::Display for QueueAddr {
    ghost use Rattle.std.specs.Prelude.{Some};
    ghost use Rattle.node_table.specs.Text.{queue_text};

    ghost output = { λ a. Some (queue_text a.client a.queue) };

    fn fmt<W: fmt::Write>(&self, f: &mut fmt::Formatter<W>) -> fmt::Result {
        let client = self.client;
        let queue = self.queue;
        write!(f, "{client}:q{queue}")
    }
}

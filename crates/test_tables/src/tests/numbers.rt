//! Clients, ports and filters by their numbers.

use node_table::{Addr, ClientId, FilterNo, Node, PortAddr, PortNo};
use std::process::Abort;

/// A port or a filter, by the numbers of its client and its own.
#[derive(Clone, Copy)]
pub(super) enum At {
    P(u8, u8),
    F(u8, u8),
}

pub(super) fn client(rt: &impl Abort, number: u8) -> ClientId {
    ClientId::new(number).expect(rt, "a client's number")
}

pub(super) fn port(rt: &impl Abort, of: u8, number: u8) -> Addr {
    Addr::from(PortAddr {
        client: client(rt, of),
        port: PortNo::new(number).expect(rt, "a port's number"),
    })
}

pub(super) fn filter(rt: &impl Abort, of: u8, number: u8) -> Addr {
    Addr {
        client: client(rt, of),
        node: Node::Filter(FilterNo::new(number).expect(rt, "a filter's number")),
    }
}

pub(super) fn addr(rt: &impl Abort, at: At) -> Addr {
    match at {
        At::P(of, number) => port(rt, of, number),
        At::F(of, number) => filter(rt, of, number),
    }
}

//! What stands at an address.

ghost use Rattle.std.specs.Prelude.{◌≡◌};
ghost use Rattle.std.specs.Borrow.{sem};

use crate::caps::Caps;
use std::marker::Model;

/// A node of a client, with a body of the caller's.
#[derive(Drop)]
pub struct NodeInfo<P> {
    name: Vec<u8>,
    caps: Caps,
    body: P,
}

impl<P> Model for NodeInfo<P> {
    ghost use Rattle.node_table.specs.Nodes.{NodeSeen, coded_node_seen};

    ghost Value = { NodeSeen P };

    ghost coded = { coded_node_seen P.code };

    ghost view = { λ n. record { name = n.name.items; caps = n.caps; body = n.body } };
}

impl<P> NodeInfo<P> {
    ghost use Rattle.node_table.specs.Lends.{LendsBody};

    pub(crate) fn new(name: Vec<u8>, caps: Caps, body: P) -> NodeInfo<P>
        ensures { result ≡ record { name = name.items; caps = caps; body = body } }
    {
        NodeInfo { name, caps, body }
    }

    /// The name of a port, and nothing for a filter.
    pub fn name(&self) -> &[u8]
        ensures { result.now ≡ self.now.name }
    {
        self.name.as_slice()
    }

    /// What other clients may do with the node.
    pub fn caps(&self) -> Caps
        ensures { result ≡ self.now.caps }
    {
        self.caps
    }

    /// What the table keeps for its user beside the node.
    pub fn body(&self) -> &P
        ensures { result.now ≡ self.now.body }
    {
        &self.body
    }

    pub(crate) fn body_mut(&mut self) -> &mut P
        ensures* writes_back { sem 𝓛 (LendsBody P.row self.entry result) }
        ensures value { result.now ≡ self.old.body }
    {
        &mut self.body
    }

    pub(crate) fn into_body(self) -> P
        ensures { result ≡ self.body }
    {
        let NodeInfo { body, .. } = self;
        body
    }
}

//! What settling asks of the clients.

ghost use Rattle.std.specs.Prelude.{◌≡◌, List, ◌++◌, OnOk};
ghost use Rattle.std.specs.Ordering.{nat_cmp};
ghost use Rattle.std.specs.FinMap as map;
ghost use Rattle.patch_graph.specs.declared.edge.Edge.{Edge};
ghost use Rattle.seq_state.specs.State.{Client, ClientPool};
ghost use Rattle.seq_state.specs.Step.{pools_after, copies_with_room};
ghost use Rattle.seq_settle.specs.Moments.{moment_at};
ghost use Rattle.seq_settle.specs.Sends.{copies_of};

use memory::OutOfMemory;
use midi_wire::Message;
use node_table::{ClientId, PortNo, QueueAddr};
use seq_state::Delivery;
use tempo_clock::Due;

/// The open clients with their input pools, and the subscriptions: whoever has them tells moments and sends messages.
pub trait Desk {
    ghost clients: { Self → map.FinMap nat_cmp Client };

    ghost pools: { Self → map.FinMap nat_cmp ClientPool };

    ghost edges: { Self → List Edge };

    /// The moment, in nanoseconds, at which something is due by a queue, if the queue comes to it as it runs now.
    fn moment_of(&self, queue: &QueueAddr, accepted: u64, due: Due) -> Option<u64>
        ensures { result ≡ moment_at (clients self.now) queue.now accepted due };

    /// Sends a message from a port: a copy along each path, to the input pools that have room. Running out of memory
    /// may leave some copies sent.
    fn send(
        &mut self,
        moment: u64,
        client: ClientId,
        port: PortNo,
        message: Message,
        out: &mut Vec<Delivery>,
    ) -> Result<(), OutOfMemory>
        ensures clients { OnOk result (clients self.new ≡ clients self.old) }
        ensures edges { OnOk result (edges self.new ≡ edges self.old) }
        ensures pools { OnOk result (pools self.new
            ≡ pools_after (pools self.old)
            (copies_of (clients self.old) (edges self.old) moment client port message)) }
        ensures sent { OnOk result (out.new.items ≡ out.old.items
            ++ copies_with_room (pools self.old)
            (copies_of (clients self.old) (edges self.old) moment client port message)) };
}

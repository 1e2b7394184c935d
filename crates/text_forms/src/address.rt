//! Addresses of ports.

ghost use Rattle.std.specs.Prelude.{◌≡◌, ◌≤◌, ◌<◌, ◌+◌, ◌++◌, length, vec_len, vec_capacity, OnOk, OnErr};
ghost use Rattle.node_table.specs.Text.{addr_text};
ghost use Rattle.node_table.specs.declared.number.Node.TheVariants.{Port};

use crate::decimal::push_decimal;
use memory::OutOfMemory;
use node_table::PortAddr;

/// Adds the address of a port, as `129:p0`. After an error the text ends within it.
pub fn push_port_addr(text: &mut Vec<u8>, addr: &PortAddr) -> Result<(), OutOfMemory>
    ensures ok { OnOk result (text.new.items
        ≡ text.old.items ++ addr_text addr.now.client (Port addr.now.port)) }
    ensures full { OnErr result (vec_capacity text.old
        < vec_len text.old + length (addr_text addr.now.client (Port addr.now.port))) }
    ensures capacity { vec_capacity text.old ≤ vec_capacity text.new }
{
    push_decimal(text, addr.client.number() as u64)?;
    text.extend_from_slice(b":p")?;
    push_decimal(text, addr.port.number() as u64)?;
    Ok(())
}

//! What the definitions say of a few messages.

ghost use Rattle.port_files.specs.Rows.{WorkedPorts};

/// Each message stands in the track of its port at the last tick that has come, by the tempo there; what came to
/// another port, and a message that has no place in a file, are left out.
pub fn worked_ports()
    ensures { WorkedPorts }
{}

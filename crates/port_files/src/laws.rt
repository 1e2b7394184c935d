//! What holds of all files of what came to ports. This function does nothing: its contract is the law.

ghost use Rattle.port_files.specs.Laws.{KeepsEvents, KeepsTicks, KeepsTempos};

/// A file keeps its grid: a port's track says just what came to the port, each message at its tick; what comes just
/// when a tick comes stands at this tick; and the tempos of the file are those of the map.
pub fn grid_is_kept()
    ensures events { KeepsEvents }
    ensures ticks { KeepsTicks }
    ensures tempos { KeepsTempos }
{}

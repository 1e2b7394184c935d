//! What the definition means. The functions do nothing: their contracts are the laws.

ghost use Rattle.sounding_notes.specs.Laws.{SoundsFromAStart};

/// A note sounds exactly where a message to its port starts it, and none that comes to the port after it ends it.
pub fn sounds_from_a_start()
    ensures { SoundsFromAStart }
{}

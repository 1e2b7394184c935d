//! What a node allows.

ghost use Rattle.std.specs.Prelude.{◌≡◌, ◌↔◌, IsSome, IfSome};
ghost use Rattle.std.specs.Int.RustNames.{bit_and};
ghost use Rattle.node_table.specs.Capabilities.{known_bits, permits};

use crate::number::{Addr, ClientId};
use bitflags::{Flag, Flags, bitflag_items};

/// The capabilities of a node, as in the ALSA sequencer interface. `Caps::new` makes them from a number.
#[derive(Clone, Copy, Debug, PartialEq, Eq)]
pub struct Caps(u8);

bitflag_items! {
    impl Caps: u8 {
        const READ = 1;
        const WRITE = 2;
        const DUPLEX = 16;
        const SUBS_READ = 32;
        const SUBS_WRITE = 64;
        const NO_EXPORT = 128;
    }
}

impl Flags for Caps {
    ghost use Rattle.std.specs.Prelude.{⊤, codes, [], ◌∷◌};

    type Bits = u8;

    ghost exact = { ⊤ };

    ghost table = { (codes "READ", 1) ∷ (codes "WRITE", 2) ∷ (codes "DUPLEX", 16)
        ∷ (codes "SUBS_READ", 32) ∷ (codes "SUBS_WRITE", 64) ∷ (codes "NO_EXPORT", 128) ∷ [] };

    ghost set_of = { λ c. c.0 };

    fn flags<'a>() -> &'a [Flag<Caps>] {
        Caps::FLAGS
    }

    fn bits(&self) -> u8 {
        self.0
    }

    fn from_bits_retain(bits: u8) -> Caps {
        Caps(bits)
    }
}

impl Caps {
    /// The capabilities with these bits, where each is known: a sum of READ 1, WRITE 2, DUPLEX 16, SUBS_READ 32,
    /// SUBS_WRITE 64 and NO_EXPORT 128.
    pub fn new(bits: u8) -> Option<Caps>
        ensures known { IsSome result ↔ (bit_and bits known_bits ≡ bits) }
        ensures value { IfSome result (λ c. c.0 ≡ bits) }
    {
        Caps::from_bits(bits)
    }
}

/// Whether an actor may join or part two nodes.
///
/// READ at the source and WRITE at the target are needed always, SUBS_READ and SUBS_WRITE at a node of another client.
/// Where both nodes are others', neither may have NO_EXPORT.
pub fn permitted(actor: ClientId, source: &Addr, read: Caps, target: &Addr, write: Caps) -> bool
    ensures { result ≡ permits actor source.now read.0 target.now write.0 }
{
    let owns_source = actor == source.client;
    let owns_target = actor == target.client;
    read.contains(Caps::READ)
        && (owns_source || read.contains(Caps::SUBS_READ))
        && write.contains(Caps::WRITE)
        && (owns_target || write.contains(Caps::SUBS_WRITE))
        && (owns_source
            || owns_target
            || !(read.contains(Caps::NO_EXPORT) || write.contains(Caps::NO_EXPORT)))
}

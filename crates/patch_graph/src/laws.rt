//! Laws about the definitions.

ghost use Rattle.patch_graph.specs.Chains.{JoinedLaw};

/// What the recursion `joined` of the definitions tests is that a chain of filters leads there.
pub fn joined_is_reached()
    ensures { JoinedLaw }
{}

//! What holds of every rule and every message. These functions do nothing: their contracts are the laws.

ghost use Rattle.route_filter.specs.Laws.{PassesMessages, OpenRulePassesAll, KeepsKind, HasKind, GivesChannel, SystemMessagesStay, ChannelsAreBits, KindsAreApart};
ghost use Rattle.route_filter.specs.Worked.{OctaveUp, ToChannelNine, LeavesNotes};

/// What passes is a message.
pub fn passes_messages()
    ensures { PassesMessages }
{}

/// A rule with all channels, all kinds, all notes, no shift and no channel passes every message unchanged.
pub fn open_rule_passes_all()
    ensures { OpenRulePassesAll }
{}

/// What passes has the kind that it had, which is in the set of the rule.
pub fn keeps_kind()
    ensures kept { KeepsKind }
    ensures known { HasKind }
{}

/// What passes is on the rule's channel, or on its own where the rule has none. A system message, which has no channel,
/// passes unchanged.
pub fn gives_channel()
    ensures channel { GivesChannel }
    ensures system { SystemMessagesStay }
{}

/// A mask of channels is a set of numbers, and each kind has a bit of its own.
pub fn masks_are_sets()
    ensures channels { ChannelsAreBits }
    ensures kinds { KindsAreApart }
{}

/// What the definitions say of a few rules and messages.
pub fn worked_rules()
    ensures octave_up { OctaveUp }
    ensures to_channel_nine { ToChannelNine }
    ensures leaves_notes { LeavesNotes }
{}

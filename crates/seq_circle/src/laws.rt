//! What holds of shut circles, for all lists of inputs. These functions do nothing: their contracts are the laws.

ghost use Rattle.seq_circle.specs.Laws.{ShutLaw, StrangersLaw, ShutMeetLaw, OpenLaw, LineMoreLaw, MendLaw};

/// A shut circle is closed, whatever strangers say.
pub fn shut_is_closed()
    ensures { ShutLaw }
{}

/// Nothing that strangers say changes what the owner of a shut circle sees.
pub fn no_stranger_matters()
    ensures { StrangersLaw }
{}

/// Two circles that are shut round their owner meet in one: so there is a least.
pub fn shut_circles_meet()
    ensures { ShutMeetLaw }
{}

/// Where a member makes a node inside that anyone may join, any stranger can.
pub fn open_can_be_joined()
    ensures { OpenLaw }
{}

/// A line more leaves a shut circle shut where a stranger says it, or where it asks for nobody new and makes nothing
/// inside that anyone may join; and else the circle is shut no longer.
pub fn line_more_keeps_shut()
    ensures { LineMoreLaw }
{}

/// A circle in which all are whom its members ask for is shut, once each making that anyone could join is without
/// SUBS_WRITE.
pub fn mended_is_shut()
    ensures { MendLaw }
{}

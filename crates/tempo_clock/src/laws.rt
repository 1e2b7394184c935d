//! What holds of tempo maps and clocks, for all numbers. These functions do nothing: their contracts are the laws.

ghost use Rattle.tempo_clock.specs.Laws.{NanosAreLeast, NanosRise, TicksAreLast, TicksAreFirst, TicksAllBefore, TicksComeBack, TicksComeBackExactly, MomentsAreFirst, MomentsAreAll, MomentsAreLater, MomentsRise, TempoKeepsTicks, TempoIsNotBefore, TempoChangesNothing, TempoKeepsMoments, ClocksBegin, ClocksGoOn};
ghost use Rattle.tempo_clock.specs.Worked.{TickTimes, TickAfterChange, FrameTimes};

/// A tick comes at the least whole nanosecond that is not before its exact time, and ticks come in order.
pub fn ticks_come_in_order()
    ensures least { NanosAreLeast }
    ensures rise { NanosRise }
{}

/// The tick at a time is the last that has come, and the first tick from a time the first that comes no earlier.
pub fn ticks_are_found()
    ensures last { TicksAreLast }
    ensures first { TicksAreFirst }
    ensures none { TicksAllBefore }
{}

/// The tick at the time of a tick is no earlier one, and that tick where it lasts a nanosecond or more.
pub fn ticks_come_back()
    ensures at_least { TicksComeBack }
    ensures exactly { TicksComeBackExactly }
{}

/// The moment of an event is the first at which it is due, and there is none only where it is never due.
pub fn moments_are_found()
    ensures first { MomentsAreFirst }
    ensures all { MomentsAreAll }
{}

/// The moment of an event is not before its acceptance nor the clock's last start, and not before that of an event
/// which is due no later and was accepted no later.
pub fn moments_rise()
    ensures later { MomentsAreLater }
    ensures rise { MomentsRise }
{}

/// A change of tempo leaves what was before it: the time of each tick up to it, and each moment before it. It brings
/// nothing before it, and changes nothing where it finds no tick.
pub fn tempo_changes_what_is_to_come()
    ensures ticks { TempoKeepsTicks }
    ensures not_before { TempoIsNotBefore }
    ensures nothing { TempoChangesNothing }
    ensures moments { TempoKeepsMoments }
{}

/// A clock never shows more than the moment, and moments that do not fall meet the premises of all that it does.
pub fn clocks_follow_moments()
    ensures begin { ClocksBegin }
    ensures go_on { ClocksGoOn }
{}

/// What the definitions say of a few ticks.
pub fn worked_ticks()
    ensures quarters { TickTimes }
    ensures change { TickAfterChange }
    ensures frames { FrameTimes }
{}

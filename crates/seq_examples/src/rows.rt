//! Runs worked out step by step from the definitions. These functions do nothing: their contracts are the runs and
//! their logs.

ghost use Rattle.seq_examples.specs.Conditions.{EachCondition};
ghost use Rattle.seq_examples.specs.Examples.{EachRefusal, LostStays};
ghost use Rattle.seq_examples.specs.Steps.{EachStep};
ghost use Rattle.seq_examples.specs.Rows.{Circles, SendInside, RunningStatusKept, OpenedAgain, NoisyStranger, EqualMoments, CopiesByEdgeAge, InputOverflow, OutputFull, ThirdClients, DeletedPort, SharedQueue, PlaysFile, DroppedOutput, ChangedFilter, QueueClock, ClosedClient, CountedFrames, RestartedQueue, EqualTicks, Listened};

/// Two clients each schedule a note for 100, the one with the greater number first. At equal moments the events come in
/// the order of their commands, and with their own moment, not by client number nor with the moment of the settling
/// step.
pub fn equal_moments()
    ensures { EqualMoments }
{}

/// Two filters lead from one port to one port. The copies come by the age of the first edge of each path, not by that
/// of the last; a note that a filter would raise past 127 is dropped, not clamped.
pub fn copies_by_edge_age()
    ensures { CopiesByEdgeAge }
{}

/// A pool of two takes two of three notes and counts one as lost. What waits is never overwritten, and the other client
/// gets all three: a full pool stops no other copy.
pub fn input_overflow()
    ensures { InputOverflow }
{}

/// A client with an output pool of one has one event pending, and is refused a second. The settling of the next input
/// sends the first and makes room before the command is judged.
pub fn output_full()
    ensures { OutputFull }
{}

/// Who owns neither node is refused where a node has NO_EXPORT, who owns the target alone still needs SUBS_READ at the
/// source, and a refused Disconnect leaves the subscription.
pub fn third_clients()
    ensures { ThirdClients }
{}

/// What is pending from a port goes with it, and no longer counts as used. Another client's event is sent.
pub fn deleted_port()
    ensures { DeletedPort }
{}

/// Another client schedules on a shared queue, but may not start it. When the owner deletes the queue, the others'
/// events on it go too, and their pools have room again; a queue of another's that isn't there is not theirs.
pub fn shared_queue()
    ensures { SharedQueue }
{}

/// A file is played on a queue that is made from it and starts later. Its first event comes at the start; at equal
/// moments the file's event comes before the one that was scheduled after the Play. Nothing is sent while the queue is
/// held.
pub fn played_file()
    ensures { PlaysFile }
{}

/// A client with room for two has an event and a file pending, and is refused a third, though the file's first event
/// has gone already. DropOutput takes both; the queue is then deleted, and is missing for its own owner.
pub fn dropped_output()
    ensures { DroppedOutput }
{}

/// A filter's rule is replaced while its subscriptions stay: one note falls below 0 and is dropped, the other becomes
/// the lowest. When the filter goes, its subscriptions go, and what is sent reaches nobody.
pub fn changed_filter()
    ensures { ChangedFilter }
{}

/// A queue is started, held, run on and changed in tempo. Each event has the moment that the clock gives it in the end,
/// not the one that it had when it was accepted; one that is due past all moments stays pending.
pub fn queue_clock()
    ensures { QueueClock }
{}

/// A client closes: its subscriptions, its queue and what others had pending on that queue go. Opened again, it has
/// empty pools and none of its ports.
pub fn closed_client()
    ensures { ClosedClient }
{}

/// A file counts frames. Its ticks come at the frames' pace, a tempo is refused on a queue that is made from it, and it
/// cannot be played on a queue of quarter notes.
pub fn counted_frames()
    ensures { CountedFrames }
{}

/// A queue that was held is started again: it runs from 0, not from where it was held. Ticks after the present are
/// counted from the last tick that has come.
pub fn restarted_queue()
    ensures { RestartedQueue }
{}

/// Ticks that are shorter than a nanosecond: two of one queue come at the same one. The event whose command came first
/// is sent first, though its tick is the later one.
pub fn equal_ticks()
    ensures { EqualTicks }
{}

/// Circles of those runs that are closed, and some that are not.
pub fn circles_of_runs()
    ensures { Circles }
{}

/// For each refusal a command that gets it for its answer; of several that apply, the one with the lowest number.
pub fn each_refusal()
    ensures { EachRefusal }
{}

/// A full pool whose count of lost messages has come to its greatest value stays as it is.
pub fn lost_count_stays()
    ensures { LostStays }
{}

/// For each command and each refusal of its row a case in which that is the answer.
pub fn each_condition()
    ensures { EachCondition }
{}

/// Single commands in a state that is given: filters in the order of a path, arrivals at another port than the first,
/// what may be done to another's shared queue, whose events count and go, a queue shared twice, who may join a target
/// with NO_EXPORT, the last source that a node may have, and the least and the greatest of each range.
pub fn each_step()
    ensures { EachStep }
{}

/// A stranger says all that it may beside two that mind their business: their circle is closed, and what its owner sees
/// is spelled out. A circle that one from outside has joined is not closed.
pub fn noisy_stranger()
    ensures { NoisyStranger }
{}

/// A message is sent between two halves of another: it goes out at once, and the other is completed as if nothing had
/// come between. The bytes at the port that hears both are those of the two messages in the order in which they came.
pub fn send_inside_message()
    ensures { SendInside }
{}

/// Two notes come to a port with the same status: the bytes at the port have it once, whatever the log has between.
pub fn running_status()
    ensures { RunningStatusKept }
{}

/// A client that closes and opens again finds nothing waiting, nothing lost, and no subscription.
pub fn opened_again()
    ensures { OpenedAgain }
{}

/// A client listens while a message waits for it: of one moment it hears as much as might wait in its pool, and what
/// waited waits still.
pub fn listened()
    ensures { Listened }
{}

//! What holds of the step and of circles, for all lists of inputs. These functions do nothing: their contracts are the
//! laws.

ghost use Rattle.seq_state.specs.Changes.{LowestLaw, OthersLaw, EdgesLaw, PendingLaw, ReceiveLaw, ListenLaw, HeardLaw, ShareLaw, NotYoursLaw};
ghost use Rattle.seq_state.specs.Circle.{IsolationLaw};
ghost use Rattle.seq_state.specs.Heard.{PortBytesLaw};
ghost use Rattle.seq_state.specs.Laws.{OneInputLaw, PathLaw, SettlingLaw, DueLaw, SortLaw, MeetLaw, RefusedLaw, AgreeLaw, RisingLaw, ReadyLaw, BoundsLaw, CycleLaw, EndsLaw, FilledLaw, SourcesLaw, AllClosedLaw};

/// What the owner of a closed circle sees of a run is what it sees of the plain run of the circle's inputs alone.
pub fn circle_alone()
    ensures { IsolationLaw }
{}

/// What comes to a port of the owner of a closed circle is, byte for byte, what comes to it in the plain run of the
/// circle's inputs alone.
pub fn circle_heard_alone()
    ensures { PortBytesLaw }
{}

/// Where two lists of inputs agree in a closed circle, its owner sees the same, and the same bytes come to its ports.
pub fn lists_that_agree()
    ensures { AgreeLaw }
{}

/// Two states that are alike within a circle stay so, input by input, and the owner sees the same of both.
pub fn one_input()
    ensures { OneInputLaw }
{}

/// In a closed circle each path that ends at a port of the owner has all its nodes in the circle.
pub fn paths_within()
    ensures { PathLaw }
{}

/// Two circles closed round their owner meet in a circle closed round it: so there is a least.
pub fn circles_meet()
    ensures { MeetLaw }
{}

/// To settle up to a moment and then up to a later one is to settle up to the later one.
pub fn settling_in_two()
    ensures { SettlingLaw }
{}

/// What is due is sorted by moment, and within a moment by command and by place in the file: it is the stable sort of
/// all events that have a moment, as far as it is due.
pub fn due_in_order()
    ensures moments { DueLaw }
    ensures sort { SortLaw }
{}

/// A refused command leaves what settling left.
pub fn refused_changes_nothing()
    ensures { RefusedLaw }
{}

/// In the log of a well-timed list the moments of the deliveries never fall.
pub fn moments_never_fall()
    ensures { RisingLaw }
{}

/// In each state of a well-timed run every queue has ticks and shows no more than the moment, and nothing pending is
/// late: what the calls of a queue's clock ask of their caller.
pub fn queues_keep_up()
    ensures { ReadyLaw }
{}

/// In each state of a run each client has an input pool of its size, with no more than it has room for, no client has
/// more to send than its output pool, and no node has more sources than a node may have.
pub fn bounds_hold()
    ensures { BoundsLaw }
{}

/// In each state of a run no chain of filters comes back to its beginning, whichever way it goes.
pub fn filters_make_no_cycle()
    ensures { CycleLaw }
{}

/// In each state of a run both ends of every subscription are there.
pub fn ends_are_there()
    ensures { EndsLaw }
{}

/// In each state of a run every playback has an event to send.
pub fn playbacks_have_events()
    ensures { FilledLaw }
{}

/// The refusals of each command are tested in the order of their numbers: the one that is reported is the lowest whose
/// condition holds.
pub fn lowest_is_told()
    ensures { LowestLaw }
{}

/// A command leaves what it does not name: other clients, and the actor's other ports, filters and queues.
pub fn others_stay()
    ensures { OthersLaw }
{}

/// The subscriptions that each command takes and makes, by its name.
pub fn edges_that_go()
    ensures { EdgesLaw }
{}

/// The playbacks that each command drops and adds, by its name.
pub fn playbacks_that_go()
    ensures { PendingLaw }
{}

/// What was waiting is what a Receive gives, and then what waits still; none is lost by it.
pub fn receive_takes_the_oldest()
    ensures { ReceiveLaw }
{}

/// After a Listen the client listens, and after an Unlisten no longer; else its input pool stays as it was.
pub fn listen_keeps_what_waits()
    ensures { ListenLaw }
{}

/// To a client that listens all copies come, where no more come at one moment than might wait for it.
pub fn listeners_lose_nothing()
    ensures { HeardLaw }
{}

/// After a Share that is not refused the queue is shared, whatever it was before.
pub fn share_opens_the_queue()
    ensures { ShareLaw }
{}

/// A queue that is not shared is refused to all but its owner, whether it runs or not.
pub fn private_queues_are_refused()
    ensures { NotYoursLaw }
{}

/// In a closed circle the subscriptions to the owner's ports and the members' filters come from members.
pub fn sources_within()
    ensures { SourcesLaw }
{}

/// The circle of all clients is closed: so there is a closed circle round each owner.
pub fn all_are_closed()
    ensures { AllClosedLaw }
{}

//! A host that has come to its input, and what is known of it there.

ghost use Rattle.sl_step_law.specs.CallsStand.{CallsAreStanding};
ghost use Rattle.sl_step_law.specs.Moments.{MomentsAreKnown};
ghost use Rattle.sl_step_law.specs.KnownLeases.{LeasesAreKnown};
ghost use Rattle.sl_step_law.specs.LeaseAnswers.{LeaseAnswersAreKnown};
ghost use Rattle.sl_step_law.specs.KnownHosts.{DecisionsAreKnown, HostsAreKnown};
ghost use Rattle.sl_step_law.specs.Answers.{AnswersAreKnown};
ghost use Rattle.sl_step_law.specs.SectorsAsked.{CallsAsk};
ghost use Rattle.sl_step_law.specs.AnswersAwaited.{AnswersAreAwaited};
ghost use Rattle.sl_step_law.specs.DueFollows.{DueFollows, InputsCome};
ghost use Rattle.sl_step_law.specs.Holdings.{HoldingsAreKnown};
ghost use Rattle.sl_step_law.specs.LastValues.{LastValuesAreEnough, LinesMayPlainly, StepsAreTakenPlainly};
ghost use Rattle.sl_step_law.specs.Lines.{LinesMay};
ghost use Rattle.sl_step_law.specs.Members.{JoiningsClaim, MembersAreKnown, StepsAreKept};
ghost use Rattle.sl_step_law.specs.KnownPlaces.{PlacesAreKnown};
ghost use Rattle.sl_step_law.specs.ReadyHosts.{HostsAreReady};
ghost use Rattle.sl_step_law.specs.SoundEffects.{EffectsAreSound};
ghost use Rattle.sl_step_law.specs.StepsAreTaken.{HostsBegin, StepsAreTaken};

/// A host that stands for the steps so far is ready at an input that follows them.
pub fn hosts_are_ready()
    ensures { HostsAreReady }
{}

/// Its open calls are their members' own; what may come is the answer of one of them, and fits it.
pub fn answers_are_known()
    ensures { AnswersAreKnown }
{}

/// The member of an open call waits for it; and where it is work on a lease, the lease on its area does.
pub fn answers_are_awaited()
    ensures { AnswersAreAwaited }
{}

/// Each open call reads as many sectors as its purpose says.
pub fn calls_ask()
    ensures { CallsAsk }
{}

/// A member's number is below the next session's; who has joined has a generation, and can write its next record.
pub fn members_are_known()
    ensures { MembersAreKnown }
{}

/// What every act keeps is kept through each part of a step.
pub fn steps_are_kept()
    ensures { StepsAreKept }
{}

/// Who holds a resource has a lease on its area, and holds it once.
pub fn holdings_are_known()
    ensures { HoldingsAreKnown }
{}

/// What a line comes to may be done, where of the values that it follows the last is enough.
pub fn lines_may()
    ensures { LinesMay }
{}

/// An input that may come is taken: by the effects that are due, and the host stands for the longer trace.
pub fn steps_are_taken()
    ensures { StepsAreTaken }
{}

/// What is due at an input that may come follows the steps before it.
pub fn due_follows()
    ensures { DueFollows }
{}

/// Calls and children of a step are numbered on; a call reads some sectors, or writes a record.
pub fn effects_are_sound()
    ensures { EffectsAreSound }
{}

/// A new host stands for no step, and is sound.
pub fn hosts_begin()
    ensures { HostsBegin }
{}

/// While the first renewal of a joining is unanswered its session has a generation.
pub fn joinings_claim()
    ensures { JoiningsClaim }
{}

/// So an input that may come, by its reading and by what it answers, comes to a host that stands.
pub fn inputs_come()
    ensures { InputsCome }
{}

/// Members and holdings stand at bases, under ids of the layout; an exclusive holding is of an instance.
pub fn places_are_known()
    ensures { PlacesAreKnown }
{}

/// Calls stand at whole sectors, those of leases in areas at bases; before a settling looks its session wrote a block there.
pub fn calls_are_standing()
    ensures { CallsAreStanding }
{}

/// At each moment of a step at which a part of it begins the host stands for the step so far, is sound, and all that each act keeps is known.
pub fn moments_are_known()
    ensures { MomentsAreKnown }
{}

/// Leases stand at bases; who has written a block has verified the name; who holds has written a block of an instance.
pub fn leases_are_known()
    ensures { LeasesAreKnown }
{}

/// What an answer to the call of a lease finds: its lease, named and with the blocks that it shows; and the job that waits is the call's own.
pub fn lease_answers_are_known()
    ensures { LeaseAnswersAreKnown }
{}

/// A host's clock is below the end of time, its commands were read, its jobs have numbers of their own.
pub fn hosts_are_known()
    ensures { HostsAreKnown }
{}

/// What the decision on a line rests on: who gives up, converts, sets or asks for a value may do so there.
pub fn decisions_are_known()
    ensures { DecisionsAreKnown }
{}

/// Of the values that a holder set before, the last one tells the version of the next: it alone can be of the instance held.
pub fn last_values_are_enough()
    ensures { LastValuesAreEnough }
{}

/// So what a line comes to may be done.
pub fn lines_may_plainly()
    ensures { LinesMayPlainly }
{}

/// An input that comes to a host that stands is taken, if the bytes of an answer are bytes.
pub fn steps_are_taken_plainly()
    ensures { StepsAreTakenPlainly }
{}

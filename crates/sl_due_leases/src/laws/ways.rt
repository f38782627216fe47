//! The ways of leases: why each call of a lease was made, and what follows.

ghost use Rattle.sl_due_leases.specs.Ways.WayLaws.{AnswersFit, ConversionsFit, GrantGroundsAreKept, GrantGroundsBegin, GrantsFollow, NumberFactsAreKept, NumberFactsBegin, NumbersFollow, ReleasesFit, SettlingsFit, TurnFactsAreKept, TurnFactsBegin, TurnsRest, WayFactsAreKept, WayFactsBegin, WaysAreLawful};

/// What a lease decides after an answer fits the calls before it.
pub fn answers_fit()
    ensures { AnswersFit }
{}

/// What a settling decides fits the calls before it.
pub fn settlings_fit()
    ensures { SettlingsFit }
{}

/// What a release decides fits the calls before it.
pub fn releases_fit()
    ensures { ReleasesFit }
{}

/// What a conversion begins with fits the calls before it.
pub fn conversions_fit()
    ensures { ConversionsFit }
{}

/// Each call is lawful by its way.
pub fn ways_are_lawful()
    ensures { WaysAreLawful }
{}

/// The numbers of leases follow from the ways of their calls.
pub fn numbers_follow()
    ensures { NumbersFollow }
{}

/// So does what grants ask of them.
pub fn grants_follow()
    ensures { GrantsFollow }
{}

/// Each act keeps the ways of calls.
pub fn way_facts_are_kept()
    ensures { WayFactsAreKept }
{}

/// They hold once a step has begun.
pub fn way_facts_begin()
    ensures { WayFactsBegin }
{}

/// Each act keeps whose turn it is.
pub fn turn_facts_are_kept()
    ensures { TurnFactsAreKept }
{}

/// It holds once a step has begun.
pub fn turn_facts_begin()
    ensures { TurnFactsBegin }
{}

/// And when all that an answer makes due is done.
pub fn turns_rest()
    ensures { TurnsRest }
{}

/// Each act keeps what is known of the numbers that leases have written.
pub fn number_facts_are_kept()
    ensures { NumberFactsAreKept }
{}

/// They hold once a step has begun.
pub fn number_facts_begin()
    ensures { NumberFactsBegin }
{}

/// Each act keeps what grants ask of the calls.
pub fn grant_grounds_are_kept()
    ensures { GrantGroundsAreKept }
{}

/// It holds once a step has begun.
pub fn grant_grounds_begin()
    ensures { GrantGroundsBegin }
{}

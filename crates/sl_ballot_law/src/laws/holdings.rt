//! What two grants of one resource say of each other.

ghost use Rattle.sl_ballot_law.specs.Grantings.GrantPromises.{KeptIsOpen, MarksCome, MarksLast, NoneSharesBeside, OneIsKept};

/// Exclusive grants that stand at one step are of one session and one instance.
pub fn one_is_kept()
    ensures { OneIsKept }
{}

/// Beside an exclusive grant that stands no other session holds shared.
pub fn none_shares_beside()
    ensures { NoneSharesBeside }
{}

/// While an exclusive grant stands its instance is open, and no block of a greater one is submitted.
pub fn kept_is_open()
    ensures { KeptIsOpen }
{}

/// From the mark of a shared holder on each block of its host is a mark of it.
pub fn marks_last()
    ensures { MarksLast }
{}

/// No block of an instance above the one that a shared holder won was submitted before its mark was answered.
pub fn marks_come()
    ensures { MarksCome }
{}

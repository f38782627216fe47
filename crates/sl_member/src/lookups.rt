//! Members that are looked for in a list: by number, lockspace or job. There are few, so one is looked for from the first on.

ghost use Rattle.sl_member.specs.HostMembers.{is_joining_by};
ghost use Rattle.sl_words.specs.Orders.{is_text_before};
ghost use Rattle.sl_words.specs.Words.{some_is};
ghost use Rattle.std.specs.Prelude.{IfSome, bytes_eq, find, length, option_map, position, unwrap_or, ◌&&◌, ◌<◌, ◌==◌, ◌≡◌, ◌≤◌};

use crate::member::Member;
use sl_text::Name;

/// Whether a member has this number.
pub(crate) fn has_number(member: &Member, number: u64) -> bool
    ensures { result ≡ (number == member.now.state.who.number) }
{
    number == member.who().number
}

/// The place of the member of this number.
pub(crate) fn place_of(items: &[Member], number: u64) -> Option<usize>
    ensures exact { result ≡ position (λ m. number == m.state.who.number) items.now }
    ensures within { IfSome result (λ k. k < length items.now) }
{
    items.iter().position(|member| has_number(member, number))
}

/// Whether a member's lockspace comes behind this one.
fn is_behind(member: &Member, lockspace: &Name) -> bool
    ensures { result ≡ is_text_before lockspace.now member.now.state.who.lockspace }
{
    lockspace.is_before(&member.who().lockspace)
}

/// The place for a member of this lockspace: before the first that comes behind.
pub(crate) fn gap_of(items: &[Member], lockspace: &Name) -> usize
    ensures exact { result ≡ unwrap_or (position (λ m. is_text_before lockspace.now m.state.who.lockspace) items.now) (length items.now) }
    ensures within { result ≤ length items.now }
{
    match place_behind(items, lockspace) {
        Some(place) => place,
        None => items.len(),
    }
}

/// The place of the first member whose lockspace comes behind this one.
fn place_behind(items: &[Member], lockspace: &Name) -> Option<usize>
    ensures exact { result ≡ position (λ m. is_text_before lockspace.now m.state.who.lockspace) items.now }
    ensures within { IfSome result (λ k. k < length items.now) }
{
    items.iter().position(|member| is_behind(member, lockspace))
}

/// The first member of this lockspace.
pub(crate) fn find_named<'a>(items: &'a [Member], lockspace: &Name) -> Option<&'a Member>
    ensures { option_map (λ m. m.now) result ≡ find (λ m. bytes_eq m.state.who.lockspace lockspace.now) items.entry.now }
{
    items.iter().find(|member| member.is_named(lockspace))
}

/// The first member that is for this job.
pub(crate) fn find_for<'a>(items: &'a [Member], job: u64) -> Option<&'a Member>
    ensures { option_map (λ m. m.now) result ≡ find (λ m. some_is (λ j. j == job) m.state.who.job) items.entry.now }
{
    items.iter().find(|member| is_for(member, job))
}

/// Whether a member is for this job.
fn is_for(member: &Member, job: u64) -> bool
    ensures { result ≡ some_is (λ j. j == job) member.now.state.who.job }
{
    match member.who().job {
        Some(number) => number == job,
        None => false,
    }
}

/// Whether a member is joining, by this job.
fn is_joining_by(member: &Member, job: u64) -> bool
    ensures { result ≡ is_joining_by job member.now.state }
{
    !member.is_joined() && !member.is_refused() && is_for(member, job)
}

/// The first member that is joining by this job.
pub(crate) fn find_joining<'a>(items: &'a [Member], job: u64) -> Option<&'a Member>
    ensures { option_map (λ m. m.now) result ≡ find (λ m. is_joining_by job m.state) items.entry.now }
{
    items.iter().find(|member| is_joining_by(member, job))
}

/// Whether a member is joined and of this lockspace.
pub(crate) fn is_joined_as(member: &Member, lockspace: &Name) -> bool
    ensures { result ≡ (member.now.state.joined && bytes_eq member.now.state.who.lockspace lockspace.now) }
{
    member.is_joined() && member.is_named(lockspace)
}

//! Why areas are not those of a header, and the line that says so.

ghost use Rattle.sl_standing.specs.StandingTexts.{difference_text, resource_name};
ghost use Rattle.sl_standing.specs.declared.not_standing.NotStanding.TheVariants.{OtherFormat, OtherLeader};
ghost use Rattle.sl_text.specs.Forms.{spaced};
ghost use Rattle.std.specs.Prelude.{IfOk, OnErr, OnOk, decimal, if◌then◌else◌, string_bytes, [], ◌++◌, ◌∷◌, ◌≡◌};

use sl_io::Failed;
use sl_sector::Leader;
use sl_text::write::push_line;
use sl_text::{Data, Name};
use std::alloc::{AllocError, Global};

/// How an area that stands differs from what a header says of it.
#[derive(Clone, Copy)]
pub enum NotStanding {
    /// A sector can't be read.
    AreaFault,
    /// There is no memory.
    NoMemory,
    /// The lockspace's area has no label, or one that is torn.
    NoLabel {
        lockspace: Name,
    },
    /// It has this label, of other times.
    OtherTime {
        lockspace: Name,
        stands: Data,
    },
    /// It has this label, with other hosts, sizes or another name.
    OtherLabel {
        lockspace: Name,
        stands: Data,
    },
    /// Where the resource's leader stands there is a record of another kind.
    NoLeader {
        lockspace: Name,
        resource: Name,
    },
    /// .. there is this leader, of other names or for other hosts.
    OtherLeader {
        lockspace: Name,
        resource: Name,
        stands: Leader,
    },
    /// .. there is the leader of an area with pairs, and the header has none, or the other way round; `paired`: it has pairs.
    OtherFormat {
        lockspace: Name,
        resource: Name,
        paired: bool,
    },
}

impl From<Failed> for NotStanding {
    ghost use Rattle.sl_standing.specs.declared.not_standing.NotStanding.{NotStanding};
    ghost use Rattle.std.specs.Prelude.{◌≡◌};

    ghost from_gives = { λ _ e. e ≡ NotStanding.AreaFault };

    fn from(_: Failed) -> NotStanding {
        NotStanding::AreaFault
    }
}

impl From<AllocError> for NotStanding {
    ghost use Rattle.sl_standing.specs.declared.not_standing.NotStanding.{NotStanding};
    ghost use Rattle.std.specs.Prelude.{◌≡◌};

    ghost from_gives = { λ _ e. e ≡ NotStanding.NoMemory };

    fn from(_: AllocError) -> NotStanding {
        NotStanding::NoMemory
    }
}

/// Adds a line of these words, a lockspace's name and the text of a label.
fn push_label_line(
    out: &mut Vec<u8>,
    words: &str,
    lockspace: Name,
    stands: &Data,
) -> Result<(), AllocError>
    ensures ok { OnOk result (out.new.items ≡ out.old.items ++ spaced (words.now ∷ lockspace ∷ stands.now ∷ []) ++ 10 ∷ []) }
    ensures err { OnErr result (out.new.items ≡ out.old.items) }
{
    let mut line = format!(in *out.allocator(); "{words} {lockspace} ")?.into_bytes();
    line.extend_from_slice(stands.as_slice())?;
    push_line(out, &line)
}

/// The name of a resource, behind that of its lockspace.
fn name_text(alloc: Global, lockspace: Name, resource: Name) -> Result<String, AllocError>
    ensures { IfOk result (λ text. string_bytes text ≡ resource_name lockspace resource) }
{
    format!(in alloc; "{lockspace}:{resource}")
}

/// Whose leader it is, and for how many hosts.
fn leader_text(alloc: Global, stands: &Leader) -> Result<String, AllocError>
    ensures { IfOk result (λ text. string_bytes text ≡ spaced (stands.now.lockspace ∷ stands.now.resource ∷ decimal stands.now.num_hosts ∷ [])) }
{
    format!(in alloc;
        "{} {} {}",
        stands.lockspace, stands.resource, stands.num_hosts
    )
}

/// Adds the line of a resource where another leader stands.
fn push_other_leader(
    out: &mut Vec<u8>,
    lockspace: Name,
    resource: Name,
    stands: &Leader,
) -> Result<(), AllocError>
    ensures ok { OnOk result (out.new.items ≡ out.old.items ++ difference_text (OtherLeader lockspace resource stands.now)) }
    ensures err { OnErr result (out.new.items ≡ out.old.items) }
{
    let name = name_text(*out.allocator(), lockspace, resource)?;
    let leader = leader_text(*out.allocator(), stands)?;
    let line = format!(in *out.allocator(); "other leader {name} {leader}")?;
    push_line(out, line.as_bytes())
}

/// The number of an area's format: with pairs, or without.
fn format_of(paired: bool) -> u32
    ensures { result ≡ (if paired then 2 else 1) }
{
    if paired { 2 } else { 1 }
}

/// Adds the line of a resource where the leader of an area of another format stands.
fn push_other_format(
    out: &mut Vec<u8>,
    lockspace: Name,
    resource: Name,
    paired: bool,
) -> Result<(), AllocError>
    ensures ok { OnOk result (out.new.items ≡ out.old.items ++ difference_text (OtherFormat lockspace resource paired)) }
    ensures err { OnErr result (out.new.items ≡ out.old.items) }
{
    let (name, format) = (
        name_text(*out.allocator(), lockspace, resource)?,
        format_of(paired),
    );
    let line = format!(in *out.allocator(); "other format {name} {format}")?;
    push_line(out, line.as_bytes())
}

/// Adds the line of a difference, with its line feed. After an `Err`, which is want of memory, nothing is added. Of want of memory nothing is told.
pub fn push_not_standing(out: &mut Vec<u8>, why: &NotStanding) -> Result<(), AllocError>
    ensures ok { OnOk result (out.new.items ≡ out.old.items ++ difference_text why.now) }
    ensures err { OnErr result (out.new.items ≡ out.old.items) }
{
    match why {
        NotStanding::AreaFault => push_line(out, b"area fault"),
        NotStanding::NoMemory => Ok(()),
        NotStanding::NoLabel { lockspace } => {
            let line = format!(in *out.allocator(); "no label {lockspace}")?;
            push_line(out, line.as_bytes())
        }
        NotStanding::OtherTime { lockspace, stands } => {
            push_label_line(out, "other time", *lockspace, stands)
        }
        NotStanding::OtherLabel { lockspace, stands } => {
            push_label_line(out, "other label", *lockspace, stands)
        }
        NotStanding::NoLeader {
            lockspace,
            resource,
        } => {
            let line = format!(in *out.allocator(); "no leader {lockspace}:{resource}")?;
            push_line(out, line.as_bytes())
        }
        NotStanding::OtherLeader {
            lockspace,
            resource,
            stands,
        } => push_other_leader(out, *lockspace, *resource, stands),
        NotStanding::OtherFormat {
            lockspace,
            resource,
            paired,
        } => push_other_format(out, *lockspace, *resource, *paired),
    }
}

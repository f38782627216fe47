//! What the locks ask of the host, and its text.
//!
//! An ask is kept as what it names; its text is made where somebody wants it.

ghost use Rattle.sl_locks.specs.Asks.{ask_text, lock_word, process_text, space_word};
ghost use Rattle.sl_run.specs.LockNames.{doubled, group_lockspace, group_path};
ghost use Rattle.sl_trace.specs.Traces.{is_shared};
ghost use Rattle.std.specs.Prelude.{OnErr, OnOk, codes, decimal, false, if◌then◌else◌, [], ◌++◌, ◌*◌, ◌==◌, ◌∷◌, ◌≡◌};

use crate::lock::Lock;
use sl_area::Geometry;
use sl_text::Name;
use sl_text::number::push_number;
use sl_trace::Mode;
use std::alloc::AllocError;

/// The process by which lvmlockd holds its locks: above all others, and below all children.
pub(crate) const LOCK_PROCESS: u32 = 1_000_000;

/// Where the area of a group's lockspace begins.
const FIRST_AREA: u64 = 0;

/// What the host is asked, by the process that holds for lvmlockd.
#[derive(Clone, Copy)]
pub enum Ask {
    /// That the group's lockspace is joined under this id.
    Join { group: Name, id: u32 },
    /// That the lockspace of the volume group is left, under this id.
    Leave { group: Name, id: u32 },
    Acquire { lock: Lock, mode: Mode },
    Release { lock: Lock },
    /// The value that stands in the lock's area.
    ReadValue { lock: Lock },
    /// That the value becomes the one byte 1.
    WriteValue { lock: Lock },
}

/// Adds a text.
fn push_text(out: &mut Vec<u8>, text: &[u8]) -> Result<(), AllocError>
    ensures { OnOk result (out.new.items ≡ out.old.items ++ text.now) }
{
    out.extend_from_slice(text)
}

/// Adds a character, a dash twice.
fn push_doubled(out: &mut Vec<u8>, byte: u8) -> Result<(), AllocError>
    ensures { OnOk result (out.new.items ≡ out.old.items ++ (if byte == 45 then 45 ∷ 45 ∷ [] else byte ∷ [])) }
{
    if byte == b'-' {
        return push_text(out, b"--");
    }
    out.push(byte)?;
    Ok(())
}

/// Adds a name with each dash twice.
fn push_name(out: &mut Vec<u8>, name: &[u8]) -> Result<(), AllocError>
    ensures { OnOk result (out.new.items ≡ out.old.items ++ doubled name.now) }
{
    for byte in name {
        push_doubled(out, *byte)?;
    }
    Ok(())
}

/// Adds the disk of a group's areas.
fn push_path(out: &mut Vec<u8>, group: &Name) -> Result<(), AllocError>
    ensures { OnOk result (out.new.items ≡ out.old.items ++ group_path group.now) }
{
    push_text(out, b"/dev/mapper/")?;
    push_name(out, group.as_slice())?;
    push_text(out, b"-lvmlock")?;
    Ok(())
}

/// Adds the name of a group's lockspace.
fn push_lockspace(out: &mut Vec<u8>, group: &Name) -> Result<(), AllocError>
    ensures { OnOk result (out.new.items ≡ out.old.items ++ group_lockspace group.now) }
{
    push_text(out, b"lvm_")?;
    push_text(out, group.as_slice())
}

/// Adds a part of a word behind a colon.
fn push_part(out: &mut Vec<u8>, part: &[u8]) -> Result<(), AllocError>
    ensures { OnOk result (out.new.items ≡ out.old.items ++ 58 ∷ part.now) }
{
    out.push(b':')?;
    push_text(out, part)
}

/// Adds a number behind a colon.
fn push_number_part(out: &mut Vec<u8>, number: u64) -> Result<(), AllocError>
    ensures { OnOk result (out.new.items ≡ out.old.items ++ 58 ∷ decimal number) }
{
    out.push(b':')?;
    push_number(out, number)
}

/// Adds the disk of a group's areas and where one begins on it, each behind a colon.
fn push_place(out: &mut Vec<u8>, group: &Name, offset: u64) -> Result<(), AllocError>
    ensures { OnOk result (out.new.items ≡ out.old.items ++ 58 ∷ (group_path group.now ++ 58 ∷ decimal offset)) }
{
    out.push(b':')?;
    push_path(out, group)?;
    push_number_part(out, offset)
}

/// Adds the word of a resource: its group's lockspace, its name and its place.
fn push_resource(
    out: &mut Vec<u8>,
    group: &Name,
    name: &Name,
    offset: u64,
) -> Result<(), AllocError>
    ensures { OnOk result (out.new.items ≡ out.old.items ++ (group_lockspace group.now ++ 58 ∷ (name.now ++ 58 ∷ (group_path group.now ++ 58 ∷ decimal offset)))) }
{
    push_lockspace(out, group)?;
    push_part(out, name.as_slice())?;
    push_place(out, group, offset)?;
    Ok(())
}

/// Where a lock's area begins on the disk of its volume group, in bytes.
pub(crate) fn offset_of(geometry: &Geometry, lock: &Lock) -> u64
    ensures { result ≡ lock.now.number * geometry.now.area }
{
    u64::from(lock.number) * geometry.area()
}

/// Adds the word of a lock's resource.
fn push_lock(out: &mut Vec<u8>, geometry: &Geometry, lock: &Lock) -> Result<(), AllocError>
    ensures { OnOk result (out.new.items ≡ out.old.items ++ lock_word geometry.now.area lock.now false) }
{
    push_resource(out, &lock.group, &lock.name, offset_of(geometry, lock))
}

/// Adds the word of a lock's resource in a mode.
fn push_moded(
    out: &mut Vec<u8>,
    geometry: &Geometry,
    lock: &Lock,
    mode: Mode,
) -> Result<(), AllocError>
    ensures { OnOk result (out.new.items ≡ out.old.items ++ lock_word geometry.now.area lock.now (is_shared mode)) }
{
    push_lock(out, geometry, lock)?;
    match mode {
        Mode::Exclusive => Ok(()),
        Mode::Shared => push_text(out, b":SH"),
    }
}

/// Adds the process that holds for lvmlockd.
fn push_process(out: &mut Vec<u8>) -> Result<(), AllocError>
    ensures { OnOk result (out.new.items ≡ out.old.items ++ process_text) }
{
    push_text(out, b" -p ")?;
    push_number(out, u64::from(LOCK_PROCESS))
}

/// Adds a verb, a lock's word, and the process.
fn push_on_lock(
    out: &mut Vec<u8>,
    geometry: &Geometry,
    verb: &[u8],
    lock: &Lock,
) -> Result<(), AllocError>
    ensures { OnOk result (out.new.items ≡ out.old.items ++ verb.now ++ lock_word geometry.now.area lock.now false ++ process_text) }
{
    push_text(out, verb)?;
    push_lock(out, geometry, lock)?;
    push_process(out)?;
    Ok(())
}

/// Adds a write of a lock's value.
fn push_write(out: &mut Vec<u8>, geometry: &Geometry, lock: &Lock) -> Result<(), AllocError>
    ensures { OnOk result (out.new.items ≡ out.old.items ++ codes "set_lvb -r " ++ lock_word geometry.now.area lock.now false ++ process_text ++ codes " -d 01") }
{
    push_on_lock(out, geometry, b"set_lvb -r ", lock)?;
    push_text(out, b" -d 01")?;
    Ok(())
}

/// Adds the word of a group's lockspace with an id.
fn push_space(out: &mut Vec<u8>, group: &Name, id: u32) -> Result<(), AllocError>
    ensures { OnOk result (out.new.items ≡ out.old.items ++ space_word group.now id) }
{
    push_lockspace(out, group)?;
    push_number_part(out, u64::from(id))?;
    push_place(out, group, FIRST_AREA)?;
    Ok(())
}

/// Adds a verb and a group's lockspace with an id.
fn push_on_space(out: &mut Vec<u8>, verb: &[u8], group: &Name, id: u32) -> Result<(), AllocError>
    ensures { OnOk result (out.new.items ≡ out.old.items ++ verb.now ++ space_word group.now id) }
{
    push_text(out, verb)?;
    push_space(out, group, id)?;
    Ok(())
}

/// Adds an acquire of a lock.
fn push_acquire(
    out: &mut Vec<u8>,
    geometry: &Geometry,
    lock: &Lock,
    mode: Mode,
) -> Result<(), AllocError>
    ensures { OnOk result (out.new.items ≡ out.old.items ++ codes "acquire -r " ++ lock_word geometry.now.area lock.now (is_shared mode) ++ process_text) }
{
    push_text(out, b"acquire -r ")?;
    push_moded(out, geometry, lock, mode)?;
    push_process(out)?;
    Ok(())
}

/// Adds the text of an ask.
#[tactic(auto, using(crate::proofs::AskTexts::texts))]
fn push_ask(out: &mut Vec<u8>, geometry: &Geometry, ask: &Ask) -> Result<(), AllocError>
    ensures { OnOk result (out.new.items ≡ out.old.items ++ ask_text geometry.now.area ask.now) }
{
    match ask {
        Ask::Join { group, id } => push_on_space(out, b"add_lockspace -s ", group, *id),
        Ask::Leave { group, id } => push_on_space(out, b"rem_lockspace -s ", group, *id),
        Ask::Acquire { lock, mode } => push_acquire(out, geometry, lock, *mode),
        Ask::Release { lock } => push_on_lock(out, geometry, b"release -r ", lock),
        Ask::ReadValue { lock } => push_on_lock(out, geometry, b"get_lvb -r ", lock),
        Ask::WriteValue { lock } => push_write(out, geometry, lock),
    }
}

/// Adds the text of an ask: the command that the host is given, where areas have these sizes. An `Err` is want of memory, and `out` stays as it
/// was.
pub fn push_ask_text(out: &mut Vec<u8>, geometry: &Geometry, ask: &Ask) -> Result<(), AllocError>
    ensures ok { OnOk result (out.new.items ≡ out.old.items ++ ask_text geometry.now.area ask.now) }
    ensures err { OnErr result (out.new.items ≡ out.old.items) }
{
    let mut text = Vec::new(*out.allocator());
    push_ask(&mut text, geometry, ask)?;
    out.extend_from_slice(&text)
}

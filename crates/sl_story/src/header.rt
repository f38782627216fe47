//! The header of a story: two disks, a lockspace of the hosts' own and one of a volume group, and a session of each machine in both.

ghost use Rattle.sl_story.specs.StoryHeaders.{fixed_lines, number_lines, session_line, story_lines};
ghost use Rattle.sl_story.specs.StoryPlays.{Opens};
ghost use Rattle.sl_text.specs.Forms.{as_bytes};
ghost use Rattle.std.specs.List.{range_with_len};
ghost use Rattle.std.specs.Prelude.{IfOk, OnOk, codes, if◌then◌else◌, map, string_bytes, ◌++◌, ◌∷◌, ◌≡◌, ◌≤◌, []};

use crate::header_read::read_header;
use crate::numbered_lines::NumberedLines;
use crate::place::Place;
use sl_run::Header;
use std::alloc::{AllocError, Global};

/// Bytes of an area.
pub(crate) const AREA: u64 = 1_048_576;

/// How many resources the hosts have of their own.
pub(crate) const RESOURCES: u32 = 4;

/// How many ids there are beside those of the machines.
pub(crate) const SPARE_IDS: u32 = 8;

/// The disk of the volume group.
pub(crate) const GROUP_DISK: &str = "/dev/mapper/vg-lvmlock";

/// The lines that each story has: a disk with four resources, and one with a volume group's locks.
const FIXED: &[u8] =
    b"lvm 2\ndisk /d 8\ndisk /dev/mapper/vg-lvmlock 4\nlockspace ls /d 0\nlockspace lvm_vg /dev/mapper/vg-lvmlock 0\nresource ls r1 /d 1048576\nresource ls r2 /d 2097152\nresource ls r3 /d 3145728\nresource ls r4 /d 4194304\nresource lvm_vg GLLK /dev/mapper/vg-lvmlock 1048576\nresource lvm_vg VGLK /dev/mapper/vg-lvmlock 2097152\nresource lvm_vg lv /dev/mapper/vg-lvmlock 3145728\n";

/// The first lines of a story, what they are read as, and the place behind them.
#[derive(Drop)]
pub(crate) struct Opening {
    pub(crate) text: Vec<u8>,
    pub(crate) header: Header,
    pub(crate) place: Place,
}

/// The first line's words.
fn version(paired: bool) -> &'static str
    ensures { result.now ≡ (if paired then codes "sanlock 2" else codes "sanlock 1") }
{
    if paired { "sanlock 2" } else { "sanlock 1" }
}

/// Adds a text.
fn push_text(out: &mut Vec<u8>, text: &[u8]) -> Result<(), AllocError>
    ensures { OnOk result (out.new.items ≡ out.old.items ++ text.now) }
{
    out.extend_from_slice(text)
}

/// The first lines.
fn number_text(alloc: Global, hosts: u32, paired: bool) -> Result<String, AllocError>
    requires { hosts ≤ 16 }
    ensures { IfOk result (λ text. string_bytes text ≡ as_bytes (number_lines hosts paired)) }
{
    let version = version(paired);
    let ids = hosts + SPARE_IDS;
    let text = format!(in alloc; "{version}\ntime 100 600 100 10 300\nhosts {hosts}\nids {ids}\n")?;
    Ok(text)
}

/// Adds the first lines.
fn push_numbers(out: &mut Vec<u8>, hosts: u32, paired: bool) -> Result<(), AllocError>
    requires { hosts ≤ 16 }
    ensures { OnOk result (out.new.items ≡ out.old.items ++ as_bytes (number_lines hosts paired)) }
{
    let text = number_text(*out.allocator(), hosts, paired)?;
    push_text(out, text.as_bytes())
}

/// Adds the lines that each story has.
#[tactic(auto, unfolding(crate::specs::StoryHeaders::fixed_lines))]
fn push_fixed(out: &mut Vec<u8>) -> Result<(), AllocError>
    ensures { OnOk result (out.new.items ≡ out.old.items ++ as_bytes fixed_lines) }
{
    push_text(out, FIXED)
}

/// The line of a machine's session in a lockspace.
fn session_text(alloc: Global, lockspace: &str, machine: u32) -> Result<String, AllocError>
    ensures { IfOk result (λ text. string_bytes text ≡ as_bytes (session_line lockspace.now machine ∷ [])) }
{
    let text = format!(in alloc; "session {machine} {lockspace} {machine} h{machine}\n")?;
    Ok(text)
}

/// Adds the line of a machine's session in a lockspace.
fn push_session(out: &mut Vec<u8>, lockspace: &str, machine: u32) -> Result<(), AllocError>
    ensures { OnOk result (out.new.items ≡ out.old.items ++ as_bytes (session_line lockspace.now machine ∷ [])) }
{
    let text = session_text(*out.allocator(), lockspace, machine)?;
    push_text(out, text.as_bytes())
}

/// Adds the lines of the sessions in a lockspace: each machine has joined under its own number.
fn push_sessions(out: &mut Vec<u8>, lockspace: &str, hosts: u32) -> Result<(), AllocError>
    ensures { OnOk result (out.new.items ≡ out.old.items ++ as_bytes (map (session_line lockspace.now) (range_with_len 1 hosts))) }
{
    let mut machine = 0;
    while machine < hosts {
        machine += 1;
        push_session(out, lockspace, machine)?;
    }
    Ok(())
}

/// Adds the last line.
fn push_begin(out: &mut Vec<u8>) -> Result<(), AllocError>
    ensures { OnOk result (out.new.items ≡ out.old.items ++ as_bytes (codes "begin" ∷ [])) }
{
    push_text(out, b"begin\n")
}

/// The lines of the header of a story of so many machines, whose areas have pairs or not. An `Err` is want of memory.
fn header_text(alloc: Global, hosts: u32, paired: bool) -> Result<Vec<u8>, AllocError>
    requires { hosts ≤ 16 }
    ensures { IfOk result (λ text. text.items ≡ as_bytes (story_lines hosts paired)) }
{
    let mut text = Vec::new(alloc);
    push_numbers(&mut text, hosts, paired)?;
    push_fixed(&mut text)?;
    push_sessions(&mut text, "ls", hosts)?;
    push_sessions(&mut text, "lvm_vg", hosts)?;
    push_begin(&mut text)?;
    Ok(text)
}

/// What a story of so many machines, 1 to 16, whose areas have pairs or not, begins with. An `Err` is want of memory.
pub(crate) fn first_lines(alloc: Global, hosts: u32, paired: bool) -> Result<Opening, AllocError>
    requires { (1 ≤ hosts) × (hosts ≤ 16) }
    ensures { IfOk result (Opens hosts paired) }
{
    let text = header_text(alloc, hosts, paired)?;
    let mut lines = NumberedLines::new(&text);
    match read_header(alloc, &mut lines)? {
        Ok(header) => {
            let place = Place {
                lines: 17 + 2 * u64::from(hosts),
                bytes: text.len() as u64,
            };
            Ok(Opening {
                text,
                header,
                place,
            })
        }
        Err(_) => unreachable!(),
    }
}

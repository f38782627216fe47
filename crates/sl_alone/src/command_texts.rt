//! A command's one text: its words with one space between, and the parts of a word with colons between.

ghost use Rattle.std.specs.Prelude.{IsSome, OnErr, OnOk, codes, decimal, false, true, ◌++◌, ◌∷◌, ◌≡◌, []};
ghost use Rattle.sl_text.specs.Forms.{coloned, spaced};
ghost use Rattle.sl_text.specs.Numbers.{hex_text};
ghost use Rattle.sl_trace.specs.CommandForms as commands;
ghost use Rattle.sl_trace.specs.Jobs.{process_named};
ghost use Rattle.sl_trace.specs.declared.command.Command.TheVariants.{Acquire, ReleaseOrphan, SetKillpath, TakeOver};

use sl_command::words::{push_behind, push_number_part, push_part, push_text, push_word};
use sl_text::hex::push_hex;
use sl_text::{Data, FilePath};
use sl_trace::{Command, LockspaceArg, ResourceArg};
use std::alloc::AllocError;

/// Adds the word of a lockspace behind a space.
fn push_lockspace(out: &mut Vec<u8>, lockspace: &LockspaceArg) -> Result<(), AllocError>
    ensures { OnOk result (out.new.items ≡ out.old.items ++ 32 ∷ commands.lockspace_word lockspace.now) }
{
    push_word(out, lockspace.name.as_slice())?;
    push_number_part(out, u64::from(lockspace.id))?;
    push_part(out, lockspace.path.as_slice())?;
    push_number_part(out, lockspace.offset)
}

/// Adds a command that names a lockspace.
fn push_on_lockspace(
    out: &mut Vec<u8>,
    verb: &str,
    lockspace: &LockspaceArg,
) -> Result<(), AllocError>
    ensures { OnOk result (out.new.items ≡ out.old.items ++ spaced (verb.now ∷ codes "-s" ∷ commands.lockspace_word lockspace.now ∷ [])) }
{
    push_text(out, verb.as_bytes())?;
    push_word(out, b"-s")?;
    push_lockspace(out, lockspace)
}

/// Adds the word of a resource behind a space.
fn push_resource(out: &mut Vec<u8>, resource: &ResourceArg) -> Result<(), AllocError>
    ensures { OnOk result (out.new.items ≡ out.old.items ++ 32 ∷ coloned (commands.resource_parts resource.now)) }
{
    push_word(out, resource.lockspace.as_slice())?;
    push_part(out, resource.name.as_slice())?;
    push_part(out, resource.path.as_slice())?;
    push_number_part(out, resource.offset)
}

/// Adds the word of a resource that is meant in the shared mode, behind a space.
fn push_shared(out: &mut Vec<u8>, resource: &ResourceArg) -> Result<(), AllocError>
    ensures { OnOk result (out.new.items ≡ out.old.items ++ 32 ∷ commands.moded_word resource.now true) }
{
    push_resource(out, resource)?;
    push_part(out, b"SH")
}

/// Adds the word of a resource and a mode behind a space.
fn push_moded(out: &mut Vec<u8>, resource: &ResourceArg, shared: bool) -> Result<(), AllocError>
    ensures { OnOk result (out.new.items ≡ out.old.items ++ 32 ∷ commands.moded_word resource.now shared) }
{
    if shared {
        push_shared(out, resource)
    } else {
        push_resource(out, resource)
    }
}

/// Adds a verb, and the word of a resource and a mode.
fn push_on_resource(
    out: &mut Vec<u8>,
    verb: &str,
    resource: &ResourceArg,
    shared: bool,
) -> Result<(), AllocError>
    ensures { OnOk result (out.new.items ≡ out.old.items ++ spaced (verb.now ∷ codes "-r" ∷ commands.moded_word resource.now shared ∷ [])) }
{
    push_text(out, verb.as_bytes())?;
    push_word(out, b"-r")?;
    push_moded(out, resource, shared)
}

/// Adds a command that names a resource, a mode and a process.
fn push_for_process(
    out: &mut Vec<u8>,
    verb: &str,
    resource: &ResourceArg,
    shared: bool,
    process: u32,
) -> Result<(), AllocError>
    ensures { OnOk result (out.new.items ≡ out.old.items
        ++ spaced (verb.now ∷ codes "-r" ∷ commands.moded_word resource.now shared ∷ codes "-p" ∷ decimal process ∷ [])) }
{
    push_on_resource(out, verb, resource, shared)?;
    push_word(out, b"-p")?;
    push_behind(out, u64::from(process))
}

/// Adds an acquire, with its option where it is persistent.
fn push_acquire(
    out: &mut Vec<u8>,
    resource: &ResourceArg,
    shared: bool,
    process: u32,
    persistent: bool,
) -> Result<(), AllocError>
    ensures { OnOk result (out.new.items ≡ out.old.items
        ++ spaced (commands.command_words (Acquire resource.now shared process persistent))) }
{
    push_for_process(out, "acquire", resource, shared, process)?;
    if persistent {
        push_text(out, b" -P 1")?;
    }
    Ok(())
}

/// Adds an acquire that takes the orphan over.
fn push_take_over(
    out: &mut Vec<u8>,
    resource: &ResourceArg,
    shared: bool,
    process: u32,
    persistent: bool,
) -> Result<(), AllocError>
    ensures { OnOk result (out.new.items ≡ out.old.items
        ++ spaced (commands.command_words (TakeOver resource.now shared process persistent))) }
{
    push_acquire(out, resource, shared, process, persistent)?;
    push_text(out, b" -O 1")
}

/// Adds a release of the orphan.
fn push_release_orphan(out: &mut Vec<u8>, resource: &ResourceArg) -> Result<(), AllocError>
    ensures { OnOk result (out.new.items ≡ out.old.items ++ spaced (commands.command_words (ReleaseOrphan resource.now))) }
{
    push_on_resource(out, "release", resource, false)?;
    push_text(out, b" -O 1")
}

/// Adds a command that sets a kill program.
fn push_set_killpath(out: &mut Vec<u8>, process: u32, program: &FilePath) -> Result<(), AllocError>
    ensures { OnOk result (out.new.items ≡ out.old.items ++ spaced (commands.command_words (SetKillpath process program.now))) }
{
    push_text(out, b"set_killpath -p")?;
    push_behind(out, u64::from(process))?;
    push_word(out, b"-c")?;
    push_word(out, program.as_slice())
}

/// Adds a command that runs a program under a resource.
fn push_for_program(
    out: &mut Vec<u8>,
    resource: &ResourceArg,
    shared: bool,
    program: &FilePath,
) -> Result<(), AllocError>
    ensures { OnOk result (out.new.items ≡ out.old.items
        ++ spaced (codes "command" ∷ codes "-r" ∷ commands.moded_word resource.now shared ∷ codes "-c" ∷ program.now ∷ [])) }
{
    push_on_resource(out, "command", resource, shared)?;
    push_word(out, b"-c")?;
    push_word(out, program.as_slice())
}

/// Adds the word of a resource and an lver that is asked for, behind a space.
fn push_asked(out: &mut Vec<u8>, resource: &ResourceArg, lver: u64) -> Result<(), AllocError>
    ensures { OnOk result (out.new.items ≡ out.old.items ++ 32 ∷ coloned (commands.resource_parts resource.now ++ decimal lver ∷ [])) }
{
    push_resource(out, resource)?;
    push_number_part(out, lver)
}

/// Adds a request for an lver.
fn push_request(
    out: &mut Vec<u8>,
    resource: &ResourceArg,
    lver: u64,
    force: u32,
) -> Result<(), AllocError>
    ensures { OnOk result (out.new.items ≡ out.old.items
        ++ spaced (codes "request" ∷ codes "-r" ∷ coloned (commands.resource_parts resource.now ++ decimal lver ∷ []) ∷ codes "-f" ∷ decimal force ∷ [])) }
{
    push_text(out, b"request -r")?;
    push_asked(out, resource, lver)?;
    push_word(out, b"-f")?;
    push_behind(out, u64::from(force))
}

/// Adds a command that sets a value.
fn push_set_lvb(
    out: &mut Vec<u8>,
    resource: &ResourceArg,
    process: u32,
    value: &Data,
) -> Result<(), AllocError>
    ensures { OnOk result (out.new.items ≡ out.old.items
        ++ spaced (codes "set_lvb" ∷ codes "-r" ∷ commands.moded_word resource.now false ∷ codes "-p" ∷ decimal process ∷ codes "-d" ∷ hex_text value.now ∷ [])) }
{
    push_for_process(out, "set_lvb", resource, false, process)?;
    push_text(out, b" -d ")?;
    push_hex(out, value.as_slice())
}

/// Adds the words of a command that is given for a process.
fn push_process_command(out: &mut Vec<u8>, command: &Command) -> Result<(), AllocError>
    requires { IsSome (process_named command.now) }
    ensures { OnOk result (out.new.items ≡ out.old.items ++ spaced (commands.command_words command.now)) }
{
    match command {
        Command::Acquire {
            resource,
            shared,
            process,
            persistent,
        } => push_acquire(out, resource, *shared, *process, *persistent),
        Command::TakeOver {
            resource,
            shared,
            process,
            persistent,
        } => push_take_over(out, resource, *shared, *process, *persistent),
        Command::Release { resource, process } => {
            push_for_process(out, "release", resource, false, *process)
        }
        Command::Convert {
            resource,
            shared,
            process,
        } => push_for_process(out, "convert", resource, *shared, *process),
        Command::GetLvb { resource, process } => {
            push_for_process(out, "get_lvb", resource, false, *process)
        }
        Command::SetLvb {
            resource,
            process,
            value,
        } => push_set_lvb(out, resource, *process, value),
        Command::SetKillpath { process, program } => push_set_killpath(out, *process, program),
        _ => unreachable!(),
    }
}

/// Adds the words of a command.
fn push_command(out: &mut Vec<u8>, command: &Command) -> Result<(), AllocError>
    ensures { OnOk result (out.new.items ≡ out.old.items ++ spaced (commands.command_words command.now)) }
{
    match command {
        Command::AddLockspace(lockspace) => push_on_lockspace(out, "add_lockspace", lockspace),
        Command::RemLockspace(lockspace) => push_on_lockspace(out, "rem_lockspace", lockspace),
        Command::InqLockspace(lockspace) => push_on_lockspace(out, "inq_lockspace", lockspace),
        Command::HostStatus(lockspace) => push_on_lockspace(out, "host_status", lockspace),
        Command::ReleaseOrphan(resource) => push_release_orphan(out, resource),
        Command::RunProgram {
            resource,
            shared,
            program,
        } => push_for_program(out, resource, *shared, program),
        Command::Request {
            resource,
            lver,
            force,
        } => push_request(out, resource, *lver, *force),
        Command::Status => push_text(out, b"status"),
        _ => push_process_command(out, command),
    }
}

/// Adds a command's one text, without a line feed. An `Err` is want of memory, and `out` stays as it was.
pub fn push_command_text(out: &mut Vec<u8>, command: &Command) -> Result<(), AllocError>
    ensures ok { OnOk result (out.new.items ≡ out.old.items ++ spaced (commands.command_words command.now)) }
    ensures err { OnErr result (out.new.items ≡ out.old.items) }
{
    let mut text = Vec::new(*out.allocator());
    push_command(&mut text, command)?;
    out.extend_from_slice(&text)
}

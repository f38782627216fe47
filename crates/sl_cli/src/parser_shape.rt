//! The command as the argument parser knows it.

ghost use Rattle.clap.specs.Walk.{rule_of};
ghost use Rattle.clap.specs.Simple.{app_of, new_rule, new_shape, with_rule};
ghost use Rattle.clap.specs.declared.builder.command.Command.TheViews.{out-Command as fields_of};
ghost use Rattle.sl_cli.specs.ParserShape.{bare_shape, command_line, direct_app, drawing_app, flag_rule, live_app, offline_app, option_rule, playing_app, reading_app, seed_app, telling_app};
ghost use Rattle.std.specs.Prelude.{IfOk, [], codes, false, ◌≡◌};

use clap::{Arg, ArgAction, Command};
use std::alloc::{AllocError, Global};

/// The command with one more option, of one letter and with a value.
fn with_option<'a>(
    alloc: Global,
    command: Command<'a>,
    id: &'a str,
    letter: char,
) -> Result<Command<'a>, AllocError>
    requires { (fields_of command).has_globals ≡ false }
    ensures app { IfOk result (λ c. app_of c ≡ with_rule (app_of command.entry) (option_rule id.entry.now letter)) }
    ensures local { IfOk result (λ c. (fields_of c).has_globals ≡ false) }
{
    command.arg(Arg::new(alloc, id).short(letter))
}

/// `direct`, with its action.
fn bare_direct<'a>(alloc: Global) -> Result<Command<'a>, AllocError>
    ensures app { IfOk result (λ c. app_of c ≡ with_rule (record { top = new_shape (codes "direct"); subs = [] }) (new_rule (codes "action"))) }
    ensures local { IfOk result (λ c. (fields_of c).has_globals ≡ false) }
{
    Command::new(alloc, "direct").arg(Arg::new(alloc, "action"))
}

/// The command with the options that name an area, and its hosts.
fn with_area_options<'a>(alloc: Global, command: Command<'a>) -> Result<Command<'a>, AllocError>
    requires { (fields_of command).has_globals ≡ false }
    ensures app { IfOk result (λ c. app_of c ≡ with_rule (with_rule (with_rule (app_of command.entry) (option_rule (codes "lockspace") 115)) (option_rule (codes "resource") 114)) (option_rule (codes "hosts") 110)) }
    ensures local { IfOk result (λ c. (fields_of c).has_globals ≡ false) }
{
    let command = with_option(alloc, command, "lockspace", 's')?;
    let command = with_option(alloc, command, "resource", 'r')?;
    with_option(alloc, command, "hosts", 'n')
}

/// The command with the options of a stretch, of sizes and of a format.
fn with_other_options<'a>(alloc: Global, command: Command<'a>) -> Result<Command<'a>, AllocError>
    requires { (fields_of command).has_globals ≡ false }
    ensures app { IfOk result (λ c. app_of c ≡ with_rule (with_rule (with_rule (app_of command.entry) (option_rule (codes "stretch") 100)) (option_rule (codes "geometry") 103)) (option_rule (codes "format") 118)) }
    ensures local { IfOk result (λ c. (fields_of c).has_globals ≡ false) }
{
    let command = with_option(alloc, command, "stretch", 'd')?;
    let command = with_option(alloc, command, "geometry", 'g')?;
    with_option(alloc, command, "format", 'v')
}

/// `direct`, with its action and the options of all actions.
fn direct<'a>(alloc: Global) -> Result<Command<'a>, AllocError>
    ensures app { IfOk result (λ c. app_of c ≡ direct_app) }
    ensures local { IfOk result (λ c. (fields_of c).has_globals ≡ false) }
{
    let command = with_area_options(alloc, bare_direct(alloc)?)?;
    with_other_options(alloc, command)
}

/// A command of this name, with a seed.
fn with_seed<'a>(alloc: Global, name: &'a str) -> Result<Command<'a>, AllocError>
    ensures app { IfOk result (λ c. app_of c ≡ with_rule (record { top = new_shape name.entry.now; subs = [] }) (new_rule (codes "seed"))) }
    ensures local { IfOk result (λ c. (fields_of c).has_globals ≡ false) }
{
    Command::new(alloc, name).arg(Arg::new(alloc, "seed"))
}

/// The command with one more word that is no option.
fn with_word<'a>(
    alloc: Global,
    command: Command<'a>,
    id: &'a str,
) -> Result<Command<'a>, AllocError>
    requires { (fields_of command).has_globals ≡ false }
    ensures app { IfOk result (λ c. app_of c ≡ with_rule (app_of command.entry) (new_rule id.entry.now)) }
    ensures local { IfOk result (λ c. (fields_of c).has_globals ≡ false) }
{
    command.arg(Arg::new(alloc, id))
}

/// A command of this name, with a seed, hosts, events and a format.
fn seeded<'a>(alloc: Global, name: &'a str) -> Result<Command<'a>, AllocError>
    ensures app { IfOk result (λ c. app_of c ≡ seed_app name.entry.now) }
    ensures local { IfOk result (λ c. (fields_of c).has_globals ≡ false) }
{
    let command = with_seed(alloc, name)?;
    let command = with_word(alloc, command, "hosts")?;
    let command = with_word(alloc, command, "events")?;
    with_word(alloc, command, "format")
}

/// `live`, with its folder.
fn bare_live<'a>(alloc: Global) -> Result<Command<'a>, AllocError>
    ensures app { IfOk result (λ c. app_of c ≡ with_rule (record { top = new_shape (codes "live"); subs = [] }) (new_rule (codes "folder"))) }
    ensures local { IfOk result (λ c. (fields_of c).has_globals ≡ false) }
{
    Command::new(alloc, "live").arg(Arg::new(alloc, "folder"))
}

/// The command with one more flag, which is a word behind two hyphens.
fn with_flag<'a>(
    alloc: Global,
    command: Command<'a>,
    id: &'a str,
) -> Result<Command<'a>, AllocError>
    requires { (fields_of command).has_globals ≡ false }
    ensures app { IfOk result (λ c. app_of c ≡ with_rule (app_of command.entry) (flag_rule id.entry.now)) }
    ensures local { IfOk result (λ c. (fields_of c).has_globals ≡ false) }
{
    command.arg(Arg::new(alloc, id).long(id).action(ArgAction::SetTrue))
}

/// `live`, with its folder and its flags.
fn live<'a>(alloc: Global) -> Result<Command<'a>, AllocError>
    ensures app { IfOk result (λ c. app_of c ≡ live_app) }
    ensures local { IfOk result (λ c. (fields_of c).has_globals ≡ false) }
{
    let command = with_flag(alloc, bare_live(alloc)?, "anew")?;
    let command = with_flag(alloc, command, "keep-going")?;
    with_flag(alloc, command, "events")
}

/// The program without its commands. Its words have no name in front, and no word asks the parser for help.
fn bare<'a>(alloc: Global) -> Command<'a>
    ensures { app_of result ≡ record { top = bare_shape; subs = [] } }
{
    Command::new(alloc, "sanlock")
        .no_binary_name(true)
        .disable_help_flag(true)
        .disable_help_subcommand(true)
        .subcommand_required(true)
}

/// The program with the command that reads a schedule.
fn reading<'a>(alloc: Global) -> Result<Command<'a>, AllocError>
    ensures { IfOk result (λ c. app_of c ≡ reading_app) }
{
    bare(alloc).subcommand(Command::new(alloc, "replay"))
}

/// The program with the commands that read a schedule.
fn drawing<'a>(alloc: Global) -> Result<Command<'a>, AllocError>
    ensures { IfOk result (λ c. app_of c ≡ drawing_app) }
{
    reading(alloc)?.subcommand(seeded(alloc, "draw")?)
}

/// The program with the commands that run a schedule.
fn playing<'a>(alloc: Global) -> Result<Command<'a>, AllocError>
    ensures { IfOk result (λ c. app_of c ≡ playing_app) }
{
    drawing(alloc)?.subcommand(seeded(alloc, "gen")?)
}

/// The program with the commands that run a schedule, or tell one.
fn telling<'a>(alloc: Global) -> Result<Command<'a>, AllocError>
    ensures { IfOk result (λ c. app_of c ≡ telling_app) }
{
    playing(alloc)?.subcommand(seeded(alloc, "schedule")?)
}

/// The program with the commands that run no machines.
fn offline<'a>(alloc: Global) -> Result<Command<'a>, AllocError>
    ensures { IfOk result (λ c. app_of c ≡ offline_app) }
{
    telling(alloc)?.subcommand(direct(alloc)?)
}

/// The whole command.
pub(crate) fn command_line<'a>(alloc: Global) -> Result<Command<'a>, AllocError>
    ensures { IfOk result (λ c. app_of c ≡ command_line) }
{
    offline(alloc)?.subcommand(live(alloc)?)
}

//! The command that the parser met, what was given to it, and the action that this asks for.

ghost use Rattle.clap.specs.Matches.{found_of};
ghost use Rattle.clap.specs.Simple.{subcommand_rows_of};
ghost use Rattle.clap.specs.Walk.{first_of, rows_of};
ghost use Rattle.sl_cli.specs.Actions.{action_in, area_in, dump_in, init_in, lockspace_in, other_in, read_leader_in, resource_in, upgrade_in};
ghost use Rattle.sl_cli.specs.CommandWords.{is_event_count, is_format, is_line, is_machine_count, is_seed, part_in, placed_in, seeding_in, span_in};
ghost use Rattle.sl_cli.specs.ParserMeets.{given_in, is_set, met_in, named_met, placing_of, seeding_of};
ghost use Rattle.sl_cli.specs.Spellings.{CanBeDone};
ghost use Rattle.sl_text.specs.Numbers.{number_of};
ghost use Rattle.sl_words.specs.Words.{choose};
ghost use Rattle.std.specs.Prelude.{IfOk, IfSome, codes, is_some, option_map, ◌≡◌, ◌≤◌};

use crate::command_words::Words;
use crate::folder::Folder;
use crate::option_values::{
    lockspace_of, paired_said, resource_of, sizes_for, sizes_said, stretch_of,
};
use clap::ArgMatches;
use sl_area::Geometry;
use sl_direct::Action;
use sl_text::number::read_number_within;
use std::alloc::{AllocError, Global};
use std::marker::Model;

/// The word of the action, and the values of the options: each where it was given.
#[derive(Drop)]
pub(crate) struct Given<'a> {
    action: Option<&'a str>,
    lockspace: Option<&'a str>,
    resource: Option<&'a str>,
    hosts: Option<&'a str>,
    stretch: Option<&'a str>,
    geometry: Option<&'a str>,
    format: Option<&'a str>,
}

impl<'a> Model for Given<'a> {
    ghost use Rattle.sl_cli.specs.Actions as actions;
    ghost use Rattle.std.specs.Prelude.{option_map};

    ghost Value = { actions.Given };

    ghost view = { λ g. record {
      action = option_map (λ w. w.now) g.action;
      lockspace = option_map (λ w. w.now) g.lockspace;
      resource = option_map (λ w. w.now) g.resource;
      hosts = option_map (λ w. w.now) g.hosts;
      stretch = option_map (λ w. w.now) g.stretch;
      geometry = option_map (λ w. w.now) g.geometry;
      format = option_map (λ w. w.now) g.format;
    } };
}

/// The value of an argument, if it was given.
fn value_of<'a>(matches: &ArgMatches<'a>, id: &str) -> Option<&'a str>
    ensures { option_map (λ w. w.now) result ≡ first_of id.now (rows_of (found_of matches.now)) }
{
    matches.get_str(id)
}

/// A new lockspace, for so many hosts.
fn new_lockspace(lockspace: &str, hosts: &str, most: &Geometry) -> Option<Action>
    ensures { result ≡ lockspace_in most.now lockspace.now hosts.now }
{
    Some(Action::InitLockspace {
        lockspace: lockspace_of(lockspace, most)?,
        geometry: sizes_for(hosts, most, false)?,
    })
}

/// A new resource, for so many hosts, with pairs or without.
fn new_resource(resource: &str, hosts: &str, most: &Geometry, paired: bool) -> Option<Action>
    ensures { result ≡ resource_in paired most.now resource.now hosts.now }
{
    Some(Action::InitResource {
        resource: resource_of(resource, most)?,
        geometry: sizes_for(hosts, most, paired)?,
    })
}

impl<'a> Given<'a> {
    /// What the parser found.
    pub(crate) fn new(matches: &ArgMatches<'a>) -> Given<'a>
        ensures { result ≡ given_in (rows_of (found_of matches.now)) }
    {
        Given {
            action: value_of(matches, "action"),
            lockspace: value_of(matches, "lockspace"),
            resource: value_of(matches, "resource"),
            hosts: value_of(matches, "hosts"),
            stretch: value_of(matches, "stretch"),
            geometry: value_of(matches, "geometry"),
            format: value_of(matches, "format"),
        }
    }

    /// A new lockspace or a new resource, for so many hosts, with pairs or without.
    fn area(&self, most: &Geometry, paired: bool) -> Option<Action>
        ensures { result ≡ area_in most.now self.now.lockspace self.now.resource self.now.hosts self.now.stretch paired }
    {
        match (self.lockspace, self.resource, self.hosts, self.stretch) {
            (Some(lockspace), None, Some(hosts), None) => {
                if paired {
                    None
                } else {
                    new_lockspace(lockspace, hosts, most)
                }
            }
            (None, Some(resource), Some(hosts), None) => {
                new_resource(resource, hosts, most, paired)
            }
            _ => None,
        }
    }

    /// A new lockspace or a new resource, for so many hosts.
    fn init(&self, most: &Geometry) -> Option<Action>
        ensures { result ≡ init_in most.now self.now.lockspace self.now.resource self.now.hosts self.now.stretch self.now.format }
    {
        self.area(most, paired_said(self.format)?)
    }

    /// A resource's area that becomes one with pairs.
    #[tactic(auto, using(crate::proofs::OptionValueLaws::no_second))]
    fn upgrade(&self, most: &Geometry) -> Option<Action>
        ensures { result ≡ upgrade_in most.now self.now.lockspace self.now.resource self.now.hosts self.now.stretch }
    {
        match (self.lockspace, self.resource, self.hosts, self.stretch) {
            (None, Some(resource), Some(hosts), None) => Some(Action::Upgrade {
                resource: resource_of(resource, most)?,
                geometry: sizes_for(hosts, most, true)?,
            }),
            _ => None,
        }
    }

    /// The leader of a resource.
    fn read_leader(&self, most: &Geometry) -> Option<Action>
        ensures { result ≡ read_leader_in most.now self.now.lockspace self.now.resource self.now.hosts self.now.stretch }
    {
        match (self.lockspace, self.resource, self.hosts, self.stretch) {
            (None, Some(resource), None, None) => Some(Action::ReadLeader {
                resource: resource_of(resource, most)?,
                geometry: *most,
            }),
            _ => None,
        }
    }

    /// The sectors of a stretch.
    fn dump(&self, most: &Geometry) -> Option<Action>
        ensures { result ≡ dump_in most.now self.now.lockspace self.now.resource self.now.hosts self.now.stretch }
    {
        match (self.lockspace, self.resource, self.hosts, self.stretch) {
            (None, None, None, Some(stretch)) => {
                let stretch = stretch_of(stretch, most)?;
                Some(Action::Dump {
                    path: stretch.path,
                    offset: stretch.offset,
                    size: stretch.size,
                    geometry: *most,
                })
            }
            _ => None,
        }
    }

    /// An action of this name that has no format of its own.
    fn other(&self, name: &str, most: &Geometry) -> Option<Action>
        ensures { result ≡ other_in name.now most.now self.now.lockspace self.now.resource self.now.hosts self.now.stretch }
    {
        if name == "read_leader" {
            self.read_leader(most)
        } else if name == "dump" {
            self.dump(most)
        } else if name == "upgrade" {
            self.upgrade(most)
        } else {
            None
        }
    }

    /// The action that was asked for, if it is one.
    pub(crate) fn action(&self) -> Option<Action>
        ensures { result ≡ action_in self.now }
    {
        let name = self.action?;
        let most = sizes_said(self.geometry)?;
        if name == "init" {
            self.init(&most)
        } else {
            match self.format {
                None => self.other(name, &most),
                Some(_) => None,
            }
        }
    }
}

/// A seed, how many hosts and events there are, and whether areas have pairs.
#[derive(Drop)]
pub(crate) struct Seed {
    pub(crate) number: u64,
    pub(crate) hosts: u32,
    pub(crate) events: u64,
    pub(crate) paired: bool,
}

impl Model for Seed {
    ghost use Rattle.sl_cli.specs.CommandWords as words;

    ghost Value = { words.Seed };

    ghost view = { λ s. record { number = s.number; hosts = s.hosts; events = s.events; paired = s.paired } };
}

/// The words of a seed, of a number of hosts, of a number of events and of a format: each where it was given.
#[derive(Drop)]
pub(crate) struct Seeding<'a> {
    seed: Option<&'a str>,
    hosts: Option<&'a str>,
    events: Option<&'a str>,
    format: Option<&'a str>,
}

impl<'a> Model for Seeding<'a> {
    ghost use Rattle.sl_cli.specs.CommandWords as words;
    ghost use Rattle.std.specs.Prelude.{option_map};

    ghost Value = { words.Seeding };

    ghost view = { λ s. record {
      seed = option_map (λ w. w.now) s.seed;
      hosts = option_map (λ w. w.now) s.hosts;
      events = option_map (λ w. w.now) s.events;
      format = option_map (λ w. w.now) s.format;
    } };
}

/// The seed that a word says, if it says one.
fn seed_of(word: &str) -> Option<u64>
    ensures { result ≡ choose (is_seed word.now) (number_of word.now) }
{
    read_number_within(word.as_bytes(), 0, u64::MAX)
}

/// How many hosts a word says, 1 to 16, if it says so.
fn machines_of(word: &str) -> Option<u32>
    ensures exact { result ≡ choose (is_machine_count word.now) (number_of word.now) }
    ensures few { IfSome result (λ hosts. (1 ≤ hosts) × (hosts ≤ 16)) }
{
    let hosts = read_number_within(word.as_bytes(), 1, 16)?;
    Some(hosts as u32)
}

/// How many events a word says, at most a million, if it says so.
fn events_of(word: &str) -> Option<u64>
    ensures exact { result ≡ choose (is_event_count word.now) (number_of word.now) }
    ensures few { IfSome result (λ events. events ≤ 1000000) }
{
    read_number_within(word.as_bytes(), 0, 1_000_000)
}

/// Whether areas have pairs, by the word of a format, if it says so.
fn format_of(word: Option<&str>) -> Option<bool>
    ensures { let said = option_map (λ w. w.now) word.entry in result ≡ choose (is_format said) (is_some said) }
{
    paired_said(word)
}

impl<'a> Seeding<'a> {
    /// What the parser found.
    pub(crate) fn new(matches: &ArgMatches<'a>) -> Seeding<'a>
        ensures { result ≡ seeding_of (rows_of (found_of matches.now)) }
    {
        Seeding {
            seed: value_of(matches, "seed"),
            hosts: value_of(matches, "hosts"),
            events: value_of(matches, "events"),
            format: value_of(matches, "format"),
        }
    }

    /// What is asked for, if all but the format are given and each has its form.
    #[tactic(auto, using(crate::proofs::OptionValueLaws::no_second, crate::proofs::OptionValueLaws::no_third, crate::proofs::OptionValueLaws::no_fourth))]
    pub(crate) fn seed(&self) -> Option<Seed>
        ensures exact { result ≡ seeding_in self.now.seed self.now.hosts self.now.events self.now.format }
        ensures few { IfSome result (λ s. (1 ≤ s.hosts) × (s.hosts ≤ 16) × (s.events ≤ 1000000)) }
    {
        match (self.seed, self.hosts, self.events) {
            (Some(number), Some(hosts), Some(events)) => Some(Seed {
                number: seed_of(number)?,
                hosts: machines_of(hosts)?,
                events: events_of(events)?,
                paired: format_of(self.format)?,
            }),
            _ => None,
        }
    }
}

/// The number of a line that a word says, not below this one, if it says so.
fn line_of(word: &str, least: u64) -> Option<u64>
    ensures { result ≡ choose (is_line least word.now) (number_of word.now) }
{
    read_number_within(word.as_bytes(), least, u64::MAX)
}

/// The lines from one to another that is not before it, if two words say so.
fn part_of(first: &str, last: &str) -> Option<Words>
    ensures exact { result ≡ part_in first.now last.now }
    ensures can { IfSome result CanBeDone }
{
    let first = line_of(first, 1)?;
    let last = line_of(last, first)?;
    Some(Words::Draw { first, last })
}

impl<'a> Seeding<'a> {
    /// The lines that `draw` is to draw, which takes the words that `gen` would take, and none or two of them: all lines, or those from one to
    /// another.
    pub(crate) fn part(&self) -> Option<Words>
        ensures exact { result ≡ span_in self.now.seed self.now.hosts self.now.events self.now.format }
        ensures can { IfSome result CanBeDone }
    {
        match (self.seed, self.hosts, self.events, self.format) {
            (None, None, None, None) => Some(Words::Draw {
                first: 1,
                last: u64::MAX,
            }),
            (Some(first), Some(last), None, None) => part_of(first, last),
            _ => None,
        }
    }
}

/// Whether a flag was given, by what the parser keeps of it.
fn is_set(value: Option<&str>) -> bool
    ensures { result ≡ is_set (option_map (λ w. w.now) value.entry) }
{
    match value {
        Some(value) => value == "true",
        None => false,
    }
}

/// The word of a folder, where it was given, and which flags were.
#[derive(Drop)]
pub(crate) struct Placing<'a> {
    folder: Option<&'a str>,
    anew: bool,
    keeps: bool,
    events: bool,
}

impl<'a> Model for Placing<'a> {
    ghost use Rattle.sl_cli.specs.CommandWords as words;
    ghost use Rattle.std.specs.Prelude.{option_map};

    ghost Value = { words.Placing };

    ghost view = { λ p. record { folder = option_map (λ w. w.now) p.folder; anew = p.anew; keeps = p.keeps; events = p.events } };
}

impl<'a> Placing<'a> {
    /// What the parser found.
    pub(crate) fn new(matches: &ArgMatches<'a>) -> Placing<'a>
        ensures { result ≡ placing_of (rows_of (found_of matches.now)) }
    {
        Placing {
            folder: value_of(matches, "folder"),
            anew: is_set(value_of(matches, "anew")),
            keeps: is_set(value_of(matches, "keep-going")),
            events: is_set(value_of(matches, "events")),
        }
    }

    /// What is asked for, if a folder is given. An `Err` is want of memory.
    pub(crate) fn words(&self, alloc: Global) -> Result<Option<Words>, AllocError>
        ensures { IfOk result (λ words. words ≡ placed_in self.now) }
    {
        match self.folder {
            None => Ok(None),
            Some(word) => Ok(Some(Words::Live {
                folder: Folder::new(alloc, word)?,
                anew: self.anew,
                keeps: self.keeps,
                events: self.events,
            })),
        }
    }
}

/// The command that the parser met, with what was given to it.
#[derive(Drop)]
pub(crate) enum Met<'a> {
    Replay,
    Draw(Seeding<'a>),
    Generate(Seeding<'a>),
    Schedule(Seeding<'a>),
    Direct(Given<'a>),
    Live(Placing<'a>),
}

/// The command of this name that the parser met.
fn met_named<'a>(name: &str, matches: &ArgMatches<'a>) -> Option<Met<'a>>
    ensures { result ≡ named_met name.now (rows_of (found_of matches.now)) }
{
    if name == "replay" {
        Some(Met::Replay)
    } else if name == "draw" {
        Some(Met::Draw(Seeding::new(matches)))
    } else if name == "gen" {
        Some(Met::Generate(Seeding::new(matches)))
    } else if name == "schedule" {
        Some(Met::Schedule(Seeding::new(matches)))
    } else if name == "direct" {
        Some(Met::Direct(Given::new(matches)))
    } else if name == "live" {
        Some(Met::Live(Placing::new(matches)))
    } else {
        None
    }
}

/// The command that the parser met.
pub(crate) fn met_in<'a>(matches: &ArgMatches<'a>) -> Option<Met<'a>>
    ensures { result ≡ met_in (subcommand_rows_of matches.now) }
{
    let (name, matches) = matches.subcommand()?;
    met_named(name, matches)
}

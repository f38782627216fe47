//! One line of a header, as it is spelled; whether it may stand where it does is not said here.

ghost use Rattle.sl_report.specs.Languages.{whole_language};
ghost use Rattle.sl_report.specs.ReadLines.{header_line_in};
ghost use Rattle.sl_report.specs.HeaderLines as header_lines;
ghost use Rattle.sl_schedule.specs.HeaderReads.{header_seen, result_seen, HasHosts};
ghost use Rattle.sl_schedule.specs.Reads as reads;
ghost use Rattle.sl_text.specs.Forms.{exactly, words_of};
ghost use Rattle.sl_text.specs.Walks.{five_read, four_read, past_word, read_each, unread};
ghost use Rattle.sl_words.specs.Words.{first_of_list};
ghost use Rattle.std.specs.Option.{option_map};
ghost use Rattle.std.specs.Prelude.{codes, false, List, [], IfOk, IfSome, Some, ℕ, ◌<◌, ◌≡◌};
ghost use Rattle.std.specs.Result.{result_ok};

use crate::parts::{
    is_verb, next_kept, next_multiple, next_positive, next_reading, next_version, next_within,
};
use sl_run::{Disk, FirstReading, LockspaceLine, ResourceLine, SessionLine};
use sl_text::words::Words;

/// The times of a run, in milliseconds, and the drift in per mille, whatever their limits are.
#[derive(Clone, Copy)]
pub struct Times {
    pub io: u64,
    pub fire: u64,
    pub land: u64,
    pub rho: u64,
    pub grace: u64,
}

/// The bytes of a sector and the mebibytes of an area, whatever areas there are.
#[derive(Clone, Copy)]
pub struct AreaSizes {
    pub sector: u64,
    pub mebibytes: u64,
}

/// What a line of a header says, by its first word.
#[derive(Clone, Copy)]
pub enum HeaderLine {
    /// Whether each host's block has a pair of sectors.
    Version(bool),
    Times(Times),
    Machines(u32),
    Hosts(u64),
    Areas(AreaSizes),
    Retries(u32),
    Clock(FirstReading),
    Disk(Disk),
    Lockspace(LockspaceLine),
    Resource(ResourceLine),
    Session(SessionLine),
    Begin,
}

/// `sanlock 1`, or `sanlock 2` where areas have pairs.
fn read_version(words: &mut Words) -> Result<HeaderLine, usize>
    ensures hosts { IfOk result (λ l. HasHosts (header_seen l)) }
    ensures exact { result_seen result ≡ reads.one_read reads.version_part header_lines.VersionLine words.old }
{
    let paired = next_version(words)?;
    words.finish()?;
    Ok(HeaderLine::Version(paired))
}

/// `time IO FIRE LAND RHO GRACE`.
fn read_times(words: &mut Words) -> Result<HeaderLine, usize>
    ensures hosts { IfOk result (λ l. HasHosts (header_seen l)) }
    ensures exact { result_seen result
        ≡ five_read reads.number_part reads.number_part reads.number_part reads.number_part reads.number_part header_lines.TimeLine words.old }
{
    let io = words.number()?;
    let fire = words.number()?;
    let land = words.number()?;
    let rho = words.number()?;
    let grace = words.number()?;
    words.finish()?;
    Ok(HeaderLine::Times(Times {
        io,
        fire,
        land,
        rho,
        grace,
    }))
}

/// `hosts M`: the number of machines.
fn read_machines(words: &mut Words) -> Result<HeaderLine, usize>
    ensures hosts { IfOk result (λ l. HasHosts (header_seen l)) }
    ensures exact { result_seen result ≡ reads.one_read (reads.within_part 1 16) header_lines.HostsLine words.old }
{
    let machines = next_within(words, 1, 16)?;
    words.finish()?;
    Ok(HeaderLine::Machines(machines))
}

/// `ids N`: the number of host ids.
fn read_hosts(words: &mut Words) -> Result<HeaderLine, usize>
    ensures hosts { IfOk result (λ l. HasHosts (header_seen l)) }
    ensures exact { result_seen result ≡ reads.one_read reads.positive_part header_lines.IdsLine words.old }
{
    let hosts = next_positive(words)?;
    words.finish()?;
    Ok(HeaderLine::Hosts(hosts))
}

/// `geometry SECTOR MEBIBYTES`: the bytes of a sector and the mebibytes of an area.
fn read_areas(words: &mut Words) -> Result<HeaderLine, usize>
    ensures hosts { IfOk result (λ l. HasHosts (header_seen l)) }
    ensures exact { result_seen result ≡ reads.two_read reads.number_part reads.number_part header_lines.GeometryLine words.old }
{
    let sector = words.number()?;
    let mebibytes = words.number()?;
    words.finish()?;
    Ok(HeaderLine::Areas(AreaSizes { sector, mebibytes }))
}

/// `lvm N`: how often lvmlockd asks again.
fn read_retries(words: &mut Words) -> Result<HeaderLine, usize>
    ensures hosts { IfOk result (λ l. HasHosts (header_seen l)) }
    ensures exact { result_seen result ≡ reads.one_read (reads.kept_part 8) header_lines.LvmLine words.old }
{
    let retries = next_kept(words, 8)?;
    words.finish()?;
    Ok(HeaderLine::Retries(retries))
}

/// `clock M READING`.
fn read_clock(words: &mut Words) -> Result<HeaderLine, usize>
    ensures hosts { IfOk result (λ l. HasHosts (header_seen l)) }
    ensures exact { result_seen result
        ≡ reads.two_read reads.machine_part reads.reading_part (λ m r. header_lines.ClockLine (record { machine = m; reading = r })) words.old }
{
    let machine = words.positive_short_number()?;
    let reading = next_reading(words)?;
    words.finish()?;
    Ok(HeaderLine::Clock(FirstReading { machine, reading }))
}

/// `disk PATH MEBIBYTES`.
fn read_disk(words: &mut Words) -> Result<HeaderLine, usize>
    ensures hosts { IfOk result (λ l. HasHosts (header_seen l)) }
    ensures exact { result_seen result
        ≡ reads.two_read reads.path_part (reads.within_part 1 64) (λ p m. header_lines.DiskLine (record { path = p; mebibytes = m })) words.old }
{
    let path = words.path()?;
    let mebibytes = words.number_within(1, 64)?;
    words.finish()?;
    Ok(HeaderLine::Disk(Disk { path, mebibytes }))
}

/// `lockspace NAME PATH OFFSET`.
fn read_lockspace(words: &mut Words, area: u64) -> Result<HeaderLine, usize>
    requires { 0 < area }
    ensures hosts { IfOk result (λ l. HasHosts (header_seen l)) }
    ensures exact { result_seen result
        ≡ reads.three_read reads.name_part reads.path_part (reads.multiple_part area)
        (λ n p o. header_lines.AreaLine (record { name = n; path = p; offset = o })) words.old }
{
    let name = words.name()?;
    let path = words.path()?;
    let offset = next_multiple(words, area)?;
    words.finish()?;
    Ok(HeaderLine::Lockspace(LockspaceLine { name, path, offset }))
}

/// `resource LOCKSPACE NAME PATH OFFSET`.
fn read_resource(words: &mut Words, area: u64) -> Result<HeaderLine, usize>
    requires { 0 < area }
    ensures hosts { IfOk result (λ l. HasHosts (header_seen l)) }
    ensures exact { result_seen result
        ≡ four_read reads.name_part reads.name_part reads.path_part (reads.multiple_part area)
        (λ l n p o. header_lines.LeaseLine (record { lockspace = l; name = n; path = p; offset = o })) words.old }
{
    let lockspace = words.name()?;
    let name = words.name()?;
    let path = words.path()?;
    let offset = next_multiple(words, area)?;
    words.finish()?;
    Ok(HeaderLine::Resource(ResourceLine {
        lockspace,
        name,
        path,
        offset,
    }))
}

/// `session M LOCKSPACE ID NAME`.
fn read_session(words: &mut Words) -> Result<HeaderLine, usize>
    ensures hosts { IfOk result (λ l. HasHosts (header_seen l)) }
    ensures exact { result_seen result
        ≡ four_read reads.machine_part reads.name_part (reads.within_part 1 2000) reads.name_part
        (λ m l i n. header_lines.MemberLine (record { machine = m; lockspace = l; id = i; name = n })) words.old }
{
    let machine = words.positive_short_number()?;
    let lockspace = words.name()?;
    let id = next_within(words, 1, 2000)?;
    let name = words.name()?;
    words.finish()?;
    Ok(HeaderLine::Session(SessionLine {
        machine,
        lockspace,
        id,
        name,
    }))
}

/// `begin`.
fn read_begin(words: &mut Words) -> Result<HeaderLine, usize>
    ensures hosts { IfOk result (λ l. HasHosts (header_seen l)) }
    ensures exact { result_seen result ≡ read_each [] (λ _. header_lines.BeginLine) words.old }
{
    words.finish()?;
    Ok(HeaderLine::Begin)
}

/// Reads a line of a list, or `begin`, behind its verb, which is none of those before.
fn read_listed(area: u64, verb: &[u8], words: &mut Words) -> Result<HeaderLine, usize>
    requires { 0 < area }
    ensures hosts { IfOk result (λ l. HasHosts (header_seen l)) }
    ensures exact { (line : List ℕ) → Some verb.now ≡ first_of_list (words_of line) → words.old ≡ past_word (unread 32 line)
        → exactly (codes "sanlock") verb.now ≡ false → exactly (codes "time") verb.now ≡ false → exactly (codes "hosts") verb.now ≡ false
        → exactly (codes "ids") verb.now ≡ false → exactly (codes "geometry") verb.now ≡ false → exactly (codes "lvm") verb.now ≡ false
        → option_map header_seen (result_ok result) ≡ header_line_in whole_language area line }
{
    if is_verb(verb, b"clock") {
        return read_clock(words);
    }
    if is_verb(verb, b"disk") {
        return read_disk(words);
    }
    if is_verb(verb, b"lockspace") {
        return read_lockspace(words, area);
    }
    if is_verb(verb, b"resource") {
        return read_resource(words, area);
    }
    if is_verb(verb, b"session") {
        return read_session(words);
    }
    if is_verb(verb, b"begin") {
        return read_begin(words);
    }
    Err(words.column())
}

/// Reads a line behind its verb.
fn read_behind(area: u64, verb: &[u8], words: &mut Words) -> Result<HeaderLine, usize>
    requires { 0 < area }
    ensures hosts { IfOk result (λ l. HasHosts (header_seen l)) }
    ensures exact { (line : List ℕ) → Some verb.now ≡ first_of_list (words_of line) → words.old ≡ past_word (unread 32 line)
        → option_map header_seen (result_ok result) ≡ header_line_in whole_language area line }
{
    if is_verb(verb, b"sanlock") {
        return read_version(words);
    }
    if is_verb(verb, b"time") {
        return read_times(words);
    }
    if is_verb(verb, b"hosts") {
        return read_machines(words);
    }
    if is_verb(verb, b"ids") {
        return read_hosts(words);
    }
    if is_verb(verb, b"geometry") {
        return read_areas(words);
    }
    if is_verb(verb, b"lvm") {
        return read_retries(words);
    }
    read_listed(area, verb, words)
}

/// The header line that a line spells, where areas have so many bytes, if it spells one.
#[tactic(auto, using(crate::proofs::HeaderReadLaws::ok_is_some))]
pub fn header_line(area: u64, line: &[u8]) -> Option<HeaderLine>
    requires { 0 < area }
    ensures hosts { IfSome result (λ l. HasHosts (header_seen l)) }
    ensures exact { option_map header_seen result ≡ header_line_in whole_language area line.now }
{
    let mut words = Words::new(line);
    let verb = words.next_piece()?;
    read_behind(area, verb, &mut words).ok()
}

//! The header of a schedule, line by line.
//!
//! A header's lines stand in one order: the version, the times, the numbers of machines and of hosts, the sizes of areas, how often
//! lvmlockd asks again, clocks, disks, lockspaces, resources, sessions, and `begin`. A reader keeps the kind of the last line and what the
//! lines said, and stands for the list of lines so far (`Stands`): what it answers is what the definitions say of that list. Times and the
//! number of hosts are kept only within their limits, so that at `begin`, and not before, they make the times and the sizes of a run; else
//! a header could begin that no run has.

ghost use Rattle.sl_report.specs.Languages.{is_skipped, least_lines, most_lines};
ghost use Rattle.sl_report.specs.HeaderLines.{HeaderLine as Spelled, rank, ClockLine, DiskLine, AreaLine, GeometryLine, IdsLine, LeaseLine, MemberLine};
ghost use Rattle.sl_report.specs.HeaderRefusals.{header_tests, is_taken_place};
ghost use Rattle.sl_report.specs.Schedules.{is_begin};
ghost use Rattle.sl_run.specs.Worlds.{first_that};
ghost use Rattle.sl_schedule.specs.HeaderReads.{header_seen, HasHosts};
ghost use Rattle.sl_schedule.specs.HeadersSoFar as headers;
ghost use Rattle.sl_time.specs.Times.{IsTiming};
ghost use Rattle.std.specs.List.{list_all, list_any, range_with_len};
ghost use Rattle.std.specs.Option.{option_to_list};
ghost use Rattle.std.specs.Prelude.{bytes_eq, length, unwrap_or, IfNone, IfOk, IfSome, IsSome, List, OnErr, OnOk, Some, [], ◌<◌, ◌==◌, ◌&&◌, ◌||◌, ◌++◌, ◌∷◌, ◌≡◌, ◌≤◌};

use crate::area_sizes::{AREA, area_of, roomy, row_of, sizes_of, sizes_or};
use crate::header_line::{AreaSizes, HeaderLine, Times, header_line};
use crate::header_refusals::{
    has_clock, has_disk, has_resource, is_excluded, is_known, is_name_taken, is_on_disk, is_taken,
    times_refusal,
};
use sl_area::Geometry;
use sl_run::{Disk, FirstReading, Header, LockspaceLine, Refusal, ResourceLine, SessionLine};
use sl_text::{FilePath, Seq};
use sl_time::Timing;
use std::alloc::{AllocError, Global};
use std::marker::Model;
use std::mem;

/// The most hosts of a run.
const MOST_HOSTS: u32 = 2000;

/// What one more line makes of a header.
#[derive(Drop)]
pub enum Added {
    /// The header goes on: more lines must follow.
    More,
    /// The line was `begin`, and this is the whole header.
    Begun(Header),
    /// The line may not stand there, for this reason; the header is as before.
    Refused(Refusal),
}

/// A header that is read line by line.
#[derive(Drop)]
pub struct HeaderReader {
    alloc: Global,
    last: u32,
    version: Option<bool>,
    times: Option<Times>,
    machines: Option<u32>,
    hosts: Option<u32>,
    sizes: Option<Geometry>,
    retries: Option<u32>,
    clocks: Vec<FirstReading>,
    disks: Vec<Disk>,
    lockspaces: Vec<LockspaceLine>,
    resources: Vec<ResourceLine>,
    sessions: Vec<SessionLine>,
}

impl Model for HeaderReader {
    ghost use Rattle.sl_schedule.specs.HeadersSoFar.{ArePossible, HeaderSoFar, times_seen};
    ghost use Rattle.std.specs.Option.{option_map};

    ghost Value = { HeaderSoFar };

    ghost view = { λ r. record {
      last = r.last;
      version = r.version;
      times = option_map times_seen r.times;
      machines = r.machines;
      hosts = r.hosts;
      sizes = r.sizes;
      retries = r.retries;
      clocks = r.clocks.items;
      disks = r.disks.items;
      lockspaces = r.lockspaces.items;
      resources = r.resources.items;
      sessions = r.sessions.items;
    } };

    ghost invariant = { λ r. ArePossible r.version (option_map times_seen r.times) r.hosts r.sizes };
}

/// Where a line stands in the header's order: its kind, from 0 for the version to 11 for `begin`.
pub fn rank(line: &HeaderLine) -> u32
    ensures { result ≡ rank (header_seen line.now) }
{
    match line {
        HeaderLine::Version(_) => 0,
        HeaderLine::Times(_) => 1,
        HeaderLine::Machines(_) => 2,
        HeaderLine::Hosts(_) => 3,
        HeaderLine::Areas(_) => 4,
        HeaderLine::Retries(_) => 5,
        HeaderLine::Clock(_) => 6,
        HeaderLine::Disk(_) => 7,
        HeaderLine::Lockspace(_) => 8,
        HeaderLine::Resource(_) => 9,
        HeaderLine::Session(_) => 10,
        HeaderLine::Begin => 11,
    }
}

/// How many lines of the rank there must be.
fn least(rank: u32) -> usize
    ensures { result ≡ least_lines rank }
{
    match rank {
        4 | 5 | 6 | 9 | 10 => 0,
        _ => 1,
    }
}

/// How many lines of the rank there may be, if there is a most.
fn most(rank: u32) -> Option<usize>
    ensures { result ≡ most_lines rank }
{
    match rank {
        6 | 10 => None,
        7 | 8 => Some(8),
        9 => Some(256),
        _ => Some(1),
    }
}

/// Adds one more. After an `Err`, which is want of memory, they are as they were.
fn add<T: Copy>(items: &mut Vec<T>, item: T) -> Result<(), AllocError>
    ensures ok { OnOk result (items.new.items ≡ items.old.items ++ item ∷ []) }
    ensures err { OnErr result (items.new.items ≡ items.old.items) }
{
    items.push(item)?;
    Ok(())
}

/// Whether the line ends the header.
fn is_begin(line: &HeaderLine) -> bool
    ensures { result ≡ is_begin (header_seen line.now) }
{
    match line {
        HeaderLine::Begin => true,
        _ => false,
    }
}

/// Whether a line says nothing: it is empty, or begins with `#`.
pub fn is_skipped(line: &[u8]) -> bool
    ensures { result ≡ is_skipped line.now }
{
    match line.first() {
        Some(byte) => *byte == b'#',
        None => true,
    }
}

/// How many values there are.
fn count_of<T>(value: &Option<T>) -> usize
    ensures { result ≡ length (option_to_list value.now) }
{
    match value {
        Some(_) => 1,
        None => 0,
    }
}

/// The times of a run.
fn timing_of(times: &Times) -> Timing
    requires { IsTiming (headers.times_seen times.now).0 }
    ensures { result ≡ (headers.times_seen times.now).0 }
{
    match Timing::new(times.io, times.fire, times.land, times.rho) {
        Ok(timing) => timing,
        Err(_) => unreachable!(),
    }
}

impl HeaderReader {
    /// No line yet; it takes no memory.
    #[tactic(auto, using(crate::proofs::HeaderLaws::stands_at_first))]
    pub fn new(alloc: Global) -> HeaderReader
        ensures exact { result ≡ headers.no_lines }
        ensures stands { headers.Stands result [] }
    {
        HeaderReader {
            alloc,
            last: 0,
            version: None,
            times: None,
            machines: None,
            hosts: None,
            sizes: None,
            retries: None,
            clocks: Vec::new(alloc),
            disks: Vec::new(alloc),
            lockspaces: Vec::new(alloc),
            resources: Vec::new(alloc),
            sessions: Vec::new(alloc),
        }
    }

    /// How many lines of the rank there are.
    fn count(&self, rank: u32) -> usize
        ensures { result ≡ headers.count_at self.now rank }
    {
        match rank {
            0 => count_of(&self.version),
            1 => count_of(&self.times),
            2 => count_of(&self.machines),
            3 => count_of(&self.hosts),
            4 => count_of(&self.sizes),
            5 => count_of(&self.retries),
            6 => self.clocks.len(),
            7 => self.disks.len(),
            8 => self.lockspaces.len(),
            9 => self.resources.len(),
            10 => self.sessions.len(),
            _ => 0,
        }
    }

    /// Whether there are as many lines of the rank as there must be.
    fn has_least(&self, rank: u32) -> bool
        ensures { result ≡ headers.has_least self.now rank }
    {
        least(rank) <= self.count(rank)
    }

    /// Whether one more line of the rank may come.
    fn has_room(&self, rank: u32) -> bool
        ensures { result ≡ headers.has_room self.now rank }
    {
        match most(rank) {
            Some(most) => self.count(rank) < most,
            None => true,
        }
    }

    /// Whether all lines are there that must stand before the rank.
    fn has_all_before(&self, rank: u32) -> bool
        ensures { result ≡ list_all (headers.has_least self.now) (range_with_len 0 rank) }
    {
        (0..rank).all(|earlier| self.has_least(earlier))
    }

    /// Whether a line of the rank is in its place.
    fn is_in_place(&self, rank: u32) -> bool
        ensures { result ≡ headers.is_in_place self.now rank }
    {
        self.last <= rank && self.has_all_before(rank) && self.has_room(rank)
    }

    /// The number of hosts so far.
    fn hosts_now(&self) -> u32
        ensures { result ≡ (headers.sizes_now self.now).hosts }
    {
        match &self.sizes {
            Some(sizes) => sizes.hosts(),
            None => self.hosts.unwrap_or(0),
        }
    }

    /// The bytes of an area so far, by which the next line is read.
    pub fn area_now(&self) -> u64
        ensures exact { result ≡ (headers.sizes_now self.now).area }
        ensures some { 0 < result }
    {
        match &self.sizes {
            Some(sizes) => area_of(sizes),
            None => AREA,
        }
    }

    /// Whether areas have pairs so far.
    fn is_paired(&self) -> bool
        ensures exact { result ≡ (headers.sizes_now self.now).paired }
        ensures told { IsSome self.now.version → self.now.version ≡ Some result }
    {
        match &self.sizes {
            Some(sizes) => sizes.is_paired(),
            None => self.version.unwrap_or(false),
        }
    }

    /// Why a number of hosts may not be.
    #[tactic(auto, unfolding(sl_report::specs::HeaderRefusals::header_tests))]
    fn hosts_refusal(&self, hosts: u64) -> Option<Refusal>
        ensures exact { result ≡ first_that (header_tests (headers.header_now self.now) (IdsLine hosts)) }
        ensures few { IfNone result (1 ≤ hosts → IsSome self.now.version → headers.HostsAreFew self.now.version hosts) }
    {
        if u64::from(roomy(self.is_paired(), MOST_HOSTS)) < hosts {
            return Some(Refusal::LimitIds);
        }
        None
    }

    /// Why sizes of areas may not be.
    #[tactic(auto, unfolding(sl_report::specs::HeaderRefusals::header_tests))]
    fn areas_refusal(&self, areas: &AreaSizes) -> Option<Refusal>
        ensures { result ≡ first_that (header_tests (headers.header_now self.now) (GeometryLine areas.now.sector areas.now.mebibytes)) }
    {
        let Some((_, _, most)) = row_of(areas) else {
            return Some(Refusal::LimitGeometry);
        };
        if roomy(self.is_paired(), most) < self.hosts_now() {
            return Some(Refusal::LimitIds);
        }
        None
    }

    /// Whether an area begins there.
    fn is_taken(&self, path: &FilePath, offset: u64) -> bool
        ensures { result ≡ is_taken_place (headers.header_now self.now) path.now offset }
    {
        is_taken(&self.lockspaces, &self.resources, path, offset)
    }

    /// Why a clock line may not stand here.
    #[tactic(auto, unfolding(sl_report::specs::HeaderRefusals::header_tests))]
    fn clock_refusal(&self, clock: &FirstReading) -> Option<Refusal>
        ensures { result ≡ first_that (header_tests (headers.header_now self.now) (ClockLine clock.now)) }
    {
        if self.machines.unwrap_or(0) < clock.machine {
            return Some(Refusal::MissingMachine);
        }
        if has_clock(&self.clocks, clock.machine) {
            return Some(Refusal::MissingFree);
        }
        None
    }

    /// Why a disk line may not stand here.
    #[tactic(auto, unfolding(sl_report::specs::HeaderRefusals::header_tests))]
    fn disk_refusal(&self, disk: &Disk) -> Option<Refusal>
        ensures { result ≡ first_that (header_tests (headers.header_now self.now) (DiskLine disk.now)) }
    {
        if has_disk(&self.disks, &disk.path) {
            return Some(Refusal::MissingFree);
        }
        None
    }

    /// Why a lockspace line may not stand here.
    #[tactic(auto, unfolding(sl_report::specs::HeaderRefusals::header_tests))]
    fn lockspace_refusal(&self, line: &LockspaceLine) -> Option<Refusal>
        ensures { result ≡ first_that (header_tests (headers.header_now self.now) (AreaLine line.now)) }
    {
        if !is_on_disk(&self.disks, self.area_now(), &line.path, line.offset) {
            return Some(Refusal::MissingDisk);
        }
        if is_known(&self.lockspaces, &line.name) || self.is_taken(&line.path, line.offset) {
            return Some(Refusal::MissingFree);
        }
        None
    }

    /// Whether the resource has a line, or an area begins at its place.
    fn has_resource_or_place(&self, line: &ResourceLine) -> bool
        ensures { result ≡ (list_any (λ q. bytes_eq q.lockspace line.now.lockspace && bytes_eq q.name line.now.name) self.now.resources
            || is_taken_place (headers.header_now self.now) line.now.path line.now.offset) }
    {
        has_resource(&self.resources, line) || self.is_taken(&line.path, line.offset)
    }

    /// Why a resource line may not stand here.
    #[tactic(auto, unfolding(sl_report::specs::HeaderRefusals::header_tests))]
    fn resource_refusal(&self, line: &ResourceLine) -> Option<Refusal>
        ensures { result ≡ first_that (header_tests (headers.header_now self.now) (LeaseLine line.now)) }
    {
        if !is_on_disk(&self.disks, self.area_now(), &line.path, line.offset) {
            return Some(Refusal::MissingDisk);
        }
        if !is_known(&self.lockspaces, &line.lockspace) {
            return Some(Refusal::MissingLockspace);
        }
        if self.has_resource_or_place(line) {
            return Some(Refusal::MissingFree);
        }
        None
    }

    /// Why a session line may not stand here.
    #[tactic(auto, unfolding(sl_report::specs::HeaderRefusals::header_tests))]
    fn session_refusal(&self, line: &SessionLine) -> Option<Refusal>
        ensures { result ≡ first_that (header_tests (headers.header_now self.now) (MemberLine line.now)) }
    {
        if self.hosts_now() < line.id {
            return Some(Refusal::Syntax);
        }
        if self.machines.unwrap_or(0) < line.machine {
            return Some(Refusal::MissingMachine);
        }
        if !is_known(&self.lockspaces, &line.lockspace) {
            return Some(Refusal::MissingLockspace);
        }
        if is_excluded(&self.sessions, line) {
            return Some(Refusal::MissingFree);
        }
        if is_name_taken(&self.sessions, line) {
            return Some(Refusal::PremiseName);
        }
        None
    }

    /// Why what a line says is refused, wherever it stands.
    #[tactic(auto, unfolding(sl_report::specs::HeaderRefusals::header_tests))]
    fn value_refusal(&self, line: &HeaderLine) -> Option<Refusal>
        requires { HasHosts (header_seen line.now) }
        ensures exact { result ≡ first_that (header_tests (headers.header_now self.now) (header_seen line.now)) }
        ensures within { IfNone result (headers.IsWithin self.now (header_seen line.now)) }
    {
        match line {
            HeaderLine::Times(times) => times_refusal(times),
            HeaderLine::Hosts(hosts) => self.hosts_refusal(*hosts),
            HeaderLine::Areas(areas) => self.areas_refusal(areas),
            HeaderLine::Clock(clock) => self.clock_refusal(clock),
            HeaderLine::Disk(disk) => self.disk_refusal(disk),
            HeaderLine::Lockspace(line) => self.lockspace_refusal(line),
            HeaderLine::Resource(line) => self.resource_refusal(line),
            HeaderLine::Session(line) => self.session_refusal(line),
            HeaderLine::Version(_)
            | HeaderLine::Machines(_)
            | HeaderLine::Retries(_)
            | HeaderLine::Begin => None,
        }
    }

    /// Why a line is refused.
    fn refusal(&self, line: &HeaderLine) -> Option<Refusal>
        requires { HasHosts (header_seen line.now) }
        ensures exact { result ≡ headers.refusal_now self.now (header_seen line.now) }
        ensures possible { IfNone result (headers.IsPossible self.now (header_seen line.now)) }
    {
        if self.is_in_place(rank(line)) {
            self.value_refusal(line)
        } else {
            Some(Refusal::Syntax)
        }
    }

    /// Keeps the sizes of areas.
    fn keep_areas(&mut self, areas: &AreaSizes)
        requires { IsSome self.old.version }
        ensures { self.new ≡ headers.values_with self.old (GeometryLine areas.now.sector areas.now.mebibytes) }
    {
        self.sizes = sizes_of(areas, self.hosts_now(), self.is_paired());
    }

    /// Keeps what a line says. After an `Err`, which is want of memory, what was kept is as it was.
    fn keep_value(&mut self, line: HeaderLine) -> Result<(), AllocError>
        requires { headers.IsPossible self.old (header_seen line) }
        ensures ok { OnOk result (self.new ≡ headers.values_with self.old (header_seen line)) }
        ensures err { OnErr result (self.new ≡ self.old) }
    {
        match line {
            HeaderLine::Version(paired) => self.version = Some(paired),
            HeaderLine::Times(times) => self.times = Some(times),
            HeaderLine::Machines(machines) => self.machines = Some(machines),
            HeaderLine::Hosts(hosts) => self.hosts = Some(hosts as u32),
            HeaderLine::Areas(areas) => self.keep_areas(&areas),
            HeaderLine::Retries(retries) => self.retries = Some(retries),
            HeaderLine::Clock(clock) => return add(&mut self.clocks, clock),
            HeaderLine::Disk(disk) => return add(&mut self.disks, disk),
            HeaderLine::Lockspace(line) => return add(&mut self.lockspaces, line),
            HeaderLine::Resource(line) => return add(&mut self.resources, line),
            HeaderLine::Session(line) => return add(&mut self.sessions, line),
            HeaderLine::Begin => {}
        }
        Ok(())
    }

    /// Keeps a line. After an `Err`, which is want of memory, what was kept is as it was.
    fn keep(&mut self, line: HeaderLine) -> Result<(), AllocError>
        requires { headers.IsPossible self.old (header_seen line) }
        ensures ok { OnOk result (self.new ≡ headers.so_far_with self.old (header_seen line)) }
        ensures err { OnErr result (self.new ≡ self.old) }
    {
        let rank = rank(&line);
        self.keep_value(line)?;
        self.last = rank;
        Ok(())
    }

    /// The header that the lines make.
    fn into_header(self) -> Header
        requires times { IsSome self.times }
        requires hosts { IsSome self.hosts }
        ensures { result ≡ headers.header_now self }
    {
        let HeaderReader {
            alloc: _,
            last: _,
            version,
            times,
            machines,
            hosts,
            sizes,
            retries,
            clocks,
            disks,
            lockspaces,
            resources,
            sessions,
        } = self;
        let (Some(times), Some(hosts)) = (times, hosts) else {
            unreachable!()
        };
        Header {
            timing: timing_of(&times),
            grace: times.grace,
            machines: machines.unwrap_or(0),
            geometry: sizes_or(sizes, hosts, version.unwrap_or(false)),
            retries: retries.unwrap_or(0),
            clocks: Seq::new(clocks),
            disks: Seq::new(disks),
            lockspaces: Seq::new(lockspaces),
            resources: Seq::new(resources),
            sessions: Seq::new(sessions),
        }
    }

    /// The header that the lines make; the reader has no line then.
    fn finish(&mut self) -> Header
        requires times { IsSome self.old.times }
        requires hosts { IsSome self.old.hosts }
        ensures header { result ≡ headers.header_now self.old }
        ensures left { self.new ≡ headers.no_lines }
    {
        let next = HeaderReader::new(self.alloc);
        mem::replace(self, next).into_header()
    }

    /// Takes one more line, by what is kept of the lines so far.
    fn add_line(&mut self, line: &[u8]) -> Result<Added, AllocError>
        ensures hosts { IfSome self.old.hosts (headers.HostsAreFew self.old.version) }
        ensures exact { IfOk result (λ added. added ≡ headers.answer_now self.old line.now) }
        ensures kept { OnOk result (self.new ≡ headers.so_far_after self.old line.now) }
        ensures refused { IfOk result (λ added. headers.IsRefused added → self.new ≡ self.old) }
        ensures err { OnErr result (self.new ≡ self.old) }
    {
        let _ = &self.alloc;
        if is_skipped(line) {
            return Ok(Added::More);
        }
        let Some(read) = header_line(self.area_now(), line) else {
            return Ok(Added::Refused(Refusal::Syntax));
        };
        if let Some(why) = self.refusal(&read) {
            return Ok(Added::Refused(why));
        }
        if is_begin(&read) {
            return Ok(Added::Begun(self.finish()));
        }
        self.keep(read)?;
        Ok(Added::More)
    }

    /// Takes one more line. What is told is what the definitions say of the lines so far and this one: `More` where more lines must
    /// follow, also behind an empty line or a comment; `Begun` with the header at `begin`, after which another header may begin; or
    /// `Refused`, after which the lines are as before. An `Err` is want of memory, after which they are as before too.
    pub fn add(&mut self, line: &[u8]) -> Result<Added, AllocError>
        ensures exact { (ls : List Spelled) → headers.Stands self.old ls → IfOk result (λ added. added ≡ headers.answer_after ls line.now) }
        ensures stands { (ls : List Spelled) → headers.Stands self.old ls → OnOk result (headers.Stands self.new (headers.lines_after ls line.now)) }
        ensures refused { IfOk result (λ added. headers.IsRefused added → self.new ≡ self.old) }
        ensures err { OnErr result (self.new ≡ self.old) }
    {
        self.add_line(line)
    }
}

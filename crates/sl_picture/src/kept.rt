//! What is kept of a run for its picture.

ghost use Rattle.sl_picture.specs.Kept as kept;
ghost use Rattle.std.specs.List.{flat_map, position};
ghost use Rattle.std.specs.Option.{option_to_list};
ghost use Rattle.std.specs.Prelude.{IfOk, OnOk, find, fold, length, replicate, ◌++◌, ◌≡◌};

use crate::fates::{Act, Deed, Fate, NO_TEXT, becomes, deed_on, is_holding, is_link, is_waiting};
use crate::shapes::{Bar, Column, Instant, Lane, Mark, Note, Shape, Sign, Text};
use sl_drawing::{plus, times};
use sl_run::{FirstReading, Header, ResourceLine, SessionLine};
use std::alloc::{AllocError, Global};
use std::marker::Model;

/// Which lines of a schedule are drawn: from the first on, to the last. What holds before the first one is drawn as it stands there.
#[derive(Clone, Copy, Debug, PartialEq, Eq)]
pub struct Part {
    pub first: u64,
    pub last: u64,
}

/// A picture that is kept along a run.
#[derive(Drop)]
pub struct Picture {
    pub(crate) part: Part,
    /// The place on the axis, and the moment at which the picture begins.
    pub(crate) here: Instant,
    pub(crate) begun: u64,
    /// Whether the line that is taken is a reset.
    pub(crate) resetting: bool,
    pub(crate) texts: Vec<u8>,
    pub(crate) opened: Vec<Bar>,
    pub(crate) done: Vec<Bar>,
    pub(crate) marks: Vec<Mark>,
    pub(crate) columns: Vec<Column>,
    pub(crate) notes: Vec<Note>,
    pub(crate) lanes: Vec<Lane>,
    /// The resources of the header, each as its lockspace and its name with a colon between them.
    pub(crate) resources: Vec<Text>,
    /// The longest that a call of a command may take, and how long a host is silent before it counts as over, in milliseconds.
    pub(crate) io: u64,
    pub(crate) dead: u64,
}

impl Model for Picture {
    ghost use Rattle.sl_picture.specs.Kept.{Kept};

    ghost Value = { Kept };

    ghost view = { λ p. record {
      part = p.part;
      here = p.here;
      begun = p.begun;
      resetting = p.resetting;
      texts = p.texts.items;
      opened = p.opened.items;
      done = p.done.items;
      marks = p.marks.items;
      columns = p.columns.items;
      notes = p.notes.items;
      lanes = p.lanes.items;
      resources = p.resources.items;
      io = p.io;
      dead = p.dead;
    } };
}

/// The lane of no machine.
pub(crate) const NO_LANE: Lane = Lane {
    commands: 0,
    locks: false,
    reading: 0,
};

/// The lanes of so many machines.
fn new_lanes(alloc: Global, machines: u32) -> Result<Vec<Lane>, AllocError>
    ensures { IfOk result (λ lanes. lanes.items ≡ replicate machines kept.no_lane) }
{
    let mut lanes = Vec::new(alloc);
    for _ in 0..machines {
        lanes.push(NO_LANE)?;
    }
    Ok(lanes)
}

/// A part of the texts that are kept; nothing where they have no such part.
pub(crate) fn text_at(texts: &[u8], text: Text) -> &[u8]
    ensures { result.now ≡ kept.text_at texts.now text }
{
    if texts.len() < text.start {
        return b"";
    }
    let rest = texts.split_at(text.start).1;
    rest.split_at(text.len.min(rest.len())).0
}

/// Whether there is a machine of this number.
fn is_machine(lanes: &[Lane], machine: u64) -> bool
    ensures { result ≡ kept.is_machine lanes.now machine }
{
    0 < machine && machine <= lanes.len() as u64
}

/// The lane of a machine; that of none where there is none of this number.
pub(crate) fn lane_at(lanes: &[Lane], machine: u64) -> Lane
    ensures { result ≡ kept.lane_at lanes.now machine }
{
    if is_machine(lanes, machine) {
        lanes[machine as usize - 1]
    } else {
        NO_LANE
    }
}

/// What a machine's clock shows, in milliseconds.
pub(crate) fn reading_at(lanes: &[Lane], machine: u64) -> u64
    ensures { result ≡ kept.reading_at lanes.now machine }
{
    lane_at(lanes, machine).reading / 1000
}

/// Adds a bar, if it is one.
fn push_some(bars: &mut Vec<Bar>, bar: Option<Bar>) -> Result<(), AllocError>
    ensures { OnOk result (bars.new.items ≡ bars.old.items ++ option_to_list bar) }
{
    match bar {
        None => Ok(()),
        Some(bar) => {
            bars.push(bar)?;
            Ok(())
        }
    }
}

/// Whether a text that is kept is this.
fn is_text(texts: &[u8], text: Text, name: &[u8]) -> bool
    ensures { result ≡ kept.is_text texts.now text name.now }
{
    text_at(texts, text) == name
}

/// Which of the resources has this name.
fn place_of(texts: &[u8], resources: &[Text], name: &[u8]) -> Option<usize>
    ensures { result ≡ position (λ r. kept.is_text texts.now r name.now) resources.now }
{
    resources
        .iter()
        .position(|resource| is_text(texts, *resource, name))
}

/// The place of a resource in the header; 0 where it has none.
fn colour_of(texts: &[u8], resources: &[Text], name: &[u8]) -> u64
    ensures { result ≡ kept.colour_of texts.now resources.now name.now }
{
    match place_of(texts, resources, name) {
        Some(place) => place as u64,
        None => 0,
    }
}

/// Whether a bar stands in a row of a machine's holdings, or of its connections.
fn takes(bar: &Bar, machine: u64, holding: bool, row: u64) -> bool
    ensures { result ≡ kept.takes machine holding row bar.now }
{
    bar.machine == machine
        && bar.row == row
        && (if holding {
            is_holding(bar.shape)
        } else {
            is_link(bar.shape)
        })
}

/// Whether a row of a machine is taken by an open bar of a holding, or of a connection.
fn is_taken(opened: &[Bar], machine: u64, holding: bool, row: u64) -> bool
    ensures { result ≡ kept.is_taken opened.now machine holding row }
{
    opened.iter().any(|bar| takes(bar, machine, holding, row))
}

/// The first row of a machine that no open bar of a holding, or of a connection, takes.
fn free_row(opened: &[Bar], machine: u64, holding: bool) -> u64
    ensures { result ≡ kept.free_row opened.now machine holding }
{
    let mut row: u64 = 0;
    while row < opened.len() as u64 && is_taken(opened, machine, holding, row) {
        row += 1;
    }
    row
}

/// Whether a bar is that of a holding of the resource.
fn holds(texts: &[u8], bar: &Bar, name: &[u8]) -> bool
    ensures { result ≡ kept.holds texts.now name.now bar.now }
{
    is_holding(bar.shape) && is_text(texts, bar.name, name)
}

/// Whether somebody holds the resource.
fn is_held(texts: &[u8], opened: &[Bar], name: &[u8]) -> bool
    ensures { result ≡ kept.is_held texts.now opened.now name.now }
{
    opened.iter().any(|bar| holds(texts, bar, name))
}

/// Whether a bar is that of a command of the machine that has no answer: of this number, or of any where it is 0.
fn waits(bar: &Bar, machine: u64, number: u64) -> bool
    ensures { result ≡ kept.waits machine number bar.now }
{
    bar.machine == machine && is_waiting(bar.shape) && (number == 0 || number == bar.number)
}

/// Whether just one command of a machine has no answer.
fn is_alone(opened: &[Bar], machine: u64) -> bool
    ensures { result ≡ kept.is_alone opened.now machine }
{
    opened.iter().filter(|bar| waits(bar, machine, 0)).count() == 1
}

/// The first such command, if there is one.
fn first_waiting(opened: &[Bar], machine: u64, number: u64) -> Option<Bar>
    ensures { result ≡ find (kept.waits machine number) opened.now }
{
    opened
        .iter()
        .copied()
        .find(|bar| waits(bar, machine, number))
}

/// What it is about; nothing where there is none.
fn asked(opened: &[Bar], machine: u64, number: u64) -> Text
    ensures { result ≡ kept.asked opened.now machine number }
{
    match first_waiting(opened, machine, number) {
        Some(bar) => bar.name,
        None => NO_TEXT,
    }
}

impl Picture {
    /// A picture of a header's world in which nothing stands yet.
    fn empty(alloc: Global, part: Part, header: &Header) -> Result<Picture, AllocError>
        ensures { IfOk result (λ p. p ≡ kept.empty part header.now) }
    {
        Ok(Picture {
            part,
            here: Instant {
                events: 0,
                moment: 0,
            },
            begun: 0,
            resetting: false,
            texts: Vec::new(alloc),
            opened: Vec::new(alloc),
            done: Vec::new(alloc),
            marks: Vec::new(alloc),
            columns: Vec::new(alloc),
            notes: Vec::new(alloc),
            lanes: new_lanes(alloc, header.machines)?,
            resources: Vec::new(alloc),
            io: header.timing.io(),
            dead: header.timing.dead(),
        })
    }

    /// The clocks of a header.
    fn set_clocks(&mut self, clocks: &[FirstReading])
        ensures { self.new ≡ kept.clocks_set clocks.now self.old }
    {
        for clock in clocks {
            self.set_lane(
                u64::from(clock.machine),
                Lane {
                    reading: times(clock.reading, 1000),
                    ..NO_LANE
                },
            );
        }
    }

    /// A resource of a header.
    fn keep_resource(&mut self, line: &ResourceLine) -> Result<(), AllocError>
        ensures { OnOk result (self.new ≡ kept.with_resource self.old line.now) }
    {
        let mut name = Vec::from_slice(self.alloc(), line.lockspace.as_slice())?;
        name.extend_from_slice(b":")?;
        name.extend_from_slice(line.name.as_slice())?;
        let text = self.keep(&name)?;
        self.resources.push(text)?;
        Ok(())
    }

    /// The resources of a header.
    fn keep_resources(&mut self, lines: &[ResourceLine]) -> Result<(), AllocError>
        ensures { OnOk result (self.new ≡ fold kept.with_resource self.old lines.now) }
    {
        for line in lines {
            self.keep_resource(line)?;
        }
        Ok(())
    }

    /// A session of a header, whose connection expires so long behind the first reading.
    fn keep_session(&mut self, session: &SessionLine, fail: u64) -> Result<(), AllocError>
        ensures { OnOk result (self.new ≡ kept.with_session fail self.old session.now) }
    {
        let machine = u64::from(session.machine);
        let until = plus(reading_at(&self.lanes, machine), fail);
        self.begin_link(machine, Shape::Joined, session.lockspace.as_slice(), until)
    }

    /// The sessions of a header.
    fn keep_sessions(&mut self, sessions: &[SessionLine], fail: u64) -> Result<(), AllocError>
        ensures { OnOk result (self.new ≡ fold (kept.with_session fail) self.old sessions.now) }
    {
        for session in sessions {
            self.keep_session(session, fail)?;
        }
        Ok(())
    }

    /// A machine on which no daemon runs at first, if it is one.
    fn keep_idle(&mut self, machine: u64) -> Result<(), AllocError>
        ensures { OnOk result (self.new ≡ kept.with_idle machine self.old) }
    {
        if is_taken(&self.opened, machine, false, 0) {
            return Ok(());
        }
        let bar = self.bar(machine, Shape::Idle);
        self.begin(bar)
    }

    /// The machines on which no daemon runs at first.
    fn keep_idles(&mut self) -> Result<(), AllocError>
        ensures { OnOk result (self.new ≡ kept.idle_to (length self.old.lanes) self.old) }
    {
        for index in 0..self.lanes.len() {
            self.keep_idle(index as u64 + 1)?;
        }
        Ok(())
    }

    /// The picture of a header's world at moment 0, of which this part of the lines is drawn. An `Err` is want of memory.
    #[tactic(auto, unfolding(crate::specs::Kept::first_kept))]
    pub fn new(alloc: Global, part: Part, header: &Header) -> Result<Picture, AllocError>
        ensures { IfOk result (λ p. p ≡ kept.first_kept part header.now) }
    {
        let mut picture = Picture::empty(alloc, part, header)?;
        picture.set_clocks(header.clocks.as_slice());
        picture.keep_resources(header.resources.as_slice())?;
        picture.keep_sessions(header.sessions.as_slice(), header.timing.fail())?;
        picture.keep_idles()?;
        Ok(picture)
    }

    /// The memory that the picture takes is of this.
    pub(crate) fn alloc(&self) -> Global {
        *self.texts.allocator()
    }

    /// A machine's lane is this now.
    pub(crate) fn set_lane(&mut self, machine: u64, lane: Lane)
        ensures { self.new ≡ kept.with_lane machine lane self.old }
    {
        if is_machine(&self.lanes, machine) {
            self.lanes[machine as usize - 1] = lane;
        }
    }

    /// Keeps a text.
    pub(crate) fn keep(&mut self, text: &[u8]) -> Result<Text, AllocError>
        ensures place { IfOk result (λ t. t ≡ kept.place_of text.now self.old) }
        ensures texts { OnOk result (self.new ≡ kept.keeping text.now self.old) }
    {
        let start = self.texts.len();
        self.texts.extend_from_slice(text)?;
        Ok(Text {
            start,
            len: text.len(),
        })
    }

    /// A bar of this shape that begins now on a machine.
    pub(crate) fn bar(&self, machine: u64, shape: Shape) -> Bar
        ensures { result ≡ kept.bar machine shape self.now }
    {
        Bar {
            machine,
            shape,
            number: 0,
            until: 0,
            colour: 0,
            row: 0,
            from: self.here,
            to: self.here,
            name: NO_TEXT,
            text: NO_TEXT,
            reply: NO_TEXT,
        }
    }

    /// A bar begins.
    pub(crate) fn begin(&mut self, bar: Bar) -> Result<(), AllocError>
        ensures { OnOk result (self.new ≡ kept.begun_with bar self.old) }
    {
        self.opened.push(bar)?;
        Ok(())
    }

    /// A sign on a machine now.
    pub(crate) fn mark(&mut self, machine: u64, sign: Sign) -> Result<(), AllocError>
        ensures { OnOk result (self.new ≡ kept.marked machine sign self.old) }
    {
        self.marks.push(Mark {
            machine,
            sign,
            at: self.here,
        })?;
        Ok(())
    }

    /// What becomes of a bar where something happens to what has this name.
    fn fate_of(&self, act: Act, name: &[u8], bar: Bar) -> Fate
        ensures { result ≡ kept.fate_of act name.now self.now bar }
    {
        let same = is_text(&self.texts, bar.name, name);
        let reading = reading_at(&self.lanes, bar.machine);
        becomes(act, same, reading, self.here, bar)
    }

    /// Adds an open bar to which something happens, as it stays, and as it ends.
    #[tactic(auto, unfolding(crate::specs::Kept::stays_of, crate::specs::Kept::ends_of))]
    fn push_fate(
        &self,
        act: Act,
        name: &[u8],
        bar: Bar,
        stay: &mut Vec<Bar>,
        end: &mut Vec<Bar>,
    ) -> Result<(), AllocError>
        ensures stay { OnOk result (stay.new.items ≡ stay.old.items ++ kept.stays_of act name.now self.now bar) }
        ensures end { OnOk result (end.new.items ≡ end.old.items ++ kept.ends_of act name.now self.now bar) }
    {
        let fate = self.fate_of(act, name, bar);
        push_some(stay, fate.stays)?;
        push_some(end, fate.ends)
    }

    /// The open bars to which something happens, as they stay, and as they end.
    fn sort_out(&self, act: Act, name: &[u8]) -> Result<(Vec<Bar>, Vec<Bar>), AllocError>
        ensures stay { IfOk result (λ bars. bars.0.items ≡ flat_map (kept.stays_of act name.now self.now) self.now.opened) }
        ensures end { IfOk result (λ bars. bars.1.items ≡ flat_map (kept.ends_of act name.now self.now) self.now.opened) }
    {
        let mut stay = Vec::new(self.alloc());
        let mut end = Vec::new(self.alloc());
        for bar in &self.opened {
            self.push_fate(act, name, *bar, &mut stay, &mut end)?;
        }
        Ok((stay, end))
    }

    /// Something happens to open bars, of which those concerned may be of a thing of this name.
    #[tactic(auto, unfolding(crate::specs::Kept::happened))]
    pub(crate) fn happen(&mut self, act: Act, name: &[u8]) -> Result<(), AllocError>
        ensures { OnOk result (self.new ≡ kept.happened act name.now self.old) }
    {
        let (stay, end) = self.sort_out(act, name)?;
        self.done.extend_from_slice(&end)?;
        self.opened = stay;
        Ok(())
    }

    /// A connection begins.
    pub(crate) fn begin_link(
        &mut self,
        machine: u64,
        shape: Shape,
        lockspace: &[u8],
        until: u64,
    ) -> Result<(), AllocError>
        ensures { OnOk result (self.new ≡ kept.with_link machine shape lockspace.now until self.old) }
    {
        let name = self.keep(lockspace)?;
        let row = free_row(&self.opened, machine, false);
        let bar = self.bar(machine, shape);
        self.begin(Bar {
            name,
            row,
            until,
            ..bar
        })
    }

    /// A resource is granted on a machine, in this row: it is free no more.
    fn bridge(&mut self, machine: u64, row: u64, resource: &[u8]) -> Result<(), AllocError>
        ensures { OnOk result (self.new ≡ kept.bridging machine row resource.now self.old) }
    {
        let granted = deed_on(Deed::Granted, machine, 0);
        self.happen(Act { row, ..granted }, resource)
    }

    /// A holding begins; a resource that was free up to now is free no more.
    pub(crate) fn begin_holding(
        &mut self,
        machine: u64,
        shape: Shape,
        process: u64,
        resource: &[u8],
        instance: u64,
    ) -> Result<(), AllocError>
        ensures { OnOk result (self.new ≡ kept.with_holding machine shape process resource.now instance self.old) }
    {
        let row = free_row(&self.opened, machine, true);
        self.bridge(machine, row, resource)?;
        let colour = colour_of(&self.texts, &self.resources, resource);
        let name = self.keep(resource)?;
        let bar = self.bar(machine, shape);
        self.begin(Bar {
            number: process,
            until: instance,
            colour,
            row,
            name,
            ..bar
        })
    }

    /// The shape of a resource that is free from now on.
    fn gap(&self) -> Shape
        ensures { result ≡ kept.gap self.now }
    {
        if self.resetting {
            Shape::Wanted
        } else {
            Shape::Gap
        }
    }

    /// A holding has ended; if it was the last of its resource, that is free from now on.
    fn free(&mut self, machine: u64, resource: &[u8]) -> Result<(), AllocError>
        ensures { OnOk result (self.new ≡ kept.freed machine resource.now self.old) }
    {
        if is_held(&self.texts, &self.opened, resource) {
            return Ok(());
        }
        let name = self.keep(resource)?;
        let bar = self.bar(machine, self.gap());
        self.begin(Bar { name, ..bar })
    }

    /// A holding ends.
    pub(crate) fn end_holding(
        &mut self,
        machine: u64,
        process: u64,
        resource: &[u8],
    ) -> Result<(), AllocError>
        ensures { OnOk result (self.new ≡ kept.without_holding machine process resource.now self.old) }
    {
        self.happen(deed_on(Deed::Released, machine, process), resource)?;
        self.free(machine, resource)
    }

    /// A command is given: what it is about, and its text.
    pub(crate) fn begin_command(
        &mut self,
        machine: u64,
        locks: bool,
        about: &[u8],
        text: &[u8],
    ) -> Result<(), AllocError>
        ensures { OnOk result (self.new ≡ kept.with_command machine locks about.now text.now self.old) }
    {
        let lane = lane_at(&self.lanes, machine);
        let number = plus(lane.commands, 1);
        self.set_lane(
            machine,
            Lane {
                commands: number,
                locks: lane.locks || locks,
                ..lane
            },
        );
        let name = self.keep(about)?;
        let text = self.keep(text)?;
        let bar = self.bar(machine, Shape::Waiting);
        self.begin(Bar {
            number,
            row: lane.commands % 3,
            name,
            text,
            ..bar
        })
    }

    /// Somebody was refused what a command is about.
    fn deny(&mut self, about: Text) -> Result<(), AllocError>
        ensures { OnOk result (self.new ≡ kept.denied about self.old) }
    {
        let name = Vec::from_slice(self.alloc(), text_at(&self.texts, about))?;
        self.happen(deed_on(Deed::Denied, 0, 0), &name)
    }

    /// The command of this number, or each that waits where it is 0, ends as this.
    fn end_command(
        &mut self,
        machine: u64,
        number: u64,
        shape: Shape,
        reply: &[u8],
    ) -> Result<(), AllocError>
        ensures { OnOk result (self.new ≡ kept.command_ended machine number shape reply.now self.old) }
    {
        let reply = self.keep(reply)?;
        let answered = deed_on(Deed::Answered, machine, number);
        self.happen(
            Act {
                shape,
                reply,
                ..answered
            },
            b"",
        )
    }

    /// The command of this number, or the one that waits where it is 0, is answered.
    fn answer_one(
        &mut self,
        machine: u64,
        number: u64,
        ok: bool,
        reply: &[u8],
    ) -> Result<(), AllocError>
        ensures { OnOk result (self.new ≡ kept.one_answered machine number ok reply.now self.old) }
    {
        if ok {
            return self.end_command(machine, number, Shape::Accepted, reply);
        }
        let about = asked(&self.opened, machine, number);
        self.deny(about)?;
        self.end_command(machine, number, Shape::Refused, reply)
    }

    /// A command is answered. lvmlockd's asks take numbers too, and the report doesn't tell them: behind one of its lines a machine's answers are
    /// known only where one command waits.
    pub(crate) fn answer(
        &mut self,
        machine: u64,
        number: u64,
        ok: bool,
        reply: &[u8],
    ) -> Result<(), AllocError>
        ensures { OnOk result (self.new ≡ kept.answered machine number ok reply.now self.old) }
    {
        if !lane_at(&self.lanes, machine).locks {
            return self.answer_one(machine, number, ok, reply);
        }
        if is_alone(&self.opened, machine) {
            return self.answer_one(machine, 0, ok, reply);
        }
        self.end_command(machine, 0, Shape::Unclear, reply)
    }

    /// What came before is not shown: the picture begins here.
    pub(crate) fn hide(&mut self) -> Result<(), AllocError>
        ensures { OnOk result (self.new ≡ kept.hiding self.old) }
    {
        self.begun = self.here.moment;
        self.here = Instant {
            events: 0,
            moment: self.begun,
        };
        self.done.clear();
        self.marks.clear();
        self.columns.clear();
        self.notes.clear();
        self.happen(deed_on(Deed::Hidden, 0, 0), b"")
    }
}

//! What a line of a schedule means for the picture.

ghost use Rattle.sl_picture.specs.Events as events;
ghost use Rattle.std.specs.Prelude.{OnOk, length, ◌≡◌};

use crate::fates::{Deed, deed_on};
use crate::kept::{Picture, lane_at};
use crate::said::{
    is, next_word, number_at, number_in, push_two_parts, text_behind, word_at, words_behind,
};
use crate::shapes::{Bar, Instant, Lane, Shape, Sign};
use sl_drawing::{plus, times};
use std::alloc::AllocError;

/// What a line does, where it does something to what is drawn beside its lines of the report.
#[derive(Clone, Copy)]
pub(crate) enum Verb {
    Command,
    Do,
    Land,
    Tear,
    Answer,
    Drop,
    Start,
    Crash,
    Reset,
    Restart,
    Pass,
    Other,
}

/// The verb of a line.
#[tactic(auto, unfolding(crate::specs::Events::verb_of))]
fn verb_of(word: &[u8]) -> Verb
    ensures { result ≡ events.verb_of word.now }
{
    if is(word, b"command") {
        Verb::Command
    } else if is(word, b"do") {
        Verb::Do
    } else if is(word, b"land") {
        Verb::Land
    } else if is(word, b"tear") {
        Verb::Tear
    } else if is(word, b"answer") {
        Verb::Answer
    } else if is(word, b"drop") {
        Verb::Drop
    } else {
        machine_verb(word)
    }
}

/// The verb of a line about a machine or time.
fn machine_verb(word: &[u8]) -> Verb
    ensures { result ≡ events.machine_verb word.now }
{
    if is(word, b"start") {
        Verb::Start
    } else if is(word, b"crash") {
        Verb::Crash
    } else if is(word, b"reset") {
        Verb::Reset
    } else if is(word, b"restart") {
        Verb::Restart
    } else if is(word, b"pass") {
        Verb::Pass
    } else {
        Verb::Other
    }
}

/// How much a clock grows, in thousandths of a millisecond, by its word: as told, else as much as time.
fn growth_of(word: &[u8], time: u64) -> u64
    ensures { result ≡ events.growth_of time word.now }
{
    if word.is_empty() {
        times(time, 1000)
    } else {
        number_in(word)
    }
}

/// The lane whose clock has grown.
fn grown(lane: Lane, growth: u64) -> Lane
    ensures { result ≡ events.grown growth lane }
{
    Lane {
        reading: plus(lane.reading, growth),
        ..lane
    }
}

impl Picture {
    /// The clock of a machine goes on.
    fn grow_clock(&mut self, machine: u64, growth: u64)
        ensures { self.new ≡ events.clock_grown machine growth self.old }
    {
        let lane = lane_at(&self.lanes, machine);
        self.set_lane(machine, grown(lane, growth));
    }

    /// The clocks of all machines go on.
    fn grow_clocks(&mut self, line: &[u8], time: u64)
        ensures { self.new ≡ events.clocks_grown line.now time (length self.old.lanes) self.old }
    {
        let mut words = words_behind(line, 2);
        for index in 0..self.lanes.len() {
            let growth = growth_of(next_word(&mut words), time);
            self.grow_clock(index as u64 + 1, growth);
        }
    }

    /// Time passes on the axis.
    fn pass_time(&mut self, time: u64) -> Result<(), AllocError>
        ensures { OnOk result (self.new ≡ events.time_passed time self.old) }
    {
        let from = self.here;
        self.here = Instant {
            events: from.events,
            moment: plus(from.moment, time),
        };
        if 0 < time {
            let bar = self.bar(0, Shape::Passing);
            self.done.push(Bar { from, ..bar })?;
        }
        Ok(())
    }

    /// Time passes, and connections may expire by it.
    fn pass(&mut self, line: &[u8]) -> Result<(), AllocError>
        ensures { OnOk result (self.new ≡ events.passed line.now self.old) }
    {
        let time = number_at(line, 1);
        self.pass_time(time)?;
        self.grow_clocks(line, time);
        self.happen(deed_on(Deed::Ticked, 0, 0), b"")
    }

    /// A line is given to lvmlockd.
    fn locks_line(&mut self, line: &[u8]) -> Result<(), AllocError>
        ensures { OnOk result (self.new ≡ events.locks_line line.now self.old) }
    {
        let mut about = Vec::from_slice(self.alloc(), b":")?;
        about.extend_from_slice(word_at(line, 4))?;
        self.begin_command(number_at(line, 1), true, &about, text_behind(line, 3))
    }

    /// A command is given to the daemon.
    fn daemon_line(&mut self, line: &[u8]) -> Result<(), AllocError>
        ensures { OnOk result (self.new ≡ events.daemon_line line.now self.old) }
    {
        let mut about = Vec::new(self.alloc());
        push_two_parts(&mut about, word_at(line, 4))?;
        self.begin_command(number_at(line, 1), false, &about, text_behind(line, 2))
    }

    /// A command is given, maybe to lvmlockd.
    fn command(&mut self, line: &[u8]) -> Result<(), AllocError>
        ensures { OnOk result (self.new ≡ events.command line.now self.old) }
    {
        if is(word_at(line, 2), b"lvm") {
            self.locks_line(line)
        } else {
            self.daemon_line(line)
        }
    }

    /// A write is torn: behind the end of its daemon it is over.
    fn tear(&mut self, machine: u64, call: u64) -> Result<(), AllocError>
        ensures { OnOk result (self.new ≡ events.torn machine call self.old) }
    {
        self.mark(machine, Sign::Torn)?;
        self.happen(deed_on(Deed::Landed, machine, call), b"")
    }

    /// A call is answered so.
    fn answer_call(&mut self, machine: u64, call: u64, ok: bool) -> Result<(), AllocError>
        ensures { OnOk result (self.new ≡ events.call_answered machine call ok self.old) }
    {
        if !ok {
            self.mark(machine, Sign::CallFailed)?;
        }
        self.happen(deed_on(Deed::CallOver, machine, call), b"")
    }

    /// A write never lands.
    fn drop_call(&mut self, machine: u64, call: u64) -> Result<(), AllocError>
        ensures { OnOk result (self.new ≡ events.call_dropped machine call self.old) }
    {
        self.mark(machine, Sign::Dropped)?;
        self.happen(deed_on(Deed::CallOver, machine, call), b"")
    }

    /// Something happens to a whole machine: this to what is open there, and it has this sign.
    fn turn(&mut self, machine: u64, deed: Deed, sign: Sign) -> Result<(), AllocError>
        ensures { OnOk result (self.new ≡ events.turned machine deed sign self.old) }
    {
        self.mark(machine, sign)?;
        self.happen(deed_on(deed, machine, 0), b"")
    }

    /// Something happens to a whole machine, and it is down or without a daemon then.
    fn put_out(
        &mut self,
        machine: u64,
        deed: Deed,
        sign: Sign,
        shape: Shape,
    ) -> Result<(), AllocError>
        ensures { OnOk result (self.new ≡ events.put_out machine deed sign shape self.old) }
    {
        self.turn(machine, deed, sign)?;
        let bar = self.bar(machine, shape);
        self.begin(bar)
    }

    /// The machine goes down.
    fn reset(&mut self, machine: u64) -> Result<(), AllocError>
        ensures { OnOk result (self.new ≡ events.machine_reset machine self.old) }
    {
        self.resetting = true;
        self.put_out(machine, Deed::WentDown, Sign::Reset, Shape::Down)
    }

    /// What a line does to a call, which is named behind the machine.
    #[tactic(auto, unfolding(crate::specs::Events::call_seen))]
    fn see_call(&mut self, verb: Verb, line: &[u8]) -> Result<(), AllocError>
        ensures { OnOk result (self.new ≡ events.call_seen verb line.now self.old) }
    {
        let machine = number_at(line, 1);
        let call = number_at(line, 2);
        match verb {
            Verb::Do => self.answer_call(machine, call, true),
            Verb::Land => self.happen(deed_on(Deed::Landed, machine, call), b""),
            Verb::Tear => self.tear(machine, call),
            Verb::Answer => self.answer_call(machine, call, is(word_at(line, 3), b"ok")),
            Verb::Drop => self.drop_call(machine, call),
            _ => Ok(()),
        }
    }

    /// What it does to a machine.
    #[tactic(auto, unfolding(crate::specs::Events::machine_seen))]
    fn see_machine(&mut self, verb: Verb, machine: u64) -> Result<(), AllocError>
        ensures { OnOk result (self.new ≡ events.machine_seen verb machine self.old) }
    {
        match verb {
            Verb::Start => self.turn(machine, Deed::Started, Sign::Start),
            Verb::Crash => self.put_out(machine, Deed::Crashed, Sign::Crash, Shape::Idle),
            Verb::Reset => self.reset(machine),
            Verb::Restart => self.put_out(machine, Deed::CameUp, Sign::Restart, Shape::Idle),
            _ => Ok(()),
        }
    }

    /// What a line of the schedule means.
    #[tactic(auto, unfolding(crate::specs::Events::seen))]
    pub(crate) fn see(&mut self, line: &[u8]) -> Result<(), AllocError>
        ensures { OnOk result (self.new ≡ events.seen line.now self.old) }
    {
        self.resetting = false;
        let verb = verb_of(word_at(line, 0));
        match verb {
            Verb::Command => self.command(line),
            Verb::Pass => self.pass(line),
            Verb::Do | Verb::Land | Verb::Tear | Verb::Answer | Verb::Drop => {
                self.see_call(verb, line)
            }
            Verb::Start | Verb::Crash | Verb::Reset | Verb::Restart => {
                self.see_machine(verb, number_at(line, 1))
            }
            Verb::Other => Ok(()),
        }
    }
}

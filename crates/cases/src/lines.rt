//! Lines of schedules.

ghost use Rattle.sl_reader.specs.LineReads.{EndStands, no_line};
ghost use Rattle.std.specs.Prelude.{Some, ◌≡◌};

use crate::told::Told;
use crate::word_values::{number_at, short_at, word};
use sl_io::MemSource;
use sl_reader::{LineReader, Next, read_header};
use sl_run::{Event, Header, Refusal};
use sl_schedule::{event_line, line_refusal, next_event, push_refusal_line, push_test_line};
use sl_text::Seq;

/// Adds a line without the line feed at its end.
fn line_text(told: &mut Told, line: &[u8]) {
    told.bytes(line.strip_suffix(b"\n").unwrap_or(line));
}

/// What is done with a machine.
fn of_machine(told: &mut Told, done: &str, machine: u32) {
    told.said(done, u64::from(machine));
}

/// What is done with a call of a machine.
fn of_call(told: &mut Told, done: &str, machine: u32, call: u64) {
    told.said_two(done, u64::from(machine), call);
}

/// What is done with a process of a machine.
fn of_process(told: &mut Told, done: &str, machine: u32, process: u32) {
    told.said_two(done, u64::from(machine), u64::from(process));
}

/// An event that names a call and nothing else, or another event.
fn call_event(told: &mut Told, event: &Event) {
    match event {
        Event::Land { machine, call } => of_call(told, "land", *machine, *call),
        Event::Do { machine, call } => of_call(told, "do", *machine, *call),
        Event::DropWrite { machine, call } => of_call(told, "drop", *machine, *call),
        _ => machine_event(told, event),
    }
}

/// An event that names a machine and nothing else, or another event.
fn machine_event(told: &mut Told, event: &Event) {
    match event {
        Event::WakeUp { machine } => of_machine(told, "wake", *machine),
        Event::Test { machine } => of_machine(told, "test", *machine),
        Event::Crash { machine } => of_machine(told, "crash", *machine),
        Event::Reset { machine } => of_machine(told, "reset", *machine),
        Event::Restart { machine } => of_machine(told, "restart", *machine),
        _ => longer_call_event(told, event),
    }
}

/// A tear of a write.
fn tear_text(told: &mut Told, machine: u32, call: u64, kept: u64, bytes: &[u8]) {
    of_call(told, "tear", machine, call);
    let done = write!(told.text, " {kept} {bytes:?}").is_ok();
    told.need(done);
}

/// An event that says more of a call, or another event.
fn longer_call_event(told: &mut Told, event: &Event) {
    match event {
        Event::Sample {
            machine,
            call,
            sectors,
        } => {
            of_call(told, "sample", *machine, *call);
            told.number(*sectors);
        }
        Event::Tear {
            machine,
            call,
            kept,
            bytes,
        } => tear_text(told, *machine, *call, u64::from(*kept), bytes.as_slice()),
        Event::AnswerCall { machine, call, ok } => {
            of_call(told, "answer", *machine, *call);
            told.truth(*ok);
        }
        _ => longer_machine_event(told, event),
    }
}

/// An event that says more of a machine, or another event.
fn longer_machine_event(told: &mut Told, event: &Event) {
    match event {
        Event::GiveCommand { machine, text } => {
            of_machine(told, "command", *machine);
            told.quoted(text.as_slice());
        }
        Event::ExitOf { machine, process } => of_process(told, "exit", *machine, *process),
        Event::SpawnedOf {
            machine,
            process,
            ok,
        } => {
            of_process(told, "spawned", *machine, *process);
            told.truth(*ok);
        }
        Event::StartDaemon { machine, name } => {
            of_machine(told, "start", *machine);
            told.word(name.as_str());
        }
        _ => told.word("another event"),
    }
}

/// A passing of time.
fn pass_text(told: &mut Told, time: u64, growths: Option<&Seq<u64>>) {
    told.said("pass", time);
    if let Some(growths) = growths {
        let done = write!(told.text, " {:?}", growths.as_slice()).is_ok();
        told.need(done);
    }
}

/// What an event is.
fn event_text(told: &mut Told, event: &Event) {
    match event {
        Event::Pass { time, growths } => pass_text(told, *time, growths.as_ref()),
        _ => call_event(told, event),
    }
}

/// The event of a line, in a run of two machines.
pub fn event(told: &mut Told, text: &str) {
    match next_event(told.alloc, 2, 512, text.as_bytes()) {
        Ok(Some(event)) => event_text(told, &event),
        Ok(None) => told.word("none"),
        Err(_) => told.need(false),
    }
}

/// The line of a refusal.
fn refusal(told: &mut Told, number: u64, why: Refusal) {
    let mut line = Vec::new(told.alloc);
    told.need(push_refusal_line(&mut line, number, why).is_ok());
    line_text(told, &line);
}

/// The bytes of a schedule, in which `|` stands for a line feed.
fn source_of(told: &mut Told, text: &str) -> Vec<u8> {
    let mut source = Vec::new(told.alloc);
    for line in text.split('|') {
        told.need(source.extend_from_slice(line.as_bytes()).is_ok());
        told.need(source.push(b'\n').is_ok());
    }
    source
}

/// Some numbers of a header.
fn header_text(told: &mut Told, header: &Header) {
    told.said("io", header.timing.io());
    told.said("grace", header.grace);
    told.said("hosts", u64::from(header.machines));
    told.said("ids", u64::from(header.geometry.hosts()));
    told.said("disks", header.disks.len() as u64);
    told.said("sessions", header.sessions.len() as u64);
}

/// The number of an event's line, or why it is refused.
fn number_text(told: &mut Told, number: u64, refused: Option<Refusal>) {
    told.end(",");
    match refused {
        Some(why) => refusal(told, number, why),
        None => told.said("event", number),
    }
}

/// What the line that was read gives, if it says something.
fn tell_line(told: &mut Told, header: &Header, reader: &LineReader) {
    match event_line(told.alloc, header, &reader.line()) {
        Ok(Some((number, event))) => number_text(told, number, event.err()),
        Ok(None) => {}
        Err(_) => told.need(false),
    }
}

/// What the next line gives, if there is one.
fn tell_next(told: &mut Told, header: &Header, source: &mut MemSource, reader: &mut LineReader)
    requires { EndStands (Some source.old.left) reader.old }
    ensures { EndStands (Some source.new.left) reader.new }
{
    match reader.read_line(source) {
        Ok(Next::Line) => tell_line(told, header, reader),
        Ok(Next::Refused(why)) => number_text(told, reader.next_number(), Some(why)),
        Ok(Next::End) => {}
        Err(_) => told.need(false),
    }
}

/// What the lines behind a header give, of which there are fewer than of the text's.
fn tell_events(
    told: &mut Told,
    header: &Header,
    source: &mut MemSource,
    reader: &mut LineReader,
    text: &str,
)
    requires { EndStands (Some source.old.left) reader.old }
{
    header_text(told, header);
    for place in 0..text.split('|').count() {
        tell_next(told, header, source, reader);
    }
}

/// Some numbers of a header that is read from a source, and the numbers of the lines of its events; or what is refused.
fn tell_header(told: &mut Told, source: &mut MemSource, reader: &mut LineReader, text: &str)
    requires { reader.old ≡ no_line }
{
    match read_header(told.alloc, source, reader) {
        Ok(Ok(header)) => tell_events(told, &header, source, reader, text),
        Ok(Err((number, why))) => refusal(told, number, why),
        Err(_) => told.need(false),
    }
}

/// Some numbers of a schedule's header, and the numbers of the lines of its events; or what is refused. `|` stands for a line feed.
pub fn header(told: &mut Told, text: &str) {
    let bytes = source_of(told, text);
    let mut source = MemSource::new(bytes, Vec::new(told.alloc), Vec::new(told.alloc));
    match LineReader::new(told.alloc) {
        Ok(mut reader) => tell_header(told, &mut source, &mut reader, text),
        Err(_) => told.need(false),
    }
}

/// Whether a line that starts so far from the source's first byte and has so many bytes is refused, where the source goes on past its limit
/// or doesn't.
pub fn line(told: &mut Told, text: &str) {
    let is_past = word(text, 2) == "past";
    let refusal = line_refusal(number_at(text, 0), number_at(text, 1) as usize, is_past);
    told.word("refused");
    told.truth(refusal.is_some());
}

const REFUSALS: [Refusal; 27] = [
    Refusal::Syntax,
    Refusal::LimitIo,
    Refusal::LimitFire,
    Refusal::LimitLand,
    Refusal::LimitRho,
    Refusal::LimitGrace,
    Refusal::LimitMoment,
    Refusal::LimitBytes,
    Refusal::MissingMachine,
    Refusal::MissingDisk,
    Refusal::MissingLockspace,
    Refusal::MissingFree,
    Refusal::MissingUp,
    Refusal::MissingDown,
    Refusal::MissingReset,
    Refusal::MissingDaemon,
    Refusal::MissingCall,
    Refusal::MissingPlace,
    Refusal::MissingSample,
    Refusal::MissingFlight,
    Refusal::MissingLanding,
    Refusal::MissingSpawn,
    Refusal::PremiseName,
    Refusal::PremiseTorn,
    Refusal::PremiseDrift,
    Refusal::PremiseWatchdog,
    Refusal::PremiseLanding,
];

/// The last lines of reports, for each refusal one.
pub fn refusals(told: &mut Told) {
    for why in &REFUSALS {
        refusal(told, 12, *why);
        told.end(";");
    }
    told.end(" ");
}

/// The line of a watchdog daemon's test on a machine.
pub fn test(told: &mut Told, text: &str) {
    let mut line = Vec::new(told.alloc);
    let holds = word(text, 1) == "holds";
    told.need(push_test_line(&mut line, short_at(text, 0), holds).is_ok());
    line_text(told, &line);
}

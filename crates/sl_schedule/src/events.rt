//! The events of a schedule.
//!
//! A line's first word, its verb, decides how the rest is read; each verb has one form, but for a time that may have a growth for each
//! machine, and a torn write that may have bytes. `command` is apart: the rest of its line is the command, whatever it says, since it is
//! the daemon that answers a command which can't be read; where it begins with `lvm`, what stands behind that is a line for lvmlockd.

ghost use Rattle.sl_report.specs.Languages.{whole_language};
ghost use Rattle.sl_report.specs.ReadLines.{command_event, event_in};
ghost use Rattle.sl_report.specs.EventLines as event_lines;
ghost use Rattle.sl_schedule.specs.EventReads as forms;
ghost use Rattle.sl_schedule.specs.Reads as reads;
ghost use Rattle.sl_text.specs.Forms.{made_by, words_of};
ghost use Rattle.sl_text.specs.Numbers.{capped_long, is_number_text};
ghost use Rattle.sl_text.specs.Walks.{past_word};
ghost use Rattle.std.specs.Option.{option_map};
ghost use Rattle.std.specs.Prelude.{codes, IfOk, IfSome, ℕ, ◌∷◌, ◌≡◌};
ghost use Rattle.std.specs.Result.{result_ok};

use crate::parts::{is_verb, next_kept, next_ok, next_process};
use sl_run::Event;
use sl_text::hex::read_hex_bytes;
use sl_text::number::read_number;
use sl_text::words::Words;
use sl_text::{Bytes, Seq};
use std::alloc::{AllocError, Global};

/// Reads a number for each machine, and no more words.
fn read_growths(
    alloc: Global,
    machines: u32,
    words: &mut Words,
) -> Result<Option<Seq<u64>>, AllocError>
    ensures { IfOk result (λ growths. growths ≡ forms.each_word is_number_text capped_long machines words.old.words) }
{
    let mut growths = Vec::new(alloc);
    while let Some(word) = words.next_piece() {
        match read_number(word) {
            Some(growth) => growths.push(growth)?,
            None => return Ok(None),
        }
    }
    if growths.len() != machines as usize {
        return Ok(None);
    }
    Ok(Some(Seq::new(growths)))
}

/// `pass TIME`, and a growth for each machine where the clocks don't grow by the time itself.
fn read_pass(alloc: Global, machines: u32, words: &mut Words) -> Result<Option<Event>, AllocError>
    ensures { IfOk result (λ event. event ≡ result_ok (forms.pass_read machines words.old)) }
{
    let Ok(time) = words.number() else {
        return Ok(None);
    };
    if words.finish().is_ok() {
        return Ok(Some(Event::Pass {
            time,
            growths: None,
        }));
    }
    let Some(growths) = read_growths(alloc, machines, words)? else {
        return Ok(None);
    };
    Ok(Some(Event::Pass {
        time,
        growths: Some(growths),
    }))
}

/// Reads the number of a machine, and no more words.
#[tactic(auto, unfolding(crate::specs::Reads::alone))]
fn machine_alone(words: &mut Words) -> Option<u32>
    ensures { result ≡ reads.alone reads.machine_part words.old }
{
    let machine = words.positive_short_number().ok()?;
    words.finish().ok()?;
    Some(machine)
}

/// Reads a number above 0, and no more words.
#[tactic(auto, unfolding(crate::specs::Reads::alone))]
fn positive_alone(words: &mut Words) -> Option<u64>
    ensures { result ≡ reads.alone reads.positive_part words.old }
{
    let number = words.positive_number().ok()?;
    words.finish().ok()?;
    Some(number)
}

/// Reads whether something went well, and no more words.
#[tactic(auto, unfolding(crate::specs::Reads::alone))]
fn ok_alone(words: &mut Words) -> Option<bool>
    ensures { result ≡ reads.alone reads.ok_part words.old }
{
    let ok = next_ok(words).ok()?;
    words.finish().ok()?;
    Some(ok)
}

/// Reads the numbers of a machine and of one of its calls.
#[tactic(auto, unfolding(crate::specs::Reads::pair_in))]
fn next_call(words: &mut Words) -> Option<(u32, u64)>
    ensures exact { result ≡ reads.pair_in reads.machine_part reads.number_part words.old }
    ensures left { IfSome result (λ x. words.new ≡ past_word (past_word words.old)) }
{
    let machine = words.positive_short_number().ok()?;
    let call = words.number().ok()?;
    Some((machine, call))
}

/// Reads the numbers of a machine and of one of its processes.
#[tactic(auto, unfolding(crate::specs::Reads::pair_in))]
fn next_child(words: &mut Words) -> Option<(u32, u32)>
    ensures exact { result ≡ reads.pair_in reads.machine_part reads.process_part words.old }
    ensures left { IfSome result (λ x. words.new ≡ past_word (past_word words.old)) }
{
    let machine = words.positive_short_number().ok()?;
    let process = next_process(words).ok()?;
    Some((machine, process))
}

/// Reads the numbers of a machine and of one of its calls, and no more words.
fn call_alone(words: &mut Words) -> Option<(u32, u64)>
    ensures { result ≡ reads.pair_alone reads.machine_part reads.number_part (λ m c. (m, c)) words.old }
{
    let call = next_call(words)?;
    words.finish().ok()?;
    Some(call)
}

/// `wake M`.
fn read_wake(words: &mut Words) -> Option<Event>
    ensures { result ≡ option_map (λ m. Event.WakeUp m) (reads.alone reads.machine_part words.old) }
{
    let machine = machine_alone(words)?;
    Some(Event::WakeUp { machine })
}

/// `sample M CALL SECTORS`.
fn read_sample(words: &mut Words) -> Option<Event>
    ensures { result ≡ reads.pair_and_last reads.machine_part reads.number_part reads.positive_part (λ m c k. Event.Sample m c k) words.old }
{
    let (machine, call) = next_call(words)?;
    let sectors = positive_alone(words)?;
    Some(Event::Sample {
        machine,
        call,
        sectors,
    })
}

/// `land M CALL`.
fn read_land(words: &mut Words) -> Option<Event>
    ensures { result ≡ reads.pair_alone reads.machine_part reads.number_part (λ m c. Event.Land m c) words.old }
{
    let (machine, call) = call_alone(words)?;
    Some(Event::Land { machine, call })
}

/// Reads the bytes that a torn write leaves behind those of its own, if its line has them.
fn read_bytes(alloc: Global, sector: u32, words: &mut Words) -> Result<Option<Bytes>, AllocError>
    ensures { IfOk result (λ bytes. bytes ≡ forms.bytes_in sector words.old.words) }
{
    let Some(word) = words.next_piece() else {
        return Ok(Some(Bytes::new(Vec::new(alloc))));
    };
    if words.finish().is_err() {
        return Ok(None);
    }
    read_hex_bytes(alloc, word, 2, 2 * sector as usize)
}

/// `tear M CALL KEPT`, and bytes behind those that are kept.
fn read_tear(alloc: Global, sector: u32, words: &mut Words) -> Result<Option<Event>, AllocError>
    ensures { IfOk result (λ event. event ≡ forms.tear_in sector words.old) }
{
    let Some((machine, call)) = next_call(words) else {
        return Ok(None);
    };
    let Ok(kept) = next_kept(words, sector) else {
        return Ok(None);
    };
    let Some(bytes) = read_bytes(alloc, sector, words)? else {
        return Ok(None);
    };
    Ok(Some(Event::Tear {
        machine,
        call,
        kept,
        bytes,
    }))
}

/// `answer M CALL ok` or `answer M CALL failed`.
fn read_answer(words: &mut Words) -> Option<Event>
    ensures { result ≡ reads.pair_and_last reads.machine_part reads.number_part reads.ok_part (λ m c ok. Event.AnswerCall m c ok) words.old }
{
    let (machine, call) = next_call(words)?;
    let ok = ok_alone(words)?;
    Some(Event::AnswerCall { machine, call, ok })
}

/// `do M CALL`.
fn read_do(words: &mut Words) -> Option<Event>
    ensures { result ≡ reads.pair_alone reads.machine_part reads.number_part (λ m c. Event.Do m c) words.old }
{
    let (machine, call) = call_alone(words)?;
    Some(Event::Do { machine, call })
}

/// `drop M CALL`.
fn read_drop(words: &mut Words) -> Option<Event>
    ensures { result ≡ reads.pair_alone reads.machine_part reads.number_part (λ m c. Event.DropWrite m c) words.old }
{
    let (machine, call) = call_alone(words)?;
    Some(Event::DropWrite { machine, call })
}

/// `test M`.
fn read_test(words: &mut Words) -> Option<Event>
    ensures { result ≡ option_map (λ m. Event.Test m) (reads.alone reads.machine_part words.old) }
{
    let machine = machine_alone(words)?;
    Some(Event::Test { machine })
}

/// `exit M PROCESS`.
fn read_exit(words: &mut Words) -> Option<Event>
    ensures { result ≡ reads.pair_alone reads.machine_part reads.process_part (λ m p. Event.ExitOf m p) words.old }
{
    let (machine, process) = next_child(words)?;
    words.finish().ok()?;
    Some(Event::ExitOf { machine, process })
}

/// `spawned M PROCESS ok` or `spawned M PROCESS failed`.
fn read_spawned(words: &mut Words) -> Option<Event>
    ensures { result ≡ reads.pair_and_last reads.machine_part reads.process_part reads.ok_part (λ m p ok. Event.SpawnedOf m p ok) words.old }
{
    let (machine, process) = next_child(words)?;
    let ok = ok_alone(words)?;
    Some(Event::SpawnedOf {
        machine,
        process,
        ok,
    })
}

/// `start M NAME`.
fn read_start(words: &mut Words) -> Result<Event, usize>
    ensures { result ≡ reads.two_read reads.machine_part reads.name_part (λ m name. Event.StartDaemon m name) words.old }
{
    let machine = words.positive_short_number()?;
    let name = words.name()?;
    words.finish()?;
    Ok(Event::StartDaemon { machine, name })
}

/// `crash M`.
fn read_crash(words: &mut Words) -> Option<Event>
    ensures { result ≡ option_map (λ m. Event.Crash m) (reads.alone reads.machine_part words.old) }
{
    let machine = machine_alone(words)?;
    Some(Event::Crash { machine })
}

/// `reset M`.
fn read_reset(words: &mut Words) -> Option<Event>
    ensures { result ≡ option_map (λ m. Event.Reset m) (reads.alone reads.machine_part words.old) }
{
    let machine = machine_alone(words)?;
    Some(Event::Reset { machine })
}

/// `restart M`.
fn read_restart(words: &mut Words) -> Option<Event>
    ensures { result ≡ option_map (λ m. Event.Restart m) (reads.alone reads.machine_part words.old) }
{
    let machine = machine_alone(words)?;
    Some(Event::Restart { machine })
}

/// The event of a line whose verb is one of `pass` to `drop`.
fn read_early(
    alloc: Global,
    machines: u32,
    sector: u32,
    line: &[u8],
) -> Result<Option<Event>, AllocError>
    ensures { IfOk result (λ event. event ≡ made_by (forms.early_forms machines sector) (words_of line.now)) }
{
    let mut words = Words::new(line);
    let Some(verb) = words.next_piece() else {
        return Ok(None);
    };
    if is_verb(verb, b"pass") {
        return read_pass(alloc, machines, &mut words);
    }
    if is_verb(verb, b"wake") {
        return Ok(read_wake(&mut words));
    }
    if is_verb(verb, b"sample") {
        return Ok(read_sample(&mut words));
    }
    if is_verb(verb, b"land") {
        return Ok(read_land(&mut words));
    }
    if is_verb(verb, b"tear") {
        return read_tear(alloc, sector, &mut words);
    }
    if is_verb(verb, b"answer") {
        return Ok(read_answer(&mut words));
    }
    if is_verb(verb, b"do") {
        return Ok(read_do(&mut words));
    }
    if is_verb(verb, b"drop") {
        return Ok(read_drop(&mut words));
    }
    Ok(None)
}

/// The event of a line whose verb is one of `test` to `restart`.
fn read_late(line: &[u8]) -> Option<Event>
    ensures { (machines sector : ℕ) → result ≡ made_by (forms.late_forms machines sector) (words_of line.now) }
{
    let mut words = Words::new(line);
    let verb = words.next_piece()?;
    if is_verb(verb, b"test") {
        return read_test(&mut words);
    }
    if is_verb(verb, b"exit") {
        return read_exit(&mut words);
    }
    if is_verb(verb, b"spawned") {
        return read_spawned(&mut words);
    }
    if is_verb(verb, b"start") {
        return read_start(&mut words).ok();
    }
    if is_verb(verb, b"crash") {
        return read_crash(&mut words);
    }
    if is_verb(verb, b"reset") {
        return read_reset(&mut words);
    }
    if is_verb(verb, b"restart") {
        return read_restart(&mut words);
    }
    None
}

/// The event of a line that is no command.
fn read_form(
    alloc: Global,
    machines: u32,
    sector: u32,
    line: &[u8],
) -> Result<Option<Event>, AllocError>
    ensures { IfOk result (λ event. event ≡ made_by (event_lines.event_forms machines sector) (words_of line.now)) }
{
    match read_early(alloc, machines, sector, line)? {
        Some(event) => Ok(Some(event)),
        None => Ok(read_late(line)),
    }
}

/// The event of a text that is given to a machine: a line for lvmlockd behind `lvm` and a space, or a command.
fn read_given(alloc: Global, machine: u32, words: &mut Words) -> Result<Event, AllocError>
    ensures { IfOk result (λ event. event ≡ forms.given_read machine words.old.words) }
{
    let whole = words.rest();
    if words.skip(b"lvm") && words.finish().is_err() {
        let line = Bytes::from_slice(alloc, words.rest())?;
        return Ok(Event::GiveLvm { machine, line });
    }
    let text = Bytes::from_slice(alloc, whole)?;
    Ok(Event::GiveCommand { machine, text })
}

/// `command M`, and the text: the rest of the line, behind its space.
fn read_command(alloc: Global, words: &mut Words) -> Result<Option<Event>, AllocError>
    ensures { IfOk result (λ event. event ≡ command_event (codes "command" ∷ words.old.words)) }
{
    let Ok(machine) = words.positive_short_number() else {
        return Ok(None);
    };
    if words.finish().is_ok() {
        return Ok(None);
    }
    Ok(Some(read_given(alloc, machine, words)?))
}

/// Whether a torn write leaves no more bytes than a sector has.
fn is_event(sector: u32, event: &Event) -> bool
    ensures { result ≡ event_lines.is_event sector event.now }
{
    match event {
        Event::Tear { kept, bytes, .. } => {
            *kept <= sector && bytes.len() <= (sector - *kept) as usize
        }
        _ => true,
    }
}

/// The event, if its numbers go together.
fn checked_event(sector: u32, event: Option<Event>) -> Option<Event>
    ensures { result ≡ event_lines.checked_event sector event }
{
    let event = event?;
    if is_event(sector, &event) {
        Some(event)
    } else {
        None
    }
}

/// The event that a line spells, in a run of so many machines with sectors of so many bytes; None where it spells none. An `Err` is want
/// of memory.
pub fn next_event(
    alloc: Global,
    machines: u32,
    sector: u32,
    line: &[u8],
) -> Result<Option<Event>, AllocError>
    ensures { IfOk result (λ event. event ≡ event_in whole_language machines sector line.now) }
{
    let mut words = Words::new(line);
    if words.skip(b"command") {
        return read_command(alloc, &mut words);
    }
    let event = read_form(alloc, machines, sector, line)?;
    Ok(checked_event(sector, event))
}

//! An answer of a step: what it is at hand as is made ready before the step begins, then the host is told.
//!
//! A joining's read is one sector, which its session keeps: it is shared with the disk, or made of the bytes. Any other read is looked at where it is.
//!
//! The answer to a read of all ids may begin a recovery, so it reaches all that is held; any other reaches few things.

ghost use Rattle.sl_world_state.specs.Daemons.{read_of};
ghost use Rattle.sl_host_answers.specs.WholeAnswers.{FitsHeard, answer_of};
ghost use Rattle.sl_host_law.specs.Replies.Answers.{IsOpen};
ghost use Rattle.sl_host_state.specs.KeptState.{HostKept};
ghost use Rattle.sl_host_state.specs.declared.kept_parts.OpenCall.{OpenCall as OpenCallOf};
ghost use Rattle.sl_host_step.specs.Moments.{AtEnd, AtInput, HasStepped, StepComes};
ghost use Rattle.sl_host_step.specs.InputReach.{reach_at};
ghost use Rattle.sl_host_step.specs.StepMemory.{EndsWith, HasLeft, Suffices};
ghost use Rattle.sl_host_step.specs.SpareRoom.{Rests, takes_more};
ghost use Rattle.sl_host_step.specs.AwaitedCalls.{joins_at};
ghost use Rattle.sl_sector.specs.SectorLayouts.{IsSectorSize};
ghost use Rattle.sl_trace.specs.declared.input.Answer.TheVariants.{Read as ReadOf};
ghost use Rattle.sl_trace.specs.declared.input.Input.TheVariants.{Answer as Told};
ghost use Rattle.sl_host.specs.BookQuestions.{state_in};
ghost use Rattle.sl_host.specs.Host.{HostView};
ghost use Rattle.std.specs.Arc.{arc_value};
ghost use Rattle.std.specs.Prelude.{IfOk, IsOk, OnErr, OnOk, false, length, true, ℕ, ◌==◌, ◌≡◌, ◌≤◌};

use crate::step::{conclude, start};
use crate::step_memory::{Reach, Scratch};
use sl_host::Host;
use sl_host_answers::{Heard, answer};
use sl_lease::{SectorBytes, Sectors};
use sl_sector::{Image, Images};
use sl_text::Bytes;
use sl_trace::{Answer, Effects, Purpose};
use std::alloc::{AllocError, Global};
use std::sync::Arc;

/// Whether the call of this number is a joining's.
fn is_joining(host: &Host, number: u64) -> bool
    ensures { result ≡ joins_at host.now.kept number }
{
    match host.open_call(number) {
        Some(call) => match call.purpose {
            Purpose::Joining { .. } => true,
            _ => false,
        },
        None => false,
    }
}

/// How far the answer to the call of this number reaches.
fn reach_at(host: &Host, number: u64) -> Reach
    ensures { result ≡ reach_at host.now.kept number }
{
    match host.open_call(number) {
        Some(call) => match call.purpose {
            Purpose::Survey => Reach::All,
            _ => Reach::Few,
        },
        None => Reach::Few,
    }
}

/// The host is told, and does what that makes due.
#[tactic(auto, using(crate::proofs::AnswerPremises::can_answer, crate::proofs::AnswerSectors::few_effects, crate::proofs::AnswerSectors::few_calls, crate::proofs::MomentsFollow::answer_ends))]
fn take_answer<S: Sectors>(host: &mut Host, scratch: &mut Scratch, number: u64, heard: Heard<'_, S>)
    requires at { (now : ℕ) × (first : HostKept) × AtInput now (Told number (answer_of S.bytes heard)) first host.old.kept }
    requires fits { (c : OpenCallOf) → IsOpen (state_in host.old.kept) number c → FitsHeard S.bytes S.is_cut host.old.kept.config.sizes c heard }
    requires left { (first : HostView) × HasLeft (reach_at host.old.kept number) first host.old }
    requires scratch { Suffices scratch.old host.old }
    requires sizes { scratch.old.sizes ≡ host.old.kept.config.sizes }
    ensures at { (now : ℕ) (first : HostKept) → AtInput now (Told number (answer_of S.bytes heard.entry)) first host.old.kept → AtEnd now (Told number (answer_of S.bytes heard.entry)) first host.new.kept }
    ensures left { (first : HostView) → HasLeft (reach_at host.old.kept number) first host.old → EndsWith first host.new }
    ensures lists { host.new.seats ≤ scratch.new.members }
    ensures sizes { scratch.new.sizes ≡ scratch.old.sizes }
    ensures spare { scratch.new.spare ≡ scratch.old.spare }
{
    answer(
        host,
        &mut scratch.jobs,
        &mut scratch.spots,
        &mut scratch.blocks,
        number,
        heard,
    );
}

/// A step at an answer that is at hand so.
#[tactic(auto, using(crate::proofs::AnswerSectors::fits_still))]
fn step_heard<S: Sectors>(
    alloc: Global,
    host: &mut Host,
    scratch: &mut Scratch,
    now: u64,
    number: u64,
    heard: Heard<'_, S>,
) -> Result<Effects, AllocError>
    requires comes { StepComes now (Told number (answer_of S.bytes heard)) host.old.kept }
    requires fits { (c : OpenCallOf) → IsOpen (state_in host.old.kept) number c → FitsHeard S.bytes S.is_cut host.old.kept.config.sizes c heard }
    requires rests { Rests scratch.old host.old }
    requires sizes { scratch.old.sizes ≡ host.old.kept.config.sizes }
    ensures ok { IfOk result (λ fx. HasStepped now (Told number (answer_of S.bytes heard.entry)) host.old host.new fx) }
    ensures err { OnErr result (host.new ≡ host.old) }
    ensures rests { OnErr result (Rests scratch.new host.new) }
    ensures used { OnOk result (scratch.new.spare ≡ false) }
    ensures spared { scratch.old.spare ≡ true → IsOk result }
    ensures sizes { scratch.new.sizes ≡ scratch.old.sizes }
{
    let reach = reach_at(host, number);
    let is_loud = start(alloc, host, scratch, now, reach)?;
    take_answer(host, scratch, number, heard);
    Ok(conclude(alloc, host, scratch, is_loud))
}

/// A sector of its own with these bytes. An `Err` is want of memory.
fn copied_sector(alloc: Global, bytes: &Bytes) -> Result<Arc<Image>, AllocError>
    requires { IsSectorSize (length bytes.now) }
    ensures { IfOk result (λ image. arc_value image ≡ bytes.now) }
{
    let copy = Bytes::from_slice(alloc, bytes.as_slice())?;
    Ok(Arc::new(alloc, Image::of_bytes(copy))?)
}

/// A step at the answer ok of a read, whose bytes are these.
#[tactic(auto, using(crate::proofs::AnswerSectors::joining_sized))]
fn step_bytes(
    alloc: Global,
    host: &mut Host,
    scratch: &mut Scratch,
    now: u64,
    number: u64,
    bytes: &Bytes,
) -> Result<Effects, AllocError>
    requires comes { StepComes now (Told number (ReadOf bytes.now)) host.old.kept }
    requires rests { Rests scratch.old host.old }
    requires sizes { scratch.old.sizes ≡ host.old.kept.config.sizes }
    ensures ok { IfOk result (λ fx. HasStepped now (Told number (ReadOf bytes.now)) host.old host.new fx) }
    ensures err { OnErr result (host.new ≡ host.old) }
    ensures rests { OnErr result (Rests scratch.new host.new) }
    ensures used { OnOk result (scratch.new.spare ≡ false) }
    ensures spared { scratch.old.spare ≡ true → joins_at host.old.kept number ≡ false → IsOk result }
    ensures sizes { scratch.new.sizes ≡ scratch.old.sizes }
{
    if is_joining(host, number) {
        let sector = copied_sector(alloc, bytes)?;
        return step_heard::<SectorBytes<'_>>(
            alloc,
            host,
            scratch,
            now,
            number,
            Heard::Sector(sector),
        );
    }
    let sectors = SectorBytes {
        bytes: bytes.as_slice(),
    };
    step_heard(alloc, host, scratch, now, number, Heard::Sectors(&sectors))
}

/// A step at the answer of this call, at reading `now`. An `Err` is want of memory or of numbers, and changes nothing.
pub(crate) fn step_answer(
    alloc: Global,
    host: &mut Host,
    scratch: &mut Scratch,
    now: u64,
    number: u64,
    answer: &Answer,
) -> Result<Effects, AllocError>
    requires comes { StepComes now (Told number answer.now) host.old.kept }
    requires rests { Rests scratch.old host.old }
    requires sizes { scratch.old.sizes ≡ host.old.kept.config.sizes }
    ensures ok { IfOk result (λ fx. HasStepped now (Told number answer.now) host.old host.new fx) }
    ensures err { OnErr result (host.new ≡ host.old) }
    ensures rests { OnErr result (Rests scratch.new host.new) }
    ensures used { OnOk result (scratch.new.spare ≡ false) }
    ensures spared { scratch.old.spare ≡ true → takes_more host.old.kept (Told number answer.now) ≡ false → IsOk result }
    ensures sizes { scratch.new.sizes ≡ scratch.old.sizes }
{
    match answer {
        Answer::Read(bytes) => step_bytes(alloc, host, scratch, now, number, bytes),
        Answer::Written => step_heard::<SectorBytes<'_>>(
            alloc,
            host,
            scratch,
            now,
            number,
            Heard::Written,
        ),
        Answer::Failed => step_heard::<SectorBytes<'_>>(
            alloc,
            host,
            scratch,
            now,
            number,
            Heard::Failed,
        ),
    }
}

/// The one sector of a read, shared. An `Err` is want of memory.
fn only_sector(sectors: &Images) -> Result<Arc<Image>, AllocError>
    requires sized { IsSectorSize sectors.now.size }
    requires one { length sectors.now.bytes ≡ sectors.now.size }
    ensures { IfOk result (λ image. arc_value image ≡ sectors.now.bytes) }
{
    match sectors.sector(0) {
        Some(image) => Ok(image.clone()?),
        None => unreachable!(),
    }
}

/// Whether sectors are cut as a host's are.
fn is_cut_so(host: &Host, sectors: &Images) -> bool
    ensures { result ≡ (sectors.now.size == host.now.kept.config.sizes.sector) }
{
    sectors.size() == host.config().geometry.sector()
}

/// A step at sectors that are cut otherwise: their bytes are copied.
fn step_copied(
    alloc: Global,
    host: &mut Host,
    scratch: &mut Scratch,
    now: u64,
    number: u64,
    sectors: &Images,
) -> Result<Effects, AllocError>
    requires comes { StepComes now (read_of number sectors.now) host.old.kept }
    requires rests { Rests scratch.old host.old }
    requires sizes { scratch.old.sizes ≡ host.old.kept.config.sizes }
    ensures ok { IfOk result (λ fx. HasStepped now (read_of number sectors.now) host.old host.new fx) }
    ensures err { OnErr result (host.new ≡ host.old) }
    ensures rests { OnErr result (Rests scratch.new host.new) }
    ensures used { OnOk result (scratch.new.spare ≡ false) }
    ensures sizes { scratch.new.sizes ≡ scratch.old.sizes }
{
    let mut bytes = Vec::new(alloc);
    sectors.push_bytes(&mut bytes)?;
    step_bytes(alloc, host, scratch, now, number, &Bytes::new(bytes))
}

/// A step at the answer ok of a read, with its sectors as the world has them.
#[tactic(auto, using(crate::proofs::AnswerSectors::joining_long, crate::proofs::AnswerSectors::sector_fits))]
pub(crate) fn step_images(
    alloc: Global,
    host: &mut Host,
    scratch: &mut Scratch,
    now: u64,
    number: u64,
    sectors: &Images,
) -> Result<Effects, AllocError>
    requires comes { StepComes now (read_of number sectors.now) host.old.kept }
    requires rests { Rests scratch.old host.old }
    requires sizes { scratch.old.sizes ≡ host.old.kept.config.sizes }
    ensures ok { IfOk result (λ fx. HasStepped now (read_of number sectors.now) host.old host.new fx) }
    ensures err { OnErr result (host.new ≡ host.old) }
    ensures rests { OnErr result (Rests scratch.new host.new) }
    ensures used { OnOk result (scratch.new.spare ≡ false) }
    ensures spared { scratch.old.spare ≡ true → sectors.now.size ≡ host.old.kept.config.sizes.sector → joins_at host.old.kept number ≡ false → IsOk result }
    ensures sizes { scratch.new.sizes ≡ scratch.old.sizes }
{
    if !is_cut_so(host, sectors) {
        return step_copied(alloc, host, scratch, now, number, sectors);
    }
    if is_joining(host, number) {
        let sector = only_sector(sectors)?;
        return step_heard::<Images>(alloc, host, scratch, now, number, Heard::Sector(sector));
    }
    step_heard(alloc, host, scratch, now, number, Heard::Sectors(sectors))
}

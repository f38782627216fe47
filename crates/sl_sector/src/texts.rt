//! What is printed of a record, and of a refusal.

ghost use Rattle.std.specs.Prelude.{OnErr, OnOk, [], codes, decimal, flat_map, unwrap_or, ◌++◌, ◌∷◌, ◌≡◌};
ghost use Rattle.sl_sector.specs.Bitmaps as bitmaps;
ghost use Rattle.sl_sector.specs.FieldBytes as spec;
ghost use Rattle.sl_sector.specs.RecordTexts as texts;
ghost use Rattle.sl_text.specs.Forms.{spaced};
ghost use Rattle.sl_sector.specs.declared.sector.Rec.TheVariants.{BlockIs, DeltaIs, PairIs, RequestIs, ValueIs};

use crate::bits::bits_of;
use crate::sector::{Bad, Block, DeltaRec, DeltaState, Leader, PairBlock, Rec, Request, ValueRec};
use sl_text::Name;
use sl_text::number::push_number;
use std::alloc::AllocError;

/// As long are the texts of most records at most: only one with many bits is longer.
const MOST_TEXT: usize = 256;

/// How a leader's state is told: `held` or `free`.
fn held_word(held: bool) -> &'static str
    ensures { result.now ≡ texts.held_word held }
{
    if held { "held" } else { "free" }
}

/// Adds a word behind a space.
fn push_word(line: &mut Vec<u8>, word: &[u8]) -> Result<(), AllocError>
    ensures { OnOk result (line.new.items ≡ line.old.items ++ 32 ∷ word.now) }
{
    line.push(b' ')?;
    line.extend_from_slice(word)
}

/// Adds a number behind a space.
fn push_behind(line: &mut Vec<u8>, number: u64) -> Result<(), AllocError>
    ensures { OnOk result (line.new.items ≡ line.old.items ++ 32 ∷ decimal number) }
{
    line.push(b' ')?;
    push_number(line, number)
}

/// Adds a word and a number, each behind a space.
fn push_labelled(line: &mut Vec<u8>, label: &[u8], number: u64) -> Result<(), AllocError>
    ensures { OnOk result (line.new.items ≡ line.old.items ++ 32 ∷ (label.now ++ 32 ∷ decimal number)) }
{
    push_word(line, label)?;
    push_behind(line, number)
}

/// Adds the text of a leader.
fn push_leader(line: &mut Vec<u8>, leader: &Leader) -> Result<(), AllocError>
    ensures { OnOk result (line.new.items ≡ line.old.items ++ spaced (texts.leader_words leader.now)) }
{
    line.extend_from_slice(b"leader")?;
    push_labelled(line, b"lver", leader.lver)?;
    push_labelled(line, b"owner", u64::from(leader.owner))?;
    push_labelled(line, b"gen", leader.generation)?;
    push_word(line, held_word(leader.held).as_bytes())
}

/// Adds the text of a request.
fn push_request(line: &mut Vec<u8>, request: &Request) -> Result<(), AllocError>
    ensures { OnOk result (line.new.items ≡ line.old.items ++ texts.record_text (RequestIs request.now)) }
{
    line.extend_from_slice(b"request")?;
    push_labelled(line, b"lver", request.lver)?;
    push_labelled(line, b"force", u64::from(request.force))?;
    push_labelled(line, b"host", u64::from(request.host))
}

/// Adds the text of a value.
fn push_value(line: &mut Vec<u8>, value: &ValueRec) -> Result<(), AllocError>
    ensures { OnOk result (line.new.items ≡ line.old.items ++ texts.record_text (ValueIs value.now)) }
{
    line.extend_from_slice(b"value")?;
    push_labelled(line, b"lver", value.lver)?;
    push_labelled(line, b"seq", value.seq)?;
    push_labelled(line, b"len", value.bytes.as_slice().len() as u64)
}

/// A truth as a number.
fn flag(truth: bool) -> u32
    ensures { result ≡ spec.flag truth }
{
    u32::from(truth)
}

/// Adds the instance and the ballots of a block.
fn push_ballots(line: &mut Vec<u8>, block: &Block) -> Result<(), AllocError>
    ensures { OnOk result (line.new.items ≡ line.old.items ++ 32 ∷ spaced (codes "lver" ∷ decimal block.now.lver ∷ codes "mbal" ∷ decimal block.now.mbal ∷ codes "bal" ∷ decimal block.now.bal ∷ [])) }
{
    push_labelled(line, b"lver", block.lver)?;
    push_labelled(line, b"mbal", block.mbal)?;
    push_labelled(line, b"bal", block.bal)
}

/// Adds what a block tells behind its host: ballots, a value and a mode.
fn push_block_back(line: &mut Vec<u8>, block: &Block) -> Result<(), AllocError>
    ensures { OnOk result (line.new.items ≡ line.old.items ++ 32 ∷ spaced (texts.block_back block.now)) }
{
    push_ballots(line, block)?;
    push_labelled(line, b"inp", u64::from(block.inp))?;
    push_behind(line, block.inp_gen)?;
    push_labelled(line, b"mode", u64::from(flag(block.shared)))?;
    push_behind(line, block.mode_gen)?;
    Ok(())
}

/// Adds the text of a block.
fn push_block(line: &mut Vec<u8>, block: &Block) -> Result<(), AllocError>
    ensures { OnOk result (line.new.items ≡ line.old.items ++ texts.record_text (BlockIs block.now)) }
{
    line.extend_from_slice(b"block")?;
    push_behind(line, u64::from(block.host))?;
    push_block_back(line, block)
}

/// Adds the text of a block of a pair.
fn push_pair(line: &mut Vec<u8>, pair: &PairBlock) -> Result<(), AllocError>
    ensures { OnOk result (line.new.items ≡ line.old.items ++ texts.record_text (PairIs pair.now)) }
{
    line.extend_from_slice(b"block")?;
    push_behind(line, u64::from(pair.block.host))?;
    push_labelled(line, b"turn", pair.turn)?;
    push_block_back(line, &pair.block)
}

/// A delta record's state.
fn delta_word(state: DeltaState) -> &'static str
    ensures { result.now ≡ texts.delta_word state }
{
    match state {
        DeltaState::Free => "free",
        DeltaState::Claimed => "claim",
        DeltaState::Live => "live",
    }
}

/// The host's name, and a dash where it is absent.
fn host_word(host: &Option<Name>) -> &[u8]
    ensures { result.now ≡ texts.dash_for_none (unwrap_or host.now []) }
{
    match host {
        Some(name) => dash_for_none(name.as_slice()),
        None => b"-",
    }
}

/// A dash where there is nothing.
fn dash_for_none(text: &[u8]) -> &[u8]
    ensures { result.now ≡ texts.dash_for_none text.now }
{
    match text {
        [] => b"-",
        [_, ..] => text,
    }
}

/// Adds a number.
fn push_decimal(line: &mut Vec<u8>, number: u32) -> Result<(), AllocError>
    ensures { OnOk result (line.new.items ≡ line.old.items ++ decimal number) }
{
    push_number(line, u64::from(number))
}

/// Adds numbers, each behind a comma.
fn push_listed(line: &mut Vec<u8>, numbers: &[u32]) -> Result<(), AllocError>
    ensures { OnOk result (line.new.items ≡ line.old.items ++ flat_map (λ k. 44 ∷ decimal k) numbers.now) }
{
    for number in numbers {
        line.push(b',')?;
        push_decimal(line, *number)?;
    }
    Ok(())
}

/// Adds the bits, if any, behind a space.
fn push_bits(line: &mut Vec<u8>, bits: &[u32]) -> Result<(), AllocError>
    ensures { OnOk result (line.new.items ≡ line.old.items ++ flat_map (λ w. 32 ∷ w) (texts.bits_words bits.now)) }
{
    let Some((first, rest)) = bits.split_first() else {
        return Ok(());
    };
    line.extend_from_slice(b" bits ")?;
    push_decimal(line, *first)?;
    push_listed(line, rest)?;
    Ok(())
}

/// Adds the words of a delta record before the host's name.
fn push_delta_front(line: &mut Vec<u8>, delta: &DeltaRec) -> Result<(), AllocError>
    ensures { OnOk result (line.new.items ≡ line.old.items ++ spaced (texts.delta_front delta.now)) }
{
    line.extend_from_slice(b"delta")?;
    push_behind(line, u64::from(delta.id))?;
    push_labelled(line, b"gen", delta.generation)?;
    push_word(line, delta_word(delta.state).as_bytes())
}

/// Adds the words of a delta record behind the host's name, but for the bits.
fn push_delta_back(line: &mut Vec<u8>, delta: &DeltaRec) -> Result<(), AllocError>
    ensures { OnOk result (line.new.items ≡ line.old.items ++ 32 ∷ spaced (texts.delta_back delta.now)) }
{
    push_labelled(line, b"seq", delta.seq)?;
    push_labelled(line, b"stamp", delta.stamp)
}

/// Adds the text of a delta record whose bitmap has these bits.
fn push_delta_with(line: &mut Vec<u8>, delta: &DeltaRec, bits: &[u32]) -> Result<(), AllocError>
    requires { bits.now ≡ bitmaps.bits_of delta.now.bitmap }
    ensures { OnOk result (line.new.items ≡ line.old.items ++ texts.record_text (DeltaIs delta.now)) }
{
    push_delta_front(line, delta)?;
    push_word(line, host_word(&delta.host))?;
    push_delta_back(line, delta)?;
    push_bits(line, bits)?;
    Ok(())
}

/// Adds the text of a delta record.
fn push_delta(line: &mut Vec<u8>, delta: &DeltaRec) -> Result<(), AllocError>
    ensures { OnOk result (line.new.items ≡ line.old.items ++ texts.record_text (DeltaIs delta.now)) }
{
    let bits = bits_of(*line.allocator(), &delta.bitmap)?;
    push_delta_with(line, delta, &bits)
}

/// Adds the text of a record.
fn push_text(line: &mut Vec<u8>, record: &Rec) -> Result<(), AllocError>
    ensures { OnOk result (line.new.items ≡ line.old.items ++ texts.record_text «record».now) }
{
    match record {
        Rec::DeltaIs(delta) => push_delta(line, delta),
        Rec::LeaderIs(leader) => push_leader(line, leader),
        Rec::BlockIs(block) => push_block(line, block),
        Rec::RequestIs(request) => push_request(line, request),
        Rec::ValueIs(value) => push_value(line, value),
        Rec::PairIs(pair) => push_pair(line, pair),
        Rec::PairLeaderIs(leader) => push_leader(line, leader),
    }
}

/// Adds the text of a record. Where memory runs out, `out` stays as it was.
pub fn push_record_text(out: &mut Vec<u8>, record: &Rec) -> Result<(), AllocError>
    ensures ok { OnOk result (out.new.items ≡ out.old.items ++ texts.record_text «record».now) }
    ensures err { OnErr result (out.new.items ≡ out.old.items) }
{
    let mut text = Vec::with_capacity(*out.allocator(), MOST_TEXT)?;
    push_text(&mut text, record)?;
    out.extend_from_slice(&text)
}

/// Adds a refusal's name, and its offset.
fn push_at(line: &mut Vec<u8>, name: &[u8], at: u32) -> Result<(), AllocError>
    ensures { OnOk result (line.new.items ≡ line.old.items ++ (name.now ++ 32 ∷ decimal at)) }
{
    line.extend_from_slice(name)?;
    push_behind(line, u64::from(at))
}

/// Adds the text of a refusal.
fn push_bad(line: &mut Vec<u8>, bad: Bad) -> Result<(), AllocError>
    ensures { OnOk result (line.new.items ≡ line.old.items ++ texts.bad_text bad) }
{
    match bad {
        Bad::BadMagic => line.extend_from_slice(b"BadMagic"),
        Bad::BadKind => line.extend_from_slice(b"BadKind"),
        Bad::BadField(at) => push_at(line, b"BadField", at),
        Bad::BadPad(at) => push_at(line, b"BadPad", at),
        Bad::BadCheck => line.extend_from_slice(b"BadCheck"),
    }
}

/// Adds the text of a refusal. Where memory runs out, `out` stays as it was.
pub fn push_bad_text(out: &mut Vec<u8>, bad: Bad) -> Result<(), AllocError>
    ensures ok { OnOk result (out.new.items ≡ out.old.items ++ texts.bad_text bad) }
    ensures err { OnErr result (out.new.items ≡ out.old.items) }
{
    let mut text = Vec::new(*out.allocator());
    push_bad(&mut text, bad)?;
    out.extend_from_slice(&text)
}

//! The sectors of a shared disk: seven records, their rules, their bytes and their texts; and sectors kept with the records that they spell.
//!
//! `Rec::encode_into` writes the one spelling of a record over a sector, and `decode` gives the record that a sector's bytes spell, or
//! the first test that fails. Both are proved against one definition, the spelling: bytes spell at most one record, each record is
//! spelled, and reading gives a record exactly where the bytes spell it. A reader that took other bytes for a record would let a torn
//! write count as somebody's vote or claim.
//!
//! A program that replays a schedule writes most sectors itself: it knows what they spell. Such a sector is kept as its record (`Image`),
//! and seen as its bytes; its SHA-256 is worked out only where somebody wants the bytes. One that comes as bytes is read once, when it
//! comes. So what a sector spells is never worked out twice, and reads share sectors with the disk that they were sampled from (`Images`).
#![tactic(auto)]

mod bits;
mod block;
mod decoding;
mod delta;
mod encoding;
mod fields;
mod frame;
mod image;
mod images;
pub mod laws;
mod leader;
mod pair_bytes;
pub mod places;
mod request;
pub mod same;
pub mod sector;
mod texts;
mod value;

pub use decoding::decode;
pub use image::Image;
pub use images::Images;
pub use places::{
    block_in, delta_in, is_first_turn, leader_in, pair_in, pair_leader_in, request_in, value_in,
};
pub use same::same_record;
pub use sector::{
    Bad, Block, DeltaRec, DeltaState, Gen, HostId, Leader, Owner, PairBlock, Rec, Request, ValueRec,
};
pub use texts::{push_bad_text, push_record_text};

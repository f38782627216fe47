//! A watch over two ids, with io 100, fire 600, land 100 and rho 0.

ghost use Rattle.std.specs.Prelude.{◌≡◌};

use crate::records::sector_of;
use crate::told::Told;
use crate::word_values::{number_of, part, short_of};
use sl_alone::{saw, unchanged_for};
use sl_area::Geometry;
use sl_sector::Image;
use sl_text::Bytes;
use sl_time::Timing;
use sl_trace::{Evidence, HostState};
use sl_watch::Watch;
use std::alloc::Global;
use std::marker::Model;

/// A watch of a run with sectors of 512 bytes and two hosts.
#[derive(Drop)]
struct Pair {
    watch: Watch,
}

impl Model for Pair {
    ghost use Rattle.sl_watch.specs.Watches.{Watched};
    ghost use Rattle.std.specs.Prelude.{◌≡◌};

    ghost Value = { Watched };

    ghost view = { λ p. p.watch };

    ghost invariant = { λ p. (p.watch.sizes.sector ≡ 512) × (p.watch.sizes.hosts ≡ 2) };
}

impl Pair {
    /// A watch that has seen nothing.
    fn new(alloc: Global) -> Option<Pair> {
        let timing = Timing::new(100, 600, 100, 0).ok()?;
        let geometry = Geometry::new(512, 1_048_576, 2).ok()?;
        let watch = Watch::new(alloc, &timing, &geometry).ok()?;
        Some(Pair { watch })
    }

    /// Takes a look at an id's sector.
    fn saw(&mut self, told: &mut Told, before: u64, after: u64, id: u32, sector: &[u8; 512]) {
        match Bytes::from_slice(told.alloc, sector) {
            Ok(bytes) => {
                let image = Image::of_bytes(bytes);
                if 1 <= id && id <= 2 {
                    saw(&mut self.watch, before, after, id, &image);
                }
            }
            Err(_) => told.need(false),
        }
    }

    /// Why a generation of an id counts as over.
    fn over(&self, id: u32, generation: u64) -> Option<Evidence> {
        if 1 <= id && id <= 2 {
            self.watch.over(id, generation)
        } else {
            None
        }
    }

    /// How long an id stood still.
    fn unchanged(&self, id: u32) -> u64 {
        if 1 <= id && id <= 2 {
            unchanged_for(&self.watch, id)
        } else {
            0
        }
    }

    /// What an id looks like.
    fn status(&self, id: u32, now: u64) -> HostState {
        if 1 <= id && id <= 2 {
            self.watch.status(id, now)
        } else {
            HostState::Unknown
        }
    }
}

/// The sector that a word `NAME=..` of the text tells.
pub fn sector_named(text: &str, name: &str) -> [u8; 512] {
    for word in text.split(' ') {
        if part(word, '=', 0) == name {
            return sector_of(part(word, '=', 1));
        }
    }
    [0; 512]
}

/// Tells what shows that an id's session is over, or that nothing does.
fn evidence(told: &mut Told, over: Option<Evidence>) {
    match over {
        Some(Evidence::Newer { generation }) => told.said("newer", generation),
        Some(Evidence::Freed { generation }) => told.said("freed", generation),
        Some(Evidence::Silent { from, to }) => told.said_two("silent", from, to),
        None => told.word("none"),
    }
}

/// What an id looks like.
fn state(state: HostState) -> &'static str {
    match state {
        HostState::Unknown => "unknown",
        HostState::Free => "free",
        HostState::Dead => "dead",
        HostState::Failing => "failing",
        HostState::Live => "live",
    }
}

/// Takes the look that a word tells.
fn look(told: &mut Told, pair: &mut Pair, text: &str, word: &str) {
    pair.saw(
        told,
        number_of(part(word, ':', 1)),
        number_of(part(word, ':', 2)),
        short_of(part(word, ':', 3)),
        &sector_named(text, part(word, ':', 4)),
    );
}

/// What the watch tells at a word: `saw:BEFORE:AFTER:ID:NAME`, `over:ID:GENERATION`, `still:ID`, `status:ID:NOW`.
fn tell(told: &mut Told, pair: &mut Pair, text: &str, word: &str) {
    let (id, number) = (short_of(part(word, ':', 1)), number_of(part(word, ':', 2)));
    match part(word, ':', 0) {
        "saw" => return look(told, pair, text, word),
        "over" => evidence(told, pair.over(id, number)),
        "still" => told.number(pair.unchanged(id)),
        "status" => told.word(state(pair.status(id, number))),
        _ => return,
    }
    told.end(",");
}

/// What a watch tells at each word.
fn tell_all(told: &mut Told, pair: &mut Pair, text: &str) {
    for word in text.split(' ') {
        tell(told, pair, text, word);
    }
    told.end(" ");
}

/// What a watch tells that sees these sectors. A word `NAME=..` tells a sector.
pub fn watch(told: &mut Told, text: &str) {
    match Pair::new(told.alloc) {
        Some(mut pair) => tell_all(told, &mut pair, text),
        None => told.word("no run"),
    }
}

//! What lies under the lock: the sink with the front of the pieces that were put into it.

ghost use Rattle.sl_output.specs.Outputs.{HasPut, IsPut};
ghost use Rattle.sl_output.specs.Pieces.{Piece};
ghost use Rattle.std.specs.Prelude.{IfOk, List, OnErr, OnOk, Option, false, [], ℕ, ◌++◌, ◌∷◌, ◌≡◌};
ghost use mathlib.Core.List.{IsPrefix};

use crate::press::{Book, Front, Press, Seat, Signed};
use sl_book::Broken;
use sl_io::{Sink, write_all};
use sl_text::Bytes;
use std::marker::Model;

/// More pieces no output has.
const MOST_PIECES: u64 = 1 << 60;

/// A sink, the pieces that were put into it, and whether a write failed: then nothing more is written.
#[derive(Drop)]
pub(crate) struct Kept<K: Sink, O: Press> {
    sink: K,
    front: Front<O>,
    cut: bool,
}

impl<K: Sink, O: Press> Model for Kept<K, O> {
    ghost use Rattle.sl_output.specs.Outputs.{IsPut, KeptState};

    ghost Value = { KeptState K };

    ghost view = { λ k. record { sink = k.sink; front = k.front; cut = k.cut } };

    ghost invariant = { λ k. IsPut O.taken (K.taken k.sink) O.faults (K.faults k.sink) k.front k.cut };
}

/// Writes the text to the sink, unless it is cut, and says whether it is cut now.
#[tactic(auto, using(crate::proofs::OutputLaws::put_all, crate::proofs::OutputLaws::put_part, crate::proofs::OutputLaws::put_none))]
fn write_on<K: Sink>(sink: &mut K, cut: bool, text: &[u8]) -> bool
    ensures { (before : Option (List ℕ)) → (faults : ℕ) → (ps : List Piece) → (by : ℕ)
        → IsPut before (K.taken sink.old) faults (K.faults sink.old) ps cut
        → IsPut before (K.taken sink.new) faults (K.faults sink.new) (ps ++ record { by = by; entry = text.now } ∷ []) result }
{
    if cut {
        return true;
    }
    match write_all(sink, text) {
        Ok(()) => false,
        Err(_) => true,
    }
}

impl<K: Sink, O: Press> Kept<K, O> {
    /// A sink into which nothing was put yet.
    #[tactic(auto, using(crate::proofs::OutputLaws::put_nothing))]
    pub(crate) fn new(sink: K, front: &Front<O>) -> Kept<K, O>
        requires taken { K.taken sink ≡ O.taken }
        requires faults { K.faults sink ≡ O.faults }
        requires front { front.now ≡ [] }
        ensures { result ≡ record { sink = sink; front = []; cut = false } }
    {
        Kept {
            sink,
            front: front.again(),
            cut: false,
        }
    }

    /// The front of the pieces with this one behind them, if it could be added to the book.
    fn added(&self, book: &Book<O>, seat: &Seat<O>, signed: &Signed) -> Result<Front<O>, Broken>
        ensures added { IfOk result (λ f. f ≡ self.now.front ++ signed.now ∷ []) }
        ensures seen { OnOk result (IsPrefix seat.now.front self.now.front) }
    {
        if !seat.is_behind(&self.front) || self.front.len() >= MOST_PIECES {
            return Err(Broken);
        }
        let mut front = self.front.again();
        if front.add(book, signed) {
            Ok(front)
        } else {
            Err(Broken)
        }
    }

    /// Puts a piece of text out behind the others.
    pub(crate) fn put(
        &mut self,
        book: &Book<O>,
        seat: &mut Seat<O>,
        text: Bytes,
    ) -> Result<(), Broken>
        ensures put { OnOk result (HasPut seat.old seat.new text) }
        ensures front { OnOk result (self.new.front ≡ seat.new.front) }
        ensures broken { OnErr result ((self.new ≡ self.old) × (seat.new ≡ seat.old)) }
    {
        let signed = Signed {
            by: seat.by(),
            entry: text,
        };
        let front = self.added(book, seat, &signed)?;
        seat.gave(&front, &signed);
        self.cut = write_on(&mut self.sink, self.cut, signed.entry.as_slice());
        self.front = front;
        Ok(())
    }

    /// The sink, all pieces, and whether a write failed.
    pub(crate) fn into_parts(self) -> (K, Front<O>, bool)
        ensures parts { (result.0 ≡ self.sink) × (result.1 ≡ self.front) × (result.2 ≡ self.cut) }
        ensures put { IsPut O.taken (K.taken result.0) O.faults (K.faults result.0) result.1 result.2 }
    {
        let Kept { sink, front, cut } = self;
        (sink, front, cut)
    }
}

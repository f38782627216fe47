//! The output: a sink under its lock, shared by the threads that put text into it.

ghost use Rattle.sl_output.specs.Outputs.{HasPut, IsPut};
ghost use Rattle.std.specs.Prelude.{OnErr, OnOk, [], ◌≡◌};

use crate::kept::Kept;
use crate::press::{Book, Front, Opened, Press, Seat};
use sl_book::Broken;
use sl_io::Sink;
use sl_text::Bytes;
use std::sync::{Mutex, Wait};

/// A sink under its lock, and the book of the pieces that were put into it.
#[derive(Drop)]
pub struct Output<K: Sink, O: Press> {
    book: Book<O>,
    kept: Mutex<Kept<K, O>>,
}

/// A sink, the pieces that were put into it, and whether a write failed.
#[derive(Drop)]
pub struct Put<K: Sink, O: Press> {
    pub sink: K,
    pub front: Front<O>,
    pub cut: bool,
}

impl<K: Sink, O: Press> Output<K, O> {
    /// An output into this sink, into which nothing was put yet, and the front of one who has seen nothing. It takes no memory.
    pub fn new(sink: K, opened: Opened) -> (Output<K, O>, Front<O>)
        requires book { opened.seen.book ≡ O.book }
        requires taken { K.taken sink ≡ O.taken }
        requires faults { K.faults sink ≡ O.faults }
        ensures { result.1 ≡ [] }
    {
        let (book, front) = opened.named::<O>();
        let kept = Kept::new(sink, &front);
        let output = Output {
            book,
            kept: Mutex::new(kept),
        };
        (output, front)
    }

    /// The seat of a thread with this number, which put nothing and has seen so much. It takes no memory.
    pub fn seat(&self, by: u32, front: &Front<O>) -> Seat<O>
        ensures { result ≡ record { by = by; count = 0; taken = 0; front = front.now } }
    {
        Seat::new(by, front.again())
    }

    /// Puts a piece of text out behind the others. With `Ok` the seat has put it: it is the last piece of what the seat has seen now, and the sink has
    /// taken it, unless this write failed or one before it. After a failed write nothing is written any more, and pieces are counted on.
    /// `Broken` says that the seat or the book has seen more pieces than the output, or that it has 2^60; the seat is as it was then.
    pub fn put<R: Wait>(&self, rt: &R, seat: &mut Seat<O>, text: Bytes) -> Result<(), Broken>
        ensures put { OnOk result (HasPut seat.old seat.new text) }
        ensures broken { OnErr result (seat.new ≡ seat.old) }
    {
        self.kept.lock(rt).put(&self.book, seat, text)
    }

    /// The sink, all pieces, and whether a write failed.
    pub fn into_parts(self) -> Put<K, O>
        ensures { IsPut O.taken (K.taken result.sink) O.faults (K.faults result.sink) result.front result.cut }
    {
        let Output { book: _, kept } = self;
        let (sink, front, cut) = kept.into_inner().into_parts();
        Put { sink, front, cut }
    }
}

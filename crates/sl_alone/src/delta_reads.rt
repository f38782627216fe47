//! What a read of all delta sectors tells a lease, and how long an answer is.

ghost use Rattle.sl_alone.specs.DeltaSteps.{FitsRead, IsWholeRead, is_other, shows_other};
ghost use Rattle.sl_area.specs.AreaLayout.{delta_of as delta_at};
ghost use Rattle.sl_area.specs.AreaSizes.{layout_of};
ghost use Rattle.sl_words.specs.Words.{some_is};
ghost use Rattle.std.specs.Prelude.{IsTrue, bytes_eq, length, ◌*◌, ◌≡◌};

use sl_delta::OwnSector;
use sl_sector::{DeltaRec, decode, delta_in};
use sl_text::Name;
use sl_trace::Answer;

/// Whether the record names this host.
fn is_named(host: &Option<Name>, name: &Name) -> bool
    ensures { result ≡ some_is (λ n. bytes_eq n name.now) host.now }
{
    match host {
        Some(host) => host.as_slice() == name.as_slice(),
        None => false,
    }
}

/// The record of the own id that a read of all delta sectors gave.
fn own_record(own: &OwnSector, bytes: &[u8]) -> Option<DeltaRec>
    requires { length bytes.now ≡ own.now.sizes.hosts * own.now.sizes.sector }
    ensures { result ≡ delta_at (layout_of own.now.sizes) bytes.now own.now.id }
{
    let size = own.geometry.sector() as usize;
    let (_, rest) = bytes.split_at((own.id as usize - 1) * size);
    let (sector, _) = rest.split_at(size);
    delta_in(decode(sector))
}

/// Whether a record of the own id is of another session.
fn is_other(own: &OwnSector, record: &DeltaRec) -> bool
    ensures { result ≡ is_other own.now «record».now }
{
    record.id == own.id
        && !(record.generation == own.generation && is_named(&record.host, &own.host))
}

/// Whether a read of all delta sectors shows another in the session's place.
pub(crate) fn shows_other(own: &OwnSector, answer: &Answer) -> bool
    requires { IsWholeRead own.now answer.now }
    ensures { result ≡ shows_other own.now answer.now }
{
    match answer {
        Answer::Read(bytes) => match own_record(own, bytes.as_slice()) {
            Some(record) => is_other(own, &record),
            None => false,
        },
        Answer::Written => false,
        Answer::Failed => false,
    }
}

/// Whether the answer of a read of all delta sectors, or of the own one, has as many bytes as it asks.
pub(crate) fn fits_answer(own: &OwnSector, of_all: bool, answer: &Answer) -> bool
    ensures { IsTrue result → FitsRead of_all own.now answer.now }
{
    match answer {
        Answer::Read(bytes) => {
            let size = own.geometry.sector() as usize;
            let count = if of_all {
                own.geometry.hosts() as usize
            } else {
                1
            };
            bytes.len() == count * size
        }
        Answer::Written => true,
        Answer::Failed => true,
    }
}

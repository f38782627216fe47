//! Records, in the words of reports; behind them stand the names and numbers that reports leave out.

ghost use Rattle.sl_sector.specs.Records.{IsRecord};
ghost use Rattle.std.specs.Prelude.{IfOk, IfSome};

use sha2::{Digest, Sha256};
use sl_sector::{Rec, decode};
use sl_text::words::Words;

/// A sector of zeros with the number of its record.
fn sector_of(kind: u64) -> [u8; 512] {
    let mut sector = [0; 512];
    put(&mut sector, 0, b"SLK1");
    put_short(&mut sector, 4, kind);
    sector
}

/// Puts bytes into a sector.
fn put(sector: &mut [u8; 512], at: usize, bytes: &[u8]) {
    let mut place = at;
    for byte in bytes {
        if let Some(old) = sector.get_mut(place) {
            *old = *byte;
        }
        place = place.saturating_add(1);
    }
}

/// Puts a number of eight bytes.
fn put_long(sector: &mut [u8; 512], at: usize, number: u64) {
    put(sector, at, &number.to_be_bytes());
}

/// Puts a number of four bytes.
fn put_short(sector: &mut [u8; 512], at: usize, number: u64) {
    let bytes = number.to_be_bytes();
    put(sector, at, &bytes[4..]);
}

/// The record of a sector whose digest is still to be put.
fn sealed(fields: [u8; 512]) -> Option<Rec>
    ensures { IfSome result IsRecord }
{
    let mut sector = fields;
    let digest = Sha256::digest(fields.as_slice().get(..480).unwrap_or(&[]));
    put(&mut sector, 480, digest.as_slice());
    match decode(&sector) {
        Ok(record) => Some(record),
        Err(_) => None,
    }
}

/// The number behind this word.
fn field(words: &mut Words<'_>, name: &[u8]) -> Result<u64, usize> {
    words.expect(name)?;
    words.number()
}

/// The fields of a block: `HOST lver L mbal M bal B inp I G mode D G`.
fn block(words: &mut Words<'_>) -> Result<[u8; 512], usize> {
    let mut sector = sector_of(3);
    put_short(&mut sector, 8, words.number()?);
    put_long(&mut sector, 16, field(words, b"lver")?);
    put_long(&mut sector, 24, field(words, b"mbal")?);
    put_long(&mut sector, 32, field(words, b"bal")?);
    put_short(&mut sector, 56, field(words, b"inp")?);
    put_long(&mut sector, 40, words.number()?);
    put_short(&mut sector, 12, field(words, b"mode")?);
    put_long(&mut sector, 48, words.number()?);
    Ok(sector)
}

/// The fields of a leader: `lver L owner O gen G held`, or `free`, then lockspace, resource and number of hosts.
fn leader(words: &mut Words<'_>) -> Result<[u8; 512], usize> {
    let mut sector = sector_of(2);
    put_long(&mut sector, 16, field(words, b"lver")?);
    put_short(&mut sector, 32, field(words, b"owner")?);
    put_long(&mut sector, 24, field(words, b"gen")?);
    put_short(&mut sector, 8, u64::from(words.skip(b"held")));
    let _ = words.skip(b"free");
    put(&mut sector, 36, words.name()?.as_slice());
    put(&mut sector, 84, words.name()?.as_slice());
    put_short(&mut sector, 12, words.number()?);
    Ok(sector)
}

/// The number of a delta record's state.
fn state(words: &mut Words<'_>) -> u64 {
    if words.skip(b"free") {
        0
    } else if words.skip(b"claim") {
        1
    } else {
        let _ = words.skip(b"live");
        2
    }
}

/// The fields of a delta record: `ID gen G live NAME seq Q stamp T`, then its lockspace.
fn delta(words: &mut Words<'_>) -> Result<[u8; 512], usize> {
    let mut sector = sector_of(1);
    put_short(&mut sector, 12, words.number()?);
    put_long(&mut sector, 16, field(words, b"gen")?);
    put_short(&mut sector, 8, state(words));
    put(&mut sector, 88, words.name()?.as_slice());
    put_long(&mut sector, 24, field(words, b"seq")?);
    put_long(&mut sector, 32, field(words, b"stamp")?);
    put(&mut sector, 40, words.name()?.as_slice());
    Ok(sector)
}

/// The fields of the record that the next words tell.
fn fields(words: &mut Words<'_>) -> Result<[u8; 512], usize> {
    if words.skip(b"block") {
        block(words)
    } else if words.skip(b"leader") {
        leader(words)
    } else {
        words.expect(b"delta")?;
        delta(words)
    }
}

/// The record that the next words tell, if there is such a record.
pub fn record(words: &mut Words<'_>) -> Result<Rec, usize>
    ensures { IfOk result IsRecord }
{
    let fields = fields(words)?;
    match sealed(fields) {
        Some(record) => Ok(record),
        None => Err(words.column()),
    }
}

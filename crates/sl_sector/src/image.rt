//! A sector with what it spells: read when it comes as bytes, spelled when its bytes are wanted.

ghost use Rattle.sha2.specs.Sha256.{sha256};
ghost use Rattle.sl_sector.specs.Records.{IsRecord};
ghost use Rattle.sl_sector.specs.SectorLayouts.{IsSectorSize, Spells, decoded, spelling};
ghost use Rattle.sl_sector.specs.Images.{IsSameFound, found_of, raw_of};
ghost use Rattle.std.specs.List.{list_all};
ghost use Rattle.std.specs.Prelude.{bytes_eq, length, nat_lt, IfOk, IsTrue, OnErr, OnOk, ◌++◌, ◌↔◌, ◌≡◌};

use crate::{Bad, Rec, decode, same_record};
use sl_text::Bytes;
use std::alloc::AllocError;
use std::marker::Model;

/// What a sector is kept as: its bytes are worked out, with their digest, only where somebody asks for them.
#[derive(Drop)]
pub(crate) enum Content {
    /// The sector that spells this record: the record alone is kept.
    Spelled(Rec),
    /// Bytes as they are, beside what they spell.
    Raw {
        bytes: Bytes,
        found: Result<Rec, Bad>,
    },
}

/// A sector of a disk, seen as its bytes, and kept with what they spell, so that a read decodes nothing.
#[derive(Drop)]
pub struct Image {
    size: u32,
    content: Content,
}

impl Model for Image {
    ghost use Rattle.std.specs.Prelude.{List, ℕ};
    ghost use Rattle.sl_sector.specs.Images.{IsImage, bytes_of};

    ghost Value = { List ℕ };

    ghost view = { λ m. bytes_of m.size m.content };

    ghost invariant = { λ m. IsImage m.size m.content };
}

impl Image {
    /// How many bytes the sector has: 512 or 4096.
    #[tactic(auto, using(crate::proofs::ImageLaws::is_long))]
    pub fn size(&self) -> u32
        ensures { result ≡ length self.now }
    {
        self.size
    }

    /// The sector that spells a record. It takes no memory, and nothing is hashed.
    pub fn of_record(size: u32, spelled: Rec) -> Image
        requires sized { IsSectorSize size }
        requires rules { IsRecord spelled }
        ensures { result ≡ spelling sha256 size spelled }
    {
        Image {
            size,
            content: Content::Spelled(spelled),
        }
    }

    /// The sector of these bytes, which are read here and never again.
    pub fn of_bytes(bytes: Bytes) -> Image
        requires { IsSectorSize (length bytes) }
        ensures { result ≡ bytes }
    {
        let found = decode(bytes.as_slice());
        Image {
            size: bytes.len() as u32,
            content: Content::Raw { bytes, found },
        }
    }

    /// What it spells, or why it spells nothing. Nothing is hashed.
    pub fn record(&self) -> Result<Rec, Bad>
        ensures found { result ≡ decoded sha256 self.now }
        // a record that is found is the one whose spelling the bytes are, and keeps its rules
        ensures spells { IfOk result (λ r. Spells sha256 self.now r) }
    {
        found_in(&self.content)
    }

    /// Adds its bytes; those of a record are spelled here. An `Err` is want of memory, and adds nothing.
    pub fn push_bytes(&self, out: &mut Vec<u8>) -> Result<(), AllocError>
        ensures ok { OnOk result (out.new.items ≡ out.old.items ++ self.now) }
        ensures err { OnErr result (out.new.items ≡ out.old.items) }
    {
        match &self.content {
            Content::Spelled(record) => {
                let mut bytes = vec![in *out.allocator(); 0; self.size as usize]?;
                record.encode_into(&mut bytes);
                out.extend_from_slice(&bytes)
            }
            Content::Raw { bytes, found: _ } => out.extend_from_slice(bytes.as_slice()),
        }
    }

    /// Its bytes are numbers below 256, whatever it is kept as. It takes no memory.
    #[tactic(auto, using(crate::proofs::ImageLaws::are_spelled_bytes))]
    pub fn is_bytes(&self)
        ensures { IsTrue (list_all (λ b. nat_lt b 256) self.now) }
    {
        match &self.content {
            Content::Spelled(_) => {}
            Content::Raw { bytes, found: _ } => are_bytes(bytes.as_slice()),
        }
    }

    /// Whether two sectors have the same bytes. Nothing is hashed: sectors of one size that spell a record are the same where the
    /// records are, and only where neither spells one are bytes compared.
    pub fn is_same(&self, other: &Image) -> bool
        ensures { result ≡ bytes_eq self.now other.now }
    {
        is_same_sector(self.size, &self.content, other.size, &other.content)
    }
}

/// Bytes are below 256.
fn are_bytes(bytes: &[u8])
    ensures { IsTrue (list_all (λ b. nat_lt b 256) bytes.now) }
{
    let _size = bytes.len();
}

/// What a sector spells.
fn found_in(content: &Content) -> Result<Rec, Bad>
    ensures { result ≡ found_of content.now }
{
    match content {
        Content::Spelled(record) => Ok(*record),
        Content::Raw { bytes: _, found } => *found,
    }
}

/// The bytes that a sector was made of, if it was made of bytes.
fn raw_in(content: &Content) -> &[u8]
    ensures { result.now ≡ raw_of content.now }
{
    match content {
        Content::Spelled(_) => &[],
        Content::Raw { bytes, found: _ } => bytes.as_slice(),
    }
}

/// Whether two sectors of one size are the same.
fn is_same_content(a: &Content, b: &Content) -> bool
    ensures { IsTrue result ↔ IsSameFound (found_of a.now) (found_of b.now) (raw_of a.now) (raw_of b.now) }
{
    match (found_in(a), found_in(b)) {
        (Ok(mine), Ok(other)) => same_record(&mine, &other),
        (Err(_), Err(_)) => raw_in(a) == raw_in(b),
        (Ok(_), Err(_)) => false,
        (Err(_), Ok(_)) => false,
    }
}

/// Whether two sectors are the same.
fn is_same_sector(size: u32, a: &Content, other: u32, b: &Content) -> bool
    ensures { IsTrue result ↔ ((size ≡ other) × IsSameFound (found_of a.now) (found_of b.now) (raw_of a.now) (raw_of b.now)) }
{
    size == other && is_same_content(a, b)
}

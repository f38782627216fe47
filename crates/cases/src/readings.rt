//! A sector that is read many times, and one whose digest is taken as often: what reading costs beside the digest is measured by them.

use crate::records::sector_of;
use crate::told::Told;
use crate::word_values::{number_at, word};
use sha2::{Digest, Sha256};
use sl_sector::decode;

/// How many of so many readings of a sector give a record.
pub fn decoded(told: &mut Told, text: &str) {
    let sector = sector_of(word(text, 1));
    let mut count = 0u64;
    for _ in 0..number_at(text, 0) {
        if decode(&sector).is_ok() {
            count = count.saturating_add(1);
        }
    }
    told.number(count);
}

/// How many of so many digests of a sector's first 480 bytes are its last bytes.
pub fn digested(told: &mut Told, text: &str) {
    let sector = sector_of(word(text, 1));
    let (content, digest) = (&sector[..480], &sector[480..]);
    let mut count = 0u64;
    for _ in 0..number_at(text, 0) {
        if Sha256::digest(content).as_slice() == digest {
            count = count.saturating_add(1);
        }
    }
    told.number(count);
}

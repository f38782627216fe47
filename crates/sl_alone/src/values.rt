//! A value's record as its writer makes it and as a holder reads it.
//!
//! This is the lock value block of the VMS lock manager (Kronenberg, Levy and Strecker, *VAXclusters*) on a sector of its own.

ghost use Rattle.sl_alone.specs.Values as values;
ghost use Rattle.sl_sector.specs.Records.{Fits, IsValue};
ghost use Rattle.sl_words.specs.Bounds.{most_hosts};
ghost use Rattle.std.specs.Prelude.{length, ◌≡◌, ◌≤◌};

use sl_sector::{HostId, ValueRec};
use sl_text::Data;
use sl_value::Version;

/// A value as a holder reads it.
#[derive(Clone, Copy, Debug, PartialEq, Eq)]
pub struct Value {
    pub version: Version,
    /// At most 256 bytes.
    pub bytes: Data,
}

/// The record of a write: `host` is the writer's id, `lver` and `seq` its version. At most 256 bytes.
pub fn set(host: HostId, lver: u64, seq: u64, bytes: &[u8]) -> ValueRec
    requires host { host ≤ most_hosts }
    requires lver { Fits lver }
    requires seq { Fits seq }
    requires few { length bytes.now ≤ 256 }
    ensures exact { result ≡ record { host = host; lver = lver; seq = seq; bytes = bytes.now } }
    ensures rules { IsValue result }
{
    match Data::new(bytes) {
        Some(bytes) => ValueRec {
            host,
            lver,
            seq,
            bytes,
        },
        None => unreachable!(),
    }
}

/// The version and the bytes of a value that was read.
pub fn get(value: &ValueRec) -> Value
    ensures { result ≡ values.value_in value.now }
{
    Value {
        version: Version {
            lver: value.lver,
            seq: value.seq,
        },
        bytes: value.bytes,
    }
}

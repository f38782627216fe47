//! What is set of a value is what is read.

ghost use Rattle.sl_sector.specs.Records.{Fits};
ghost use Rattle.sl_words.specs.Bounds.{most_hosts};
ghost use Rattle.std.specs.Prelude.{length, ◌≡◌, ◌≤◌};

use crate::values::{Value, get, set};
use sl_sector::HostId;

/// What is read of a value that was set is its lver, its seq and its bytes.
pub fn what_is_set_is_read(host: HostId, lver: u64, seq: u64, bytes: &[u8]) -> Value
    requires host { host ≤ most_hosts }
    requires lver { Fits lver }
    requires seq { Fits seq }
    requires few { length bytes.now ≤ 256 }
    ensures { result ≡ record { version = record { lver = lver; seq = seq }; bytes = bytes.now } }
{
    get(&set(host, lver, seq, bytes))
}

//! What the rules of a ballot come to. Each function's contract is a theorem about the definitions; nothing is computed.

ghost use Rattle.sl_ballot.specs.Laws as laws;

/// The number of a ballot is its host's own, above each number in the instance that its own block and those seen show, and the least such.
pub fn numbers_rise()
    ensures { laws.NumbersRise }
{}

/// Phase 1 keeps what was accepted in its instance and drops what was accepted in another. The value to write is that of a block in the
/// instance with a bal which none there exceeds; it is the session itself only where no block there has a bal.
pub fn values_are_kept()
    ensures { laws.ValuesAreKept }
{}

/// From blocks that keep the rules of a record the phases make blocks that keep them, so that each block a ballot writes has a spelling.
pub fn blocks_are_records()
    ensures { laws.BlocksAreRecords }
{}

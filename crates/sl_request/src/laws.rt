//! Laws of the bits: what is asked of one host says nothing of another.
//!
//! They hold of the bytes that delta records may have, and of the hosts from 1 to 2000.

ghost use Rattle.sl_request.specs.BitmapLaws as laws;

/// Setting a host's bit sets it and changes no other.
pub fn set_changes_one()
    ensures { laws.SetChangesOne }
{}

/// Clearing a host's bit clears it and changes no other.
pub fn clear_changes_one()
    ensures { laws.ClearChangesOne }
{}

/// Without bits no host's bit is set.
pub fn none_is_set()
    ensures { laws.NoneIsSet }
{}

/// The bitmap of a list of hosts has exactly their bits.
pub fn listed_are_set()
    ensures { laws.ListedAreSet }
{}

/// Bytes with the same bits are the same.
pub fn bits_are_all()
    ensures { laws.BitsAreAll }
{}

/// The bits that are printed of a bitmap are those that are set, in rising order.
pub fn bits_in_order()
    ensures { laws.BitsInOrder }
{}

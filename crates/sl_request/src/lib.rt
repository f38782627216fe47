//! Requests to a resource's holder: whether a request is taken, and the bits by which its writer tells the holder of it.
//!
//! A host that wants a resource which another one holds writes the resource's request sector, and sets the holder's bit in the bitmap
//! of its own delta record; a holder that reads its bit set looks at the requests of what it holds. A request that were taken though it
//! asks for no more than is held would end a holder for nothing, and one below the request that stands would undo it. A bit set beside
//! the right one would leave the holder deaf and send another host looking.
#![tactic(auto)]

mod bitmap;
mod check;
pub mod laws;

pub use bitmap::Bitmap;
pub use check::{Act, RequestOld, check_request};

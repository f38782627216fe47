//! What a call on the own sector is answered.

use sl_sector::Image;
use std::sync::Arc;

/// The sector that was read, that the write is done, or that the call failed. The sector is shared with whoever read it.
#[derive(Drop)]
pub enum SectorAnswer {
    Read(Arc<Image>),
    Written,
    Failed,
}

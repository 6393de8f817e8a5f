//! Survey files for the tests.
use std::alloc::{AllocError, Global};

/// A site at (100,100,100).
pub(crate) const SITE: u32 = 0x0641_9064;

/// 8 milligrams per kilogram, measured.
pub(crate) const MEASURED: u32 = 0x4000_0020;

/// The end of a file, but for the number of its sites.
pub(crate) const END: u32 = 0xc000_0000;

/// The file that these words make.
pub(crate) fn file(heap: Global, words: &[u32]) -> Result<Vec<u8>, AllocError> {
    let mut bytes = Vec::new(heap);
    for word in words {
        bytes.extend_from_slice(&word.to_be_bytes())?;
    }
    Ok(bytes)
}

//! How a part that differs from what its case wants is told.
use std::alloc::{AllocError, Global};

/// Tells both texts, if they differ.
pub fn compare(
    alloc: Global,
    told: &mut String,
    part: &str,
    has: &[u8],
    wants: &[u8],
) -> Result<(), AllocError> {
    if has == wants {
        return Ok(());
    }
    let has = String::from_utf8_lossy(alloc, has)?;
    let wants = String::from_utf8_lossy(alloc, wants)?;
    let lines = format!(in alloc; "{part} has\n{has}and not\n{wants}")?;
    told.push_str(lines.as_str())
}

//! Names that lead to one file, as `F` and `./F`.

use std::alloc::{AllocError, Global};

/// The name without what leads nowhere: `./`, `/./`, the second of two slashes, and a folder with the `..` after it.
pub fn path_of(alloc: Global, name: &[u8]) -> Result<Vec<u8>, AllocError> {
    let mut path = Vec::new(alloc);
    if name.starts_with(b"/") {
        path.push(b'/')?;
    }
    for part in name.split(|byte| *byte == b'/') {
        if part == b"..".as_slice() && has_folder(&path) {
            path.truncate(parent_length(&path));
        } else if !matches!(part, b"" | b".") {
            path.extend_from_slice(part)?;
            path.push(b'/')?;
        }
    }
    Ok(path)
}

/// Whether the path ends in a folder that `..` leaves.
fn has_folder(path: &[u8]) -> bool {
    match path.strip_suffix(b"/") {
        Some(front) => !matches!(last_part(front), b"" | b".."),
        None => false,
    }
}

/// The length of the path without its last part and the slash after it.
fn parent_length(path: &[u8]) -> usize {
    let front = path.strip_suffix(b"/").unwrap_or(path);
    front.len().saturating_sub(last_part(front).len())
}

/// What follows the last slash.
pub fn last_part(path: &[u8]) -> &[u8] {
    path.rsplit(|byte| *byte == b'/').next().unwrap_or(path)
}

//! Shelves with files, for tests.

use eu_io::calm::shelf::CalmShelf;
use eu_io::shelf::FileEntry;
use eu_name::bytes::Bytes;
use eu_name::text::Text;
use std::alloc::{AllocError, Global};

/// A file of this name.
pub fn entry(alloc: Global, name: &str, bytes: &[u8]) -> Result<FileEntry, AllocError> {
    Ok(FileEntry {
        name: Text::from_str(alloc, name)?,
        bytes: Bytes::from_slice(alloc, bytes)?,
    })
}

/// Puts the file behind the others, if it was made.
pub fn add_file(
    files: &mut Vec<FileEntry>,
    file: Result<FileEntry, AllocError>,
) -> Result<(), AllocError> {
    match file {
        Ok(file) => {
            files.push(file)?;
            Ok(())
        }
        Err(none) => Err(none),
    }
}

fn add_files(files: &mut Vec<FileEntry>, named: &[(&str, &str)]) -> Result<(), AllocError> {
    for (name, text) in named {
        let file = entry(*files.allocator(), name, text.as_bytes());
        add_file(files, file)?;
    }
    Ok(())
}

/// A shelf with a file of each name and text.
pub fn shelf_of(alloc: Global, named: &[(&str, &str)]) -> Result<CalmShelf, AllocError> {
    let mut files = Vec::new(alloc);
    match add_files(&mut files, named) {
        Ok(()) => Ok(CalmShelf::new(files)),
        Err(none) => Err(none),
    }
}

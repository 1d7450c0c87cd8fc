//! Faults of files in words.

use nddl_parser::fault::ReadAllFault;
use std::alloc::{AllocError, Global};

/// The kind, the file and the place of the fault. Want of memory is handed on.
pub fn described(alloc: Global, fault: &ReadAllFault) -> Result<String, AllocError> {
    match (fault.kind(), fault.file(), fault.at()) {
        (Some(kind), Some(file), Some(at)) => {
            format!(in alloc; "{} {} {at}", kind.word(), file.as_str())
        }
        _ => no_place(alloc, fault),
    }
}

// The word for a fault that stands nowhere.
fn no_place(alloc: Global, fault: &ReadAllFault) -> Result<String, AllocError> {
    match fault {
        ReadAllFault::ReadFault => String::from_str(alloc, "ReadFault"),
        _ => Err(AllocError),
    }
}

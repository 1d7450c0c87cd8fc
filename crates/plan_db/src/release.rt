//! Letting a database go.

use crate::Db;

/// Lets the database go.
pub fn discard(db: Db) {
    drop(db);
}

//! Classes that stand in a line, as those of which something is.

/// Classes of which something is, whatever it stands for.
#[derive(Clone, Copy)]
pub enum Line {
    /// This one, and those that it extends.
    From(u32),
    Every,
    Nothing,
}

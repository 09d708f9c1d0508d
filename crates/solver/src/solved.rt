//! The struct stands alone: definitions that name it can be cited from every other file.

/// How many bytes a sheet has, and the smallest pivot behind it.
#[derive(Clone, Copy)]
pub struct Solved {
    pub bytes: usize,
    pub smallest: f64,
}

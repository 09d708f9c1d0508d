//! The struct stands alone: definitions that name it can be cited from every other file.

/// What is told of a card: how many bytes the text has, whether it is a sheet and no refusal, and the smallest pivot behind a sheet, 0 if none was taken.
#[derive(Clone, Copy)]
pub struct Told {
    pub bytes: usize,
    pub smallest: f64,
    pub solved: bool,
}

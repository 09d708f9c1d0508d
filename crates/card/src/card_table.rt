/// A table of numbers that is read in place out of a card's bytes, which nothing need have checked.
#[derive(Clone, Copy)]
pub struct CardTable<'a> {
    pub(crate) bytes: &'a [u8],
    pub(crate) first: u16,
    pub(crate) rows: i64,
    pub(crate) columns: i64,
}

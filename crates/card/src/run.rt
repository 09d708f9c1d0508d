/// Numbers that stand one behind the other in a card's bytes, from byte `at` on, as a table of one row.
#[derive(Clone, Copy)]
pub(crate) struct Run<'a> {
    pub(crate) bytes: &'a [u8],
    pub(crate) at: usize,
    pub(crate) count: usize,
}

/// A point and multipliers of the rows, which are offered and kept together.
#[derive(Clone, Copy)]
pub struct Pair<'a> {
    pub point: &'a [i64],
    pub multipliers: &'a [i64],
}

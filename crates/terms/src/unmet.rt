/// Why a list of numbers does not keep to the rows, or to the bounds.
#[derive(Clone, Copy, PartialEq, Eq, Debug)]
pub enum Unmet {
    /// The first row, or rope, that it breaks.
    At(usize),
    /// The list is no point: it has the wrong length, or a number beyond the limit.
    NoPoint,
}

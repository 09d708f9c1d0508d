/// The kinds of section that a card has, in the order in which they stand.
#[derive(Clone, Copy, PartialEq, Eq, Debug)]
pub enum Kind {
    /// H: how many ropes and rows there are.
    Head,
    /// G: the curvature of the cost, row by row.
    Curvature,
    /// A: the coefficients of the rows, row by row.
    Rows,
    /// C: the linear part of the cost.
    Costs,
    /// B: the lower bounds of the ropes, then the upper ones.
    Bounds,
    /// R: the lower limits of the rows, then the upper ones.
    Limits,
    /// L: the slip, row by row.
    Slip,
}

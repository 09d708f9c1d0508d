ghost use Rattle.std.specs.Prelude.{◌≤◌};

/// How many ropes and rows a job has: 1 to 16 and 0 to 32.
#[derive(Clone, Copy)]
pub struct Sizes {
    pub(crate) ropes: u8,
    pub(crate) rows: u8,
    ghost some: { 1 ≤ ropes },
    ghost few: { ropes ≤ 16 },
    ghost short: { rows ≤ 32 },
}

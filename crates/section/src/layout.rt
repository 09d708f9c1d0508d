ghost use Rattle.std.specs.Prelude.{◌≡◌, ◌*◌, ◌≤◌};
ghost use Rattle.section.specs.Layout.{blocks_for, count_of, first_of, blocks_in, Sized};

use crate::sizes::Sizes;
use block::{Block, Kind};

/// The fewest blocks that hold `count` numbers.
pub fn blocks_for(count: u16) -> u16
    ensures { result ≡ blocks_for count }
{
    count.div_ceil(Block::NUMBERS as u16)
}

/// How many places a table of `rows` rows has.
fn places(rows: u8, n: u8) -> u16
    ensures value { result ≡ rows * n }
    ensures bound { result ≤ 65025 }
{
    rows as u16 * n as u16
}

/// How many numbers a section has on a card of `n` ropes and `m` rows.
pub fn count_of(kind: Kind, n: u8, m: u8) -> u16
    ensures value { result ≡ count_of kind n m }
    ensures bound { result ≤ 65025 }
{
    match kind {
        Kind::Head => 2,
        Kind::Curvature | Kind::Slip => places(n, n),
        Kind::Rows => places(m, n),
        Kind::Costs => n as u16,
        Kind::Bounds => 2 * n as u16,
        Kind::Limits => 2 * m as u16,
    }
}

/// How many blocks hold a section's numbers.
fn blocks_of(kind: Kind, n: u8, m: u8) -> u16
    ensures value { result ≡ blocks_for (count_of kind n m) }
    ensures bound { result ≤ 517 }
{
    blocks_for(count_of(kind, n, m))
}

/// The number of a section's first block on a card of `n` ropes and `m` rows.
pub fn first_of(kind: Kind, n: u8, m: u8) -> u16
    ensures value { result ≡ first_of kind n m }
    ensures bound { result ≤ 2586 }
{
    let rows = 1 + blocks_of(Kind::Curvature, n, m);
    let costs = rows + blocks_of(Kind::Rows, n, m);
    let bounds = costs + blocks_of(Kind::Costs, n, m);
    let limits = bounds + blocks_of(Kind::Bounds, n, m);
    let slip = limits + blocks_of(Kind::Limits, n, m);
    match kind {
        Kind::Head => 0,
        Kind::Curvature => 1,
        Kind::Rows => rows,
        Kind::Costs => costs,
        Kind::Bounds => bounds,
        Kind::Limits => limits,
        Kind::Slip => slip,
    }
}

impl Sizes {
    /// The sizes of a job, if there are 1 to 16 ropes and up to 32 rows.
    pub fn new(ropes: u16, rows: u16) -> Option<Sizes>
        ensures { Sized result ropes rows }
    {
        if (1..=16).contains(&ropes) && rows <= 32 {
            Some(Sizes {
                ropes: ropes as u8,
                rows: rows as u8,
            })
        } else {
            None
        }
    }

    /// How many ropes there are.
    pub fn ropes(&self) -> u16
        ensures { result ≡ self.now.ropes }
    {
        self.ropes as u16
    }

    /// How many rows there are.
    pub fn rows(&self) -> u16
        ensures { result ≡ self.now.rows }
    {
        self.rows as u16
    }

    /// How many numbers a section has.
    pub fn count(&self, kind: Kind) -> u16
        ensures value { result ≡ count_of kind self.now.ropes self.now.rows }
        ensures bound { result ≤ 512 }
    {
        count_of(kind, self.ropes, self.rows)
    }

    /// How many blocks hold a section's numbers.
    pub(crate) fn blocks(&self, kind: Kind) -> u16
        ensures value { result ≡ blocks_for (count_of kind self.now.ropes self.now.rows) }
        ensures bound { result ≤ 5 }
    {
        blocks_for(self.count(kind))
    }

    /// The number of a section's first block.
    pub fn first(&self, kind: Kind) -> u16
        ensures value { result ≡ first_of kind self.now.ropes self.now.rows }
        ensures bound { result ≤ 26 }
    {
        first_of(kind, self.ropes, self.rows)
    }

    /// How many bytes a card of these sizes has.
    pub fn card_bytes(&self) -> usize
        ensures { result ≡ blocks_in self.now.ropes self.now.rows * 512 }
    {
        let blocks = self.first(Kind::Slip) + self.blocks(Kind::Slip);
        blocks as usize * Block::BYTES
    }
}

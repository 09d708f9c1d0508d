//! Everything that a plan can refuse.
ghost use Rattle.std.specs.Prelude.{◌≡◌};
ghost use Rattle.opening.specs.declared.refusal.Refusal.TheVariants.{Card};
ghost use Rattle.opening.specs.Refusals.{list_number, notice_of, ToldApart};

use block::{Fault, Layer, Notice};

/// The lists that a plan is opened from, beside its tables.
#[derive(Clone, Copy, PartialEq, Eq, Debug)]
pub enum List {
    Costs,
    LowerBounds,
    UpperBounds,
    LowerLimits,
    UpperLimits,
    Slip,
}

/// Why a plan refuses, and where.
#[derive(Clone, Copy, PartialEq, Eq, Debug)]
pub enum Refusal {
    /// A card is at fault.
    Card { fault: Fault },
    /// A table has sizes that a plan cannot have, these.
    Sizes { height: usize, width: usize },
    /// A table has a blank here, or a number beyond the plan's limit.
    Place { row: usize, column: usize },
    /// G has another number here than across its diagonal.
    Asymmetric { row: usize, column: usize },
    /// This list has a wrong length.
    Length { list: List },
    /// This list has a number beyond its limit here, or a lower number above the upper one.
    Limit { list: List, index: usize },
    /// The slip does not hold; this is the first row that shows it.
    Slip { row: usize },
    /// A list that was offered has another length than needed.
    OfferLength { needed: usize },
    /// A number that was offered lies beyond its limit.
    OfferLimit { index: usize },
    /// A point breaks the bounds of this rope.
    Bound { rope: usize },
    /// A point breaks this row.
    Row { row: usize },
    /// Multipliers do not show that there is no plan.
    NoProof,
    /// There is no such row or rope to amend.
    NoSuch { index: usize },
    /// An amendment lies beyond its limit, or its lower number above the upper one.
    Amendment { index: usize },
}

/// The list's number, from 0 in the order of opening.
impl From<List> for usize {
    ghost from_gives = { λ list number. number ≡ list_number list };

    fn from(list: List) -> usize {
        match list {
            List::Costs => 0,
            List::LowerBounds => 1,
            List::UpperBounds => 2,
            List::LowerLimits => 3,
            List::UpperLimits => 4,
            List::Slip => 5,
        }
    }
}

fn told(number: u8, layer: Layer, first: usize, second: usize) -> Notice
    ensures { result ≡ record { number = number; layer = layer; first = first; second = second } }
{
    Notice {
        number,
        layer,
        first,
        second,
    }
}

impl Refusal {
    /// The refusal's number, layer and places. No other refusal has the same.
    pub fn notice(&self) -> Notice
        ensures value { result ≡ notice_of self.now }
        ensures apart { ToldApart self.now result }
    {
        match *self {
            Refusal::Card { fault } => fault.notice(),
            Refusal::Sizes { height, width } => told(10, Layer::Table, height, width),
            Refusal::Place { row, column } => told(11, Layer::Table, row, column),
            Refusal::Asymmetric { row, column } => told(12, Layer::Table, row, column),
            Refusal::Length { list } => told(13, Layer::Plan, list.into(), 0),
            Refusal::Limit { list, index } => told(14, Layer::Plan, list.into(), index),
            Refusal::Slip { row } => told(15, Layer::Plan, row, 0),
            Refusal::OfferLength { needed } => told(20, Layer::Plan, needed, 0),
            Refusal::OfferLimit { index } => told(21, Layer::Plan, index, 0),
            Refusal::Bound { rope } => told(22, Layer::Plan, rope, 0),
            Refusal::Row { row } => told(23, Layer::Plan, row, 0),
            Refusal::NoProof => told(24, Layer::Plan, 0, 0),
            Refusal::NoSuch { index } => told(30, Layer::Plan, index, 0),
            Refusal::Amendment { index } => told(31, Layer::Plan, index, 0),
        }
    }
}

impl From<Fault> for Refusal {
    ghost from_gives = { λ fault r. r ≡ Card fault };

    fn from(fault: Fault) -> Self {
        Self::Card { fault }
    }
}

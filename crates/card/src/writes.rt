ghost use Rattle.std.specs.Prelude.{◌≡◌, ◌+◌, ◌*◌, ◌≤◌, ◌≢◌, length, Ok, OnOk, MatchOption};
ghost use Rattle.block.specs.Blocks.{Fit};
ghost use Rattle.block.specs.Kinds.{letter_of};
ghost use Rattle.section.specs.Layout.{blocks_for, start_of, numbers_for, bytes_for};
ghost use Rattle.card.specs.Faults.{card_check};
ghost use Rattle.card.specs.Cards.{run_into, section_into};
ghost use Rattle.card.specs.Contents.{sections_of, part_of, numbers, Built, written, bytes_needed, write_answer, write_after};
ghost use Rattle.card.specs.Laws.{Proper, Reads};

use crate::contents::{Contents, Numbers};
use block::{Block, Fault, write_block};
use section::{Kind, Sizes};

/// Writes the blocks that hold the numbers of one section, from block `first` on, each in its place.
fn write_run(out: &mut [u8], kind: Kind, first: u16, numbers: &[i32])
    requires { ((first + blocks_for (length numbers.now)) * 512 ≤ length out.old) × ((first ≤ 26) × (length numbers.now ≤ 512)) }
    ensures value { out.new ≡ run_into out.old (letter_of kind) first numbers.now (blocks_for (length numbers.now)) }
    ensures fits { Fit numbers.now }
{
    for (b, part) in numbers.chunks(Block::NUMBERS).enumerate() {
        write_block(out, kind, first + b as u16, part);
    }
}

/// Writes a section, which has these numbers.
fn write_section(out: &mut [u8], kind: Kind, sizes: &Sizes, numbers: &[i32])
    requires { (length numbers.now ≡ numbers_for sizes.now kind) × ((start_of sizes.now kind + blocks_for (numbers_for sizes.now kind)) * 512 ≤ length out.old) }
    ensures value { out.new ≡ section_into sizes.now kind out.old numbers.now }
    ensures fits { Fit numbers.now }
{
    let first = sizes.first(kind);
    // Asked for its clause alone: a section has at most 512 numbers.
    let _count = sizes.count(kind);
    write_run(out, kind, first, numbers);
}

/// Writes the sections in their order.
fn write_all(out: &mut [u8], x: &Contents)
    requires { length out.old ≡ bytes_needed x.now }
    ensures value { out.new ≡ written x.now }
    ensures proper { Proper x.now.sizes.ropes x.now.sizes.rows (numbers x.now) }
{
    let head = [x.sizes.ropes() as i32, x.sizes.rows() as i32];
    write_section(out, Kind::Head, &x.sizes, &head);
    for kind in Kind::AFTER_HEAD {
        write_section(out, kind, &x.sizes, x.numbers.section(kind));
    }
}

impl<'a> Numbers<'a> {
    /// The numbers of a section. Those of the head are the sizes, so there are none here.
    fn section(&self, kind: Kind) -> &'a [i32]
        ensures { result.now ≡ part_of self.now kind }
    {
        match kind {
            Kind::Head => &[],
            Kind::Curvature => self.curvature,
            Kind::Rows => self.rows,
            Kind::Costs => self.costs,
            Kind::Bounds => self.bounds,
            Kind::Limits => self.limits,
            Kind::Slip => self.slip,
        }
    }
}

impl<'a> Contents<'a> {
    /// The contents of a card, if each section has as many numbers as the sizes ask for.
    pub fn new(sizes: Sizes, numbers: Numbers<'a>) -> Option<Contents<'a>>
        ensures { Built result sizes (sections_of sizes numbers.entry) }
    {
        for kind in Kind::AFTER_HEAD {
            if numbers.section(kind).len() != sizes.count(kind) as usize {
                return None;
            }
        }
        Some(Contents { sizes, numbers })
    }

    /// Writes the card and answers how many bytes it has; the bytes past it stay. Refuses a list that is too short, which stays as it is.
    /// The written card passes its check, and its sizes and numbers are read back.
    pub fn write(&self, out: &mut [u8]) -> Result<usize, Fault>
        ensures answer { result ≡ write_answer self.now out.old }
        ensures after { out.new ≡ write_after self.now out.old }
        ensures passes { OnOk result (card_check (written self.now) ≡ Ok tt) }
        ensures reads { OnOk result (Reads (written self.now) self.now.sizes.ropes self.now.sizes.rows (numbers self.now)) }
    {
        let needed = self.sizes.card_bytes();
        if out.len() < needed {
            return Err(Fault::Short { needed });
        }
        write_all(&mut out[0..needed], self);
        Ok(needed)
    }
}

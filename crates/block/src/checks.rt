ghost use Rattle.std.specs.Prelude.{◌≡◌, length, position};
ghost use Rattle.block.specs.Blocks.{check_of};
ghost use Rattle.block.specs.Checks.{is_set, spare_in, sum_check, name_check, spare_check, block_check};
ghost use Rattle.block.specs.Kinds.{letter_of};
ghost use Rattle.block.specs.Laws.{Exact, FirstSpare, Rightly, Says};

use crate::block::Block;
use crate::fault::Fault;
use crate::kind::Kind;

/// The place of the first byte that is not 0.
fn first_set(bytes: &[u8]) -> Option<usize>
    ensures { result ≡ position is_set bytes.now }
{
    bytes.iter().position(|byte| *byte != 0)
}

/// The check sum that 512 bytes ask for by the first 510 of them: (k + 1) × byte k, modulo 65521.
pub(crate) fn sum_of(bytes: &[u8]) -> u16
    requires { length bytes.now ≡ 512 }
    ensures { result ≡ check_of bytes.now }
{
    let mut total: u32 = 0;
    for (k, byte) in bytes[..510].iter().enumerate() {
        total += (k as u32 + 1) * *byte as u32;
    }
    (total % 65521) as u16
}

impl<'a> Block<'a> {
    /// The check sum that the block's first 510 bytes ask for: (k + 1) × byte k, modulo 65521.
    pub fn sum(&self) -> u16
        ensures { result ≡ check_of self.now.bytes.now }
    {
        let bytes = self.bytes;
        sum_of(bytes)
    }

    /// Whether the block ends in its check sum; `number` is told where it does not.
    pub fn check_sum(&self, number: u16) -> Result<(), Fault>
        ensures { result ≡ sum_check self.now.bytes.now number }
    {
        if self.u16_at(510) == self.sum() {
            Ok(())
        } else {
            Err(Fault::CheckSum { block: number })
        }
    }

    /// Whether the block's letter names this section, and its number is this one.
    pub fn check_name(&self, kind: Kind, number: u16) -> Result<(), Fault>
        ensures { result ≡ name_check self.now.bytes.now (letter_of kind) number }
    {
        match self.kind() {
            Some(named) if named == kind && self.number() == number => Ok(()),
            _ => Err(Fault::Name { block: number }),
        }
    }

    /// The first spare byte that is not 0, where `used` numbers are in use.
    fn spare_set(&self, used: u8) -> Option<u16>
        ensures { result ≡ spare_in self.now.bytes.now used }
    {
        if self.bytes[1] != 0 {
            return Some(1);
        }
        let from = 4 + used as usize * 4;
        let bytes = self.bytes;
        let k = first_set(bytes[..510].get(from..)?)?;
        Some((from + k) as u16)
    }

    /// Whether the block's spare bytes are 0 when `used` of its numbers are in use; else the first that is not.
    pub fn check_spare(&self, number: u16, used: u8) -> Result<(), Fault>
        ensures value { result ≡ spare_check self.now.bytes.now number used }
        ensures first { FirstSpare self.now.bytes.now number used result }
    {
        match self.spare_set(used) {
            Some(byte) => Err(Fault::Spare {
                block: number,
                byte,
            }),
            None => Ok(()),
        }
    }

    /// The first fault of a block that is to hold `used` numbers of this section under this number: its check sum, its name, its spare bytes.
    /// Each is named exactly where it is so. Of up to 126 numbers, exactly the block that is made of them passes.
    pub fn check(&self, kind: Kind, number: u16, used: u8) -> Result<(), Fault>
        ensures value { result ≡ block_check self.now.bytes.now (letter_of kind) number used }
        ensures rightly { Rightly (Says self.now.bytes.now (letter_of kind) number used) result }
        ensures exact { Exact self.now.bytes.now (letter_of kind) number used result }
    {
        self.check_sum(number)?;
        self.check_name(kind, number)?;
        self.check_spare(number, used)
    }
}

ghost use Rattle.std.specs.Prelude.{◌≡◌, ok_or};
ghost use Rattle.block.specs.Kinds.{letter_of, kind_of, Names};

use crate::kind::Kind;

/// A letter that names no section.
#[derive(Clone, Copy, PartialEq, Eq, Debug)]
pub struct UnknownKind(pub char);

impl From<Kind> for u8 {
    ghost from_gives = { λ kind letter. letter ≡ letter_of kind };

    fn from(kind: Kind) -> u8 {
        match kind {
            Kind::Head => b'H',
            Kind::Curvature => b'G',
            Kind::Rows => b'A',
            Kind::Costs => b'C',
            Kind::Bounds => b'B',
            Kind::Limits => b'R',
            Kind::Slip => b'L',
        }
    }
}

impl TryFrom<char> for Kind {
    type Error = UnknownKind;

    ghost try_from_gives = { λ letter named. named ≡ ok_or (kind_of letter) (record { 0 = letter }) };

    fn try_from(letter: char) -> Result<Kind, UnknownKind> {
        match letter {
            'H' => Ok(Kind::Head),
            'G' => Ok(Kind::Curvature),
            'A' => Ok(Kind::Rows),
            'C' => Ok(Kind::Costs),
            'B' => Ok(Kind::Bounds),
            'R' => Ok(Kind::Limits),
            'L' => Ok(Kind::Slip),
            _ => Err(UnknownKind(letter)),
        }
    }
}

impl Kind {
    /// The kinds of section that follow the head, in the order in which they stand.
    pub const AFTER_HEAD: [Kind; 6] = [
        Kind::Curvature,
        Kind::Rows,
        Kind::Costs,
        Kind::Bounds,
        Kind::Limits,
        Kind::Slip,
    ];

    /// The letter of the section's blocks.
    pub fn letter(self) -> u8
        ensures { result ≡ letter_of self }
    {
        u8::from(self)
    }

    /// The section that a block's letter names, if it names one.
    pub fn named(letter: char) -> Option<Kind>
        ensures value { result ≡ kind_of letter }
        ensures names { Names letter result }
    {
        Kind::try_from(letter).ok()
    }
}

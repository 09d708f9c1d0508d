/// A section of a card: the bytes of its blocks, and the number of the first of them.
#[derive(Clone, Copy)]
pub enum Section<'a> {
    Head { bytes: &'a [u8], first: u16 },
    Curvature { bytes: &'a [u8], first: u16 },
    Rows { bytes: &'a [u8], first: u16 },
    Costs { bytes: &'a [u8], first: u16 },
    Bounds { bytes: &'a [u8], first: u16 },
    Limits { bytes: &'a [u8], first: u16 },
    Slip { bytes: &'a [u8], first: u16 },
}

/// Why no text was written. The list stands as it stood.
#[derive(Clone, Copy, PartialEq, Eq, Debug)]
pub enum Unwritten {
    /// The list has fewer bytes than these.
    Short { needed: usize },
    /// The point has this many numbers, more than 16.
    Many { numbers: usize },
    /// The number at this place, the first such, lies beyond ±32,768.
    Far { place: usize },
}

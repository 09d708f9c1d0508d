//! The struct stands alone: definitions that name it can be cited from every other file.
ghost use Rattle.std.specs.Prelude.{◌≡◌, ◌≤◌, length, None};
ghost use Rattle.lines.specs.Answers.{first_far};

/// The numbers of a point: at most 16, none beyond ±32,768.
#[derive(Clone, Copy)]
pub(crate) struct Coordinates<'a> {
    pub(crate) numbers: &'a [i64],
    ghost few: { length numbers.now ≤ 16 },
    ghost near: { first_far numbers.now ≡ None },
}

//! A coordinate that goes back to what it was, unless the change was kept.
ghost use Rattle.std.specs.Prelude.{◌≡◌, Some, None, unwrap_or};

pub(crate) struct Held<'a> {
    pub(crate) spot: &'a mut i64,
    /// What it goes back to; nothing once the change was kept.
    pub(crate) old: Option<i64>,
}

impl Held<'_> {
    pub(crate) fn keep(&mut self)
        ensures same { self.exit.now.spot.ghost_name ≡ self.entry.now.spot.ghost_name }
        ensures value { self.exit.now.spot.now ≡ self.entry.now.spot.now }
        ensures kept { self.exit.now.old ≡ None }
    {
        self.old = None;
    }
}

impl Drop for Held<'_> {
    fn drop(self)
        ensures { self.exit.0.now ≡ unwrap_or self.entry.old self.entry.spot.now }
    {
        if let Some(old) = self.old {
            *self.spot = old;
        }
        let Held { spot: _, old: _ } = self;
    }
}

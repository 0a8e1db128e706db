//! A guard over a work buffer.

ghost use Rattle.std.specs.Prelude.{◌≡◌, length, replicate};

// A work buffer that holds zeros once this is let go, on every way out of the
// function that made it: `let guard = Wiped { work };`. The field is public so
// that other crates can work in it, as `guard.work[i]` or `&mut guard.work[0..n]`.
pub struct Wiped<'a> {
    pub work: &'a mut [u8],
}

impl Drop for Wiped<'_> {
    fn drop(self)
        ensures { self.exit.0.now ≡ replicate (length self.entry.work.now) 0 }
    {
        self.work.fill(0);
        let Wiped { work: _ } = self;
    }
}

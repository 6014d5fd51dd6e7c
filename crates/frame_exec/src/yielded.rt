//! Whether a frame yields anything.

ghost use Rattle.std.specs.Prelude.{◌≡◌, true};
ghost use Rattle.frame_exec.specs.declared.yielded.Yield.TheVariants as yields;

/// Whether a frame yields anything: items, and then lines. Most frames yield nothing, and asking all lists again at each step would take
/// some fifteen instructions in each.
#[derive(Clone, Copy, Debug, PartialEq, Eq)]
pub(crate) enum Yield {
    Nothing,
    Something,
}

impl Yield {
    /// What is yielded, by whether it is nothing.
    #[inline(always)]
    pub(crate) fn unless(nothing: bool) -> Yield
        ensures { result ≡ yields.Nothing → nothing ≡ true }
    {
        match nothing {
            true => Yield::Nothing,
            false => Yield::Something,
        }
    }

    /// Whether nothing is yielded.
    #[inline(always)]
    pub(crate) fn is_nothing(self) -> bool
        ensures { result ≡ true → self ≡ yields.Nothing }
    {
        match self {
            Yield::Nothing => true,
            Yield::Something => false,
        }
    }
}

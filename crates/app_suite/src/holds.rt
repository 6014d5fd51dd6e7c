//! Which applications are held in a frame.

ghost use Rattle.std.specs.Prelude.{List, [], ◌∷◌, ◌++◌};
ghost use Rattle.scenario.specs.declared.frame.App.{App};
ghost use Rattle.app_suite.specs.Holding.{AreHeld};

use scenario::App;

/// Of each application that can be held, whether it is.
#[derive(Clone, Copy, Debug)]
pub struct Holds {
    pub hs: bool,
    pub cs: bool,
    pub sc: bool,
    pub mm: bool,
    pub md: bool,
}

impl Holds {
    /// None is held.
    #[inline(always)]
    pub fn none() -> Holds
        ensures { AreHeld [] result }
    {
        Holds {
            hs: false,
            cs: false,
            sc: false,
            mm: false,
            md: false,
        }
    }

    /// Those of a list are held.
    pub fn of(held: &[App]) -> Holds
        ensures { AreHeld held.now result }
    {
        let mut holds = Holds::none();
        'held: for app in held {
            holds.add(*app);
        }
        holds
    }

    /// Holds an application beside those that are held.
    #[inline(always)]
    fn add(&mut self, app: App)
        ensures { (held : List App) → AreHeld held self.old → AreHeld (held ++ app ∷ []) self.new }
    {
        match app {
            App::Hs => self.hs = true,
            App::Cs => self.cs = true,
            App::Sc => self.sc = true,
            App::Mm => self.mm = true,
            App::Md => self.md = true,
        }
    }
}

//! Which applications a scenario holds, from frame to frame.

ghost use Rattle.std.specs.Prelude.{◌≡◌, ◌++◌, [], OnOk};
ghost use Rattle.input_words.specs.Holds.{app_name, app_place, is_held, hold_told, app_told, holds_told};

use crate::inputs::{FrameTime, begin_line};
use scenario::App;
use std::alloc::{AllocError, Global};

/// Watches which applications a scenario holds: it tells in which frame one is held that wasn't in the frame before, and in which it is woken
/// again.
#[derive(Drop)]
pub struct HoldWatch {
    before: Vec<App>,
}

/// The name of an application that can be held.
fn app_name(app: App) -> &'static str
    ensures { result.now ≡ app_name app }
{
    match app {
        App::Hs => "HS",
        App::Cs => "CS",
        App::Sc => "SC",
        App::Mm => "MM",
        App::Md => "MD",
    }
}

/// The place of an application among those that can be held.
fn app_place(app: App) -> u8
    ensures { result ≡ app_place app }
{
    match app {
        App::Hs => 0,
        App::Cs => 1,
        App::Sc => 2,
        App::Mm => 3,
        App::Md => 4,
    }
}

/// Whether an application is among those that are held.
#[tactic(auto, unfolding(crate::specs::Holds::is_held))]
fn is_held(held: &[App], app: App) -> bool
    ensures { result ≡ is_held held.now app }
{
    held.iter().any(|other| app_place(*other) == app_place(app))
}

/// Appends the line of an application, where it is held and wasn't before, or the other way round.
fn tell_hold(
    time: FrameTime,
    app: App,
    before: bool,
    now: bool,
    out: &mut Vec<u8>,
) -> Result<(), AllocError>
    ensures { OnOk result (out.new.items ≡ out.old.items ++ hold_told time app before now) }
{
    if before == now {
        return Ok(());
    }
    begin_line(time, out)?;
    out.extend_from_slice(app_name(app).as_bytes())?;
    if now {
        return out.extend_from_slice(b" is held: from here on it isn't woken\n");
    }
    out.extend_from_slice(b" is woken again\n")
}

/// Appends the line of an application in a frame that holds these, behind one that held those before, where there is one.
fn tell_app(
    time: FrameTime,
    before: &[App],
    now: &[App],
    app: App,
    out: &mut Vec<u8>,
) -> Result<(), AllocError>
    ensures { OnOk result (out.new.items ≡ out.old.items ++ app_told time before.now now.now app) }
{
    tell_hold(time, app, is_held(before, app), is_held(now, app), out)
}

/// Appends the lines of a frame that holds these, behind one that held those before.
fn tell_apps(
    time: FrameTime,
    before: &[App],
    now: &[App],
    out: &mut Vec<u8>,
) -> Result<(), AllocError>
    ensures { OnOk result (out.new.items ≡ out.old.items ++ holds_told time before.now now.now) }
{
    tell_app(time, before, now, App::Hs, out)?;
    tell_app(time, before, now, App::Cs, out)?;
    tell_app(time, before, now, App::Sc, out)?;
    tell_app(time, before, now, App::Mm, out)?;
    tell_app(time, before, now, App::Md, out)?;
    Ok(())
}

impl HoldWatch {
    /// A watch that saw no frame.
    pub fn new(alloc: Global) -> HoldWatch
        ensures { result.before.items ≡ [] }
    {
        HoldWatch {
            before: Vec::new(alloc),
        }
    }

    /// Appends which applications are held in the next frame, which holds these, or are woken again, a line for each of which that changes.
    pub fn tell(
        &mut self,
        alloc: Global,
        time: FrameTime,
        held: &[App],
        out: &mut Vec<u8>,
    ) -> Result<(), AllocError>
        ensures told { OnOk result (out.new.items ≡ out.old.items
            ++ holds_told time self.old.before.items held.now) }
        ensures before { OnOk result (self.new.before.items ≡ held.now) }
    {
        tell_apps(time, self.before.as_slice(), held, out)?;
        self.before = Vec::from_slice(alloc, held)?;
        Ok(())
    }
}

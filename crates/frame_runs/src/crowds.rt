//! What a crowd obeys of the items of a frame.

ghost use Rattle.std.specs.Prelude.{◌≡◌, map};
ghost use Rattle.std.specs.List.{fold};
ghost use Rattle.frame_wires.specs.Sending.{shown};
ghost use Rattle.frame_runs.specs.Crowds.{obeying, behind_items};

use bus_pipes::Out;
use subjects::{Crowd, Subject};

/// Lets a crowd obey an item, if it is a request to restart or to delete an application.
fn obey_item<S: Subject + Send>(crowd: &mut Crowd<S>, item: &Out)
    ensures subjects { map S.seen crowd.new.subjects
        ≡ obeying (map S.seen crowd.old.subjects) item.now }
    ensures readings { crowd.new.readings ≡ crowd.old.readings }
{
    match item {
        Out::Restart(name) => crowd.restart(*name),
        Out::Delete(name) => crowd.delete(*name),
        Out::Made(_) => {}
        Out::Stored(_) => {}
        Out::Reset => {}
    }
}

/// Lets a crowd obey items, in their order.
fn obey_items<S: Subject + Send>(crowd: &mut Crowd<S>, items: &[Out])
    ensures subjects { map S.seen crowd.new.subjects
        ≡ fold obeying (map S.seen crowd.old.subjects) items.now }
    ensures readings { crowd.new.readings ≡ crowd.old.readings }
{
    'items: for item in items {
        obey_item(crowd, item);
    }
}

/// Lets a crowd obey lists of items, one list after another.
fn obey_lists<S: Subject + Send>(crowd: &mut Crowd<S>, lists: &[&[Out]])
    ensures subjects { map S.seen crowd.new.subjects
        ≡ fold obeying (map S.seen crowd.old.subjects) (shown lists.now) }
    ensures readings { crowd.new.readings ≡ crowd.old.readings }
{
    'lists: for list in lists {
        obey_items(crowd, list);
    }
}

/// Lets a crowd obey the items of a frame, and then a processor reset where one was asked for.
#[inline(never)]
pub fn obey_frame<S: Subject + Send>(crowd: &mut Crowd<S>, resets: bool, lists: &[&[Out]])
    ensures subjects { map S.seen crowd.new.subjects
        ≡ behind_items resets (shown lists.now) (map S.seen crowd.old.subjects) }
    ensures readings { crowd.new.readings ≡ crowd.old.readings }
{
    obey_lists(crowd, lists);
    if resets {
        crowd.restart_all();
    }
}

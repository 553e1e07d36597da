//! The cells that an object paints are marked, so that they are painted anew.
ghost use Rattle.std.specs.Prelude.{◌≡◌, ◌≤◌, Some, true};
ghost use Rattle.std.specs.Option.{option_copied};
ghost use Rattle.mh_model.specs.Looks.{area_of};
ghost use Rattle.mh_model.specs.Picture.{is_seen};
ghost use Rattle.mh_display.specs.Painting.{IsIn};
ghost use Rattle.mh_display.specs.Surface.{Spoils, is_in};

use crate::cells::{add, stretch};
use crate::frame::Frame;
use crate::window::Window;
use mh_model::Object;
use mh_store::looks::area_of;

/// Marks the cells of the object's box, if it is painted.
pub(crate) fn spoil_found(marks: &mut [u64; 36], found: Option<&Object>)
    ensures { Spoils (option_copied found.entry) marks.old marks.new }
{
    if let Some(object) = found {
        spoil_object(marks, object);
    }
}

fn spoil_object(marks: &mut [u64; 36], object: &Object)
    ensures { Spoils (Some object.now) marks.old marks.new }
{
    if !is_seen(object) {
        return;
    }
    let area = area_of(object);
    spoil_rows(marks, &Window::of(&Frame::of(&area)));
}

/// Whether the object is painted.
pub(crate) fn is_seen(object: &Object) -> bool
    ensures { result ≡ is_seen object.now }
{
    let class = object.fixed.get().class;
    class.is_visible() && object.body.available && object.body.running
}

fn spoil_rows(marks: &mut [u64; 36], window: &Window)
    requires low { window.now.bottom ≤ 36 }
    requires wide { window.now.right ≤ 60 }
    ensures { IsIn (λ c b. true) window.now (is_in marks.old) (is_in marks.new) }
{
    let bits = stretch(window.left, window.right);
    for row in window.top..window.bottom {
        add(marks, row, bits, window.left, window.right);
    }
}

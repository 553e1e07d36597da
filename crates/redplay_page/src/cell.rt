//! What lies at a cell of the picture.
ghost use Rattle.std.specs.Prelude.{◌≡◌, ◌++◌, ◌<◌, ◌*◌, ◌+ℤ◌, ◌^◌, pos, OnOk, reverse};
ghost use Rattle.std.specs.List.{flat_map};
ghost use Rattle.std.specs.Option.{option_copied};
ghost use Rattle.mh_model.specs.Boxes.{covers, within};
ghost use Rattle.mh_model.specs.Looks.{area_of};
ghost use Rattle.mh_model.specs.Picture.{is_seen};
ghost use Rattle.redplay_page.specs.Standing as spec;

use mh_base::{Area, ObjRef};
use mh_machine::Machine;
use mh_model::Object;
use mh_store::{Boxed, Objects};
use mh_told::text::Text;
use mh_trace::{copied_refs, put_ref};
use std::alloc::{AllocError, Global};

/// Puts a line for each object on the display stack whose box covers the cell, the top first.
pub fn put_cell(
    alloc: Global,
    text: &mut Text,
    machine: &Machine,
    row: usize,
    column: usize,
) -> Result<(), AllocError>
    requires rows { row < 36 }
    requires columns { column < 60 }
    ensures { OnOk result (text.new ≡ text.old ++ spec.cell_text machine.now row column) }
{
    let refs = copied_refs(alloc, machine.stack())?;
    let x = (12 * column) as i64;
    let y = (16 * row) as i64;
    put_lines(text, machine.objects(), refs.as_slice(), x, y)
}

fn put_lines(
    text: &mut Text,
    objects: &Objects,
    refs: &[ObjRef],
    x: i64,
    y: i64,
) -> Result<(), AllocError>
    ensures { OnOk result (text.new ≡ text.old ++ flat_map (spec.line_at objects.now x y) (reverse refs.now)) }
{
    for at in refs.iter().rev() {
        put_found(text, objects.boxed(at), x, y)?;
    }
    Ok(())
}

fn put_found(text: &mut Text, found: Option<&Boxed>, x: i64, y: i64) -> Result<(), AllocError>
    ensures { OnOk result (text.new ≡ text.old ++ spec.line_if_there x y (option_copied found.entry)) }
{
    match found {
        Some(boxed) => put_if_covered(text, boxed.object(), boxed.area(), x, y),
        None => Ok(()),
    }
}

fn put_if_covered(
    text: &mut Text,
    object: &Object,
    area: &Area,
    x: i64,
    y: i64,
) -> Result<(), AllocError>
    requires { area.now ≡ area_of object.now }
    ensures { OnOk result (text.new ≡ text.old ++ spec.line_if_covered x y object.now) }
{
    if covers(area, x, y) {
        put_line(text, object)
    } else {
        Ok(())
    }
}

/// Whether the box covers the cell at these units.
fn covers(area: &Area, x: i64, y: i64) -> bool
    ensures { result ≡ covers area.now x y }
{
    within(area.x, area.width, x) && within(area.y, area.height, y)
}

fn within(first: i32, size: i32, unit: i64) -> bool
    ensures { result ≡ within first size unit }
{
    i64::from(first) <= unit && unit < i64::from(first) + i64::from(size)
}

/// Puts an object with its class, and whether it is seen.
#[tactic(auto, unfolding(crate::specs::Standing::lying_line))]
fn put_line(text: &mut Text, object: &Object) -> Result<(), AllocError>
    ensures { OnOk result (text.new ≡ text.old ++ spec.lying_line object.now) }
{
    let fixed = object.fixed.get();
    put_ref(text, &fixed.key)?;
    text.put(b" ")?;
    text.put(fixed.class.word())?;
    put_unseen(text, object)?;
    text.put(b"\n")
}

fn put_unseen(text: &mut Text, object: &Object) -> Result<(), AllocError>
    ensures { OnOk result (text.new ≡ text.old ++ spec.unless_seen object.now) }
{
    if is_seen(object) {
        Ok(())
    } else {
        text.put(b", not seen")
    }
}

fn is_seen(object: &Object) -> bool
    ensures { result ≡ is_seen object.now }
{
    let class = object.fixed.get().class;
    class.is_visible() && object.body.available && object.body.running
}

//! Looks and drawings: what each action that changes one makes of the object. What is out of
//! range, or too much leaves it as it is.
ghost use Rattle.std.specs.Prelude.{◌≡◌, ◌&&◌, int_le, true};
ghost use Rattle.mh_model.specs.declared.object.Body.{Body as BodyValue};
ghost use Rattle.mh_model.specs.declared.object.Fixed.{Fixed as FixedValue};
ghost use Rattle.mh_model.specs.Bodies as spec;
ghost use Rattle.mh_model.specs.Edits.{edited_if};

use mh_base::{Colour, Value};
use mh_group::Attribute;
use mh_model::{Drawing, Edit, Figure, Held, Object, Point};
use mh_store::looks::{fill_of, has_line, line_colour_of};

/// The most drawings of one object.
const MOST_DRAWINGS: usize = 256;

/// A box of this size.
pub fn sized(width: i32, height: i32) -> Option<Edit>
    ensures { (p : FixedValue) (b : BodyValue) → edited_if result p b ≡ spec.sized width height b }
{
    if 0 <= width && 0 <= height {
        Some(Edit::Put(Attribute::OrigBoxSize, Held::Pair(width, height)))
    } else {
        None
    }
}

/// Lines of this width.
pub fn lined(width: i32) -> Option<Edit>
    ensures { (p : FixedValue) (b : BodyValue) → edited_if result p b ≡ spec.lined width b }
{
    if 0 <= width {
        let held = Held::Value(Value::Int(width));
        Some(Edit::Put(Attribute::OrigLineWidth, held))
    } else {
        None
    }
}

/// The colour that these octets are, under the attribute.
pub fn coloured(attribute: Attribute, octets: &[u8]) -> Option<Edit>
    ensures { (p : FixedValue) (b : BodyValue) → edited_if result p b
        ≡ spec.coloured attribute octets.now b }
{
    let [red, green, blue, transparency] = octets else {
        return None;
    };
    let colour = Colour {
        red: *red,
        green: *green,
        blue: *blue,
        transparency: *transparency,
    };
    Some(Edit::Put(attribute, Held::Colour(colour)))
}

/// A figure on top of what was drawn, where there is room for it.
pub fn drawn(object: &Object, figure: Figure, from: (i32, i32), to: (i32, i32)) -> Option<Edit>
    ensures { edited_if result object.now.fixed object.now.body
        ≡ spec.drawn figure from.0 from.1 to.0 to.1 object.now.fixed object.now.body }
{
    if is_drawable(figure, from, to) && object.body.drawings.len() < MOST_DRAWINGS {
        Some(Edit::Draw(drawing_of(object, figure, from, to)))
    } else {
        None
    }
}

/// The points are near, and those of a rectangle in their order.
fn is_drawable(figure: Figure, from: (i32, i32), to: (i32, i32)) -> bool
    ensures { result ≡ spec.is_drawable figure from.0 from.1 to.0 to.1 }
{
    match figure {
        Figure::Line => are_near(from, to),
        Figure::Rectangle => are_near(from, to) && are_ordered(from, to),
    }
}

fn are_near(from: (i32, i32), to: (i32, i32)) -> bool
    ensures { result ≡ (spec.is_near from.0 && spec.is_near from.1 && spec.is_near to.0 && spec.is_near to.1) }
{
    if !is_near(from.0) {
        return false;
    }
    if !is_near(from.1) {
        return false;
    }
    is_near(to.0) && is_near(to.1)
}

fn is_near(unit: i32) -> bool
    ensures { result ≡ spec.is_near unit }
{
    -10_000 <= unit && unit <= 10_000
}

/// The first point is neither to the right of the second nor below it.
fn are_ordered(from: (i32, i32), to: (i32, i32)) -> bool
    ensures { result ≡ (int_le from.0 to.0 && int_le from.1 to.1) }
{
    from.0 <= to.0 && from.1 <= to.1
}

/// The figure between the points, with the object's colours and line width of now.
fn drawing_of(object: &Object, figure: Figure, from: (i32, i32), to: (i32, i32)) -> Drawing
    requires { spec.is_drawable figure from.0 from.1 to.0 to.1 ≡ true }
    ensures { result ≡ spec.drawing_of figure from.0 from.1 to.0 to.1 object.now }
{
    Drawing {
        figure,
        from: point(from.0, from.1),
        to: point(to.0, to.1),
        has_line: has_line(object),
        line: line_colour_of(object),
        fill: fill_of(object),
    }
}

fn point(x: i32, y: i32) -> Point
    requires beside { spec.is_near x ≡ true }
    requires below { spec.is_near y ≡ true }
    ensures { result ≡ record { x = x; y = y } }
{
    Point {
        x: narrow(x),
        y: narrow(y),
    }
}

/// A unit that is near is one of 16 bits.
fn narrow(unit: i32) -> i16
    requires { spec.is_near unit ≡ true }
    ensures { result ≡ unit }
{
    unit as i16
}

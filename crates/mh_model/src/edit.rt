//! What is changed of the body of an object.
ghost use Rattle.std.specs.Prelude.{◌≡◌, Some, OnOk, OnErr};
ghost use Rattle.mh_model.specs.Bodies.{brought, cleared, dropped, end_of, given, prepared, replaced, started, token_started};
ghost use Rattle.mh_model.specs.Edits.{edited};

use crate::{Body, Drawing, Fixed, Held, Listing};
use mh_base::{Octets, Value};
use mh_group::{Attribute, Class};
use std::alloc::AllocError;

/// A change of the body of one object. What it wants memory for is in it, but for the room of an
/// attribute that was not changed before, or of a drawing.
#[derive(Drop)]
pub enum Edit {
    /// A variable is given a value.
    Give(Value),
    /// An attribute gets another value.
    Put(Attribute, Held),
    /// The content becomes this, and this its text where the object is available.
    Load(Value, Option<Octets>),
    /// This is drawn on top of what was drawn.
    Draw(Drawing),
    /// What was drawn goes.
    Clear,
    /// The object becomes available, if it is not, with this as its text.
    Prepare(Option<Octets>),
    /// The object runs; it becomes available, if it did not run.
    Start(Option<Octets>),
    /// The object stops.
    Halt,
    /// The object is no longer available.
    Drop,
    /// The token of a group of objects goes to this position.
    Turn(usize),
    /// The items of a list group become these.
    List(Listing),
    /// So many octets of an entry field's text stand before its entry point.
    Point(usize),
    /// The text of an entry field becomes this, with so many octets before its entry point.
    Type(Octets, usize),
    /// What is typed replaces what stands there, or no longer does.
    Overwrite(bool),
    Highlight(bool),
    /// A push button is selected, or no longer is.
    Select(bool),
}

impl Body {
    /// Carries out the change of an object of which this is said. Where memory is refused, everything
    /// stays as it was.
    pub fn edit(&mut self, fixed: &Fixed, edit: Edit) -> Result<(), AllocError>
        ensures done { OnOk result (self.new ≡ edited edit fixed.now self.old) }
        ensures kept { OnErr result (self.new ≡ self.old) }
    {
        match edit {
            Edit::Give(value) => self.give(value),
            Edit::Put(attribute, held) => self.changes.set(attribute, held)?,
            Edit::Load(content, text) => return self.load(content, text),
            Edit::Draw(drawing) => self.drawings.push(drawing)?,
            Edit::Clear => self.clear(),
            Edit::Prepare(text) => self.prepare(text),
            Edit::Start(text) => self.start(fixed, text),
            Edit::Halt => self.running = false,
            Edit::Drop => self.forget(),
            Edit::Turn(position) => self.token = position,
            Edit::List(list) => self.relist(list),
            Edit::Point(point) => self.point = point,
            Edit::Type(text, point) => self.type_in(text, point),
            Edit::Overwrite(on) => self.overwrites = on,
            Edit::Highlight(on) => self.highlighted = on,
            Edit::Select(on) => self.selected = on,
        }
        Ok(())
    }

    /// Gives a variable a value. It takes no memory.
    pub fn give(&mut self, value: Value)
        ensures { self.new ≡ given value self.old }
    {
        self.value = Some(value);
    }

    fn load(&mut self, content: Value, text: Option<Octets>) -> Result<(), AllocError>
        ensures done { OnOk result (self.new ≡ replaced content text self.old) }
        ensures kept { OnErr result (self.new ≡ self.old) }
    {
        self.changes
            .set(Attribute::OrigContent, Held::Value(content))?;
        if self.available {
            self.point = end_of(&text);
            self.text = text;
        }
        Ok(())
    }

    fn clear(&mut self)
        ensures { self.new ≡ cleared self.old }
    {
        self.drawings.clear();
    }

    fn prepare(&mut self, text: Option<Octets>)
        ensures { self.new ≡ prepared text self.old }
    {
        if !self.available {
            self.point = end_of(&text);
            self.text = text;
            self.available = true;
        }
    }

    fn start(&mut self, fixed: &Fixed, text: Option<Octets>)
        ensures { self.new ≡ started text fixed.now self.old }
    {
        if !self.running {
            self.prepare(text);
            self.running = true;
            self.begin_token(fixed);
        }
    }

    fn begin_token(&mut self, fixed: &Fixed)
        ensures { self.new ≡ record self.old { token = token_started fixed.now self.old } }
    {
        if matches!(fixed.class, Class::TokenGroup) {
            self.token = 1;
        }
    }

    fn relist(&mut self, list: Listing)
        ensures { self.new ≡ record self.old { list = list } }
    {
        self.list = list;
    }

    fn type_in(&mut self, text: Octets, point: usize)
        ensures { self.new ≡ record self.old { text = Some text; point = point } }
    {
        self.text = Some(text);
        self.point = point;
    }

    /// Gives it the content of a file as its text. It takes no memory.
    pub fn bring(&mut self, text: Octets)
        ensures { self.new ≡ brought text self.old }
    {
        self.point = text.as_slice().len();
        self.text = Some(text);
    }

    fn forget(&mut self)
        ensures { self.new ≡ dropped self.old }
    {
        if self.available {
            self.available = false;
            self.text = None;
            self.point = 0;
        }
    }
}

/// How many octets the text has, if there is one.
fn end_of(text: &Option<Octets>) -> usize
    ensures { result ≡ end_of text.now }
{
    match text {
        Some(text) => text.as_slice().len(),
        None => 0,
    }
}

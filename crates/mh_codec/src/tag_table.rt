//! `TagTable`: which tag stands for each class, attribute, action and kind of values. What the tags are
//! around is left to the readers and writers.
ghost use Rattle.std.specs.Prelude.{◌≡◌, IfOk};
ghost use Rattle.mh_codec.specs.Tags.{IsTable, profile, first_double, class_tag, attribute_tag, action_tag, value_tag, content_name_tag, variable_tag, attribute_place, value_place};
ghost use Rattle.mh_codec.specs.TagLines.{table_by, read_table, unless_double, GivesTable};

use crate::tag_column::{column_by, has_double, tag_at};
use crate::tag_error::TagError;
use crate::tag_line::{NamedTag, TagContext};
use crate::tag_lines::read_lines;
use mh_base::Kind;
use mh_group::{ActionName, Attribute, Class};
use std::alloc::{AllocError, Global};
use std::marker::Model;

/// The tags of the notation: each of 16 bits, and none of them twice among the classes, the attributes,
/// the actions or the values.
#[derive(Drop)]
pub struct TagTable {
    classes: Vec<u16>,
    attributes: Vec<u16>,
    actions: Vec<u16>,
    values: Vec<u16>,
}

impl Model for TagTable {
    ghost use Rattle.mh_codec.specs.Tags.{Tags, IsTable};

    ghost Value = { Tags };

    ghost view = { λ t.
        record { classes = t.classes.items; attributes = t.attributes.items; actions = t.actions.items; values = t.values.items } };

    ghost invariant = { λ t.
        IsTable (record { classes = t.classes.items; attributes = t.attributes.items; actions = t.actions.items; values = t.values.items }) };
}

impl TagTable {
    /// The table of the profile, in which each tag is its number: classes from 0, attributes from 1,
    /// actions from 100, values from 60.
    pub fn profile(alloc: Global) -> Result<TagTable, AllocError>
        ensures { IfOk result (λ table. table ≡ profile) }
    {
        let named = Vec::new(alloc);
        let named = named.as_slice();
        let classes = column_by(alloc, named, TagContext::Class, 0, 17)?;
        let attributes = column_by(alloc, named, TagContext::Attribute, 1, 38)?;
        let actions = column_by(alloc, named, TagContext::Action, 100, 70)?;
        let values = column_by(alloc, named, TagContext::Value, 60, 7)?;
        Ok(TagTable {
            classes,
            attributes,
            actions,
            values,
        })
    }

    /// The table that the lines name: `class NAME N`, `attr NAME N`, `action NAME N` or `value NAME N`,
    /// with one space between words. A name is a word of the textual notation without its colon, or one of
    /// `ContentRef`, `IndirectRef`, `GBoolean`, `GInteger`, `GOctetString`, `GObjectRef` and `GContentRef`,
    /// and N is its tag in decimal digits. An empty line and one that begins with `#` are skipped, and
    /// what no line names keeps the tag of the profile. Lines are parted by line feeds.
    ///
    /// The first wrong line is told, with its number from 1 on; where all are good, the first context in
    /// which a tag stands twice.
    #[tactic(auto, unfolding(crate::specs::TagLines::read_table))]
    pub fn read(alloc: Global, bytes: &[u8]) -> Result<TagTable, TagError>
        ensures exact { GivesTable result (read_table bytes.now) }
    {
        let named = read_lines(alloc, bytes)?;
        table_by(alloc, named.as_slice())
    }

    /// Reveals to the prover what holds of each table. It does nothing.
    pub fn reveal_table(&self)
        ensures { IsTable self.now }
    {
        let _column = self.classes.as_slice();
    }

    pub(crate) fn class_tag(&self, class: Class) -> u16
        ensures { result ≡ class_tag self.now class }
    {
        tag_at(self.classes.as_slice(), class.number())
    }

    pub(crate) fn attribute_tag(&self, attribute: Attribute) -> u16
        ensures { result ≡ attribute_tag self.now attribute }
    {
        tag_at(self.attributes.as_slice(), attribute_place(attribute))
    }

    pub(crate) fn action_tag(&self, action: ActionName) -> u16
        ensures { result ≡ action_tag self.now action }
    {
        tag_at(self.actions.as_slice(), action.number())
    }

    /// The tag around values of this kind.
    pub(crate) fn value_tag(&self, kind: Kind) -> u16
        ensures { result ≡ value_tag self.now kind }
    {
        tag_at(self.values.as_slice(), value_place(kind))
    }

    /// The tag of the name of a content file.
    pub(crate) fn content_name_tag(&self) -> u16
        ensures { result ≡ content_name_tag self.now }
    {
        tag_at(self.values.as_slice(), 0)
    }

    /// The tag of a value that a variable holds.
    pub(crate) fn variable_tag(&self) -> u16
        ensures { result ≡ variable_tag self.now }
    {
        tag_at(self.values.as_slice(), 1)
    }
}

/// The table of these tags, or the first context in which one stands twice.
fn table_by(alloc: Global, named: &[NamedTag]) -> Result<TagTable, TagError>
    ensures { GivesTable result (unless_double (table_by named.now) (first_double (table_by named.now))) }
{
    let classes = column_by(alloc, named, TagContext::Class, 0, 17)?;
    let attributes = column_by(alloc, named, TagContext::Attribute, 1, 38)?;
    let actions = column_by(alloc, named, TagContext::Action, 100, 70)?;
    let values = column_by(alloc, named, TagContext::Value, 60, 7)?;
    match first_double(
        classes.as_slice(),
        attributes.as_slice(),
        actions.as_slice(),
        values.as_slice(),
    ) {
        Some(context) => Err(TagError::Double(context)),
        None => Ok(TagTable {
            classes,
            attributes,
            actions,
            values,
        }),
    }
}

/// The first context in which a tag stands twice.
#[tactic(auto, unfolding(crate::specs::Tags::first_double))]
fn first_double(classes: &[u16], attributes: &[u16], actions: &[u16], values: &[u16]) -> Option<u32>
    ensures { result ≡ first_double (record { classes = classes.now; attributes = attributes.now; actions = actions.now; values = values.now }) }
{
    if has_double(classes) {
        Some(1)
    } else if has_double(attributes) {
        Some(2)
    } else if has_double(actions) {
        Some(3)
    } else if has_double(values) {
        Some(4)
    } else {
        None
    }
}

/// Attributes are numbered from 1 on.
fn attribute_place(attribute: Attribute) -> u32
    ensures { result ≡ attribute_place attribute }
{
    attribute.number() - 1
}

/// The kinds of values stand behind the name of a content file and the reference of a variable.
fn value_place(kind: Kind) -> u32
    ensures { result ≡ value_place kind }
{
    match kind {
        Kind::Bool => 2,
        Kind::Int => 3,
        Kind::Octets => 4,
        Kind::Object => 5,
        Kind::Content => 6,
    }
}

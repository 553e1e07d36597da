//! A walk along the tokens of a text that keeps in mind what each stands in: so it is known which numbers name objects.
ghost use Rattle.std.specs.Prelude.{◌≡◌, ◌+◌, ◌<◌, ◌^◌, ◌++◌, slice_get, IfOk};
ghost use Rattle.mh_edit.specs.Walk as spec;

use crate::role::role_in;
use crate::sense::{Sense, sense_of};
use crate::word::{Extent, Word};
use mh_base::Kind;
use mh_group::{ActionName, Attribute, Class};
use std::alloc::{AllocError, Global};

/// What stands right in front of a token.
#[derive(Clone, Copy)]
pub enum Front {
    /// The name of a class.
    Class,
    /// A keyword behind which a reference stands.
    Reference,
    /// The keyword of a content file.
    Content,
    /// The opening bracket behind that.
    ContentOpen,
    /// Any other opening bracket.
    Open,
    /// A name behind an opening bracket: where it is.
    Name(Extent),
    Other,
}

/// The action within which a token stands, how many of its brackets are open, and how many of its values stand in front.
#[derive(Clone, Copy)]
pub struct Doing {
    pub action: ActionName,
    pub depth: usize,
    pub place: usize,
}

/// What a token stands in.
#[derive(Clone, Copy)]
pub struct Stand {
    /// The class of the group, if it is told in front.
    pub group: Option<Class>,
    /// The class of the object.
    pub class: Option<Class>,
    /// The number of the object; 0 for the group.
    pub object: u32,
    pub field: Option<Attribute>,
    pub doing: Option<Doing>,
    pub front: Front,
}

/// What a token is to whoever edits.
#[derive(Clone, Copy)]
pub enum Role {
    Class(Class),
    Attribute(Attribute),
    Action(ActionName),
    /// The number with which an object is defined.
    Defines(u32),
    /// The number of an object that is named: in the group itself.
    Names(u32),
    /// The same, in the group whose name stands there.
    NamesIn(Extent, u32),
    /// The name of a group.
    Group(Extent),
    /// The name of a content file.
    Content(Extent),
    Other,
}

/// A token with its role, and what it stands in.
#[derive(Clone, Copy)]
pub struct Spot {
    pub at: Extent,
    pub role: Role,
    pub sense: Sense,
    /// The class and the number of the object that it is of.
    pub class: Option<Class>,
    pub object: u32,
}

/// At the beginning of a text.
pub fn at_first() -> Stand
    ensures { result ≡ spec.at_first }
{
    Stand {
        group: None,
        class: None,
        object: 0,
        field: None,
        doing: None,
        front: Front::Other,
    }
}

/// The tokens with their roles.
pub fn spots_of(alloc: Global, bytes: &[u8], words: &[Word]) -> Result<Vec<Spot>, AllocError>
    ensures { IfOk result (λ found. found.items ≡ spec.spots bytes.now words.now) }
{
    let mut found = Vec::new(alloc);
    let mut stand = at_first();
    for word in words {
        let sense = sense_of(bytes, *word);
        stand = entered(stand, sense);
        found.push(spot_at(stand, word.at, sense))?;
        stand = stand_behind(stand, sense);
    }
    Ok(found)
}

/// What the token itself stands in, by what the one in front stood in: a class and a number are of the object that they begin.
fn entered(stand: Stand, sense: Sense) -> Stand
    ensures { result ≡ spec.entered stand sense }
{
    match sense {
        Sense::Class(class) => Stand {
            class: Some(class),
            group: Some(stand.group.unwrap_or(class)),
            ..stand
        },
        Sense::Number(number) if matches!(stand.front, Front::Class) => Stand {
            object: number,
            ..stand
        },
        _ => stand,
    }
}

fn spot_at(stand: Stand, at: Extent, sense: Sense) -> Spot
    ensures { result ≡ spec.spot_at stand at sense }
{
    Spot {
        at,
        role: role_in(stand, sense),
        sense,
        class: stand.class,
        object: stand.object,
    }
}

/// What the next token stands in.
#[tactic(auto, unfolding(crate::specs::Walk::stand_behind))]
fn stand_behind(stand: Stand, sense: Sense) -> Stand
    ensures { result ≡ spec.stand_behind stand sense }
{
    match sense {
        Sense::CloseBrace => Stand {
            class: stand.group,
            object: 0,
            field: None,
            doing: None,
            front: Front::Other,
            ..stand
        },
        Sense::Attribute(attribute) => Stand {
            field: Some(attribute),
            doing: None,
            front: Front::Other,
            ..stand
        },
        _ => Stand {
            doing: doing_behind(stand.doing, sense),
            front: front_behind(stand.front, sense),
            ..stand
        },
    }
}

fn front_behind(front: Front, sense: Sense) -> Front
    ensures { result ≡ spec.front_behind front sense }
{
    match sense {
        Sense::Class(_) => Front::Class,
        Sense::IndirectRef | Sense::Kind(Kind::Object) => Front::Reference,
        Sense::ContentRef => Front::Content,
        Sense::Open => open_behind(front),
        Sense::Text(inner) => text_behind(front, inner),
        _ => Front::Other,
    }
}

fn open_behind(front: Front) -> Front
    ensures { result ≡ spec.open_behind front }
{
    match front {
        Front::Content => Front::ContentOpen,
        _ => Front::Open,
    }
}

fn text_behind(front: Front, inner: Extent) -> Front
    ensures { result ≡ spec.text_behind front inner }
{
    match front {
        Front::Open => Front::Name(inner),
        _ => Front::Other,
    }
}

#[tactic(auto, unfolding(crate::specs::Walk::doing_behind))]
fn doing_behind(doing: Option<Doing>, sense: Sense) -> Option<Doing>
    ensures { result ≡ spec.doing_behind doing sense }
{
    match (doing, sense) {
        (_, Sense::Action(action)) => Some(Doing {
            action,
            depth: 0,
            place: 0,
        }),
        (Some(doing), Sense::Open) => Some(Doing {
            depth: doing.depth.saturating_add(1),
            ..doing
        }),
        (Some(doing), Sense::Close) => closed(doing),
        (Some(doing), Sense::Number(_) | Sense::Text(_) | Sense::Value) => Some(valued(doing)),
        _ => doing,
    }
}

/// A value at depth 1 is whole.
fn valued(doing: Doing) -> Doing
    ensures { result ≡ spec.valued doing }
{
    if doing.depth == 1 {
        Doing {
            place: doing.place.saturating_add(1),
            ..doing
        }
    } else {
        doing
    }
}

fn closed(doing: Doing) -> Option<Doing>
    ensures { result ≡ spec.closed doing }
{
    if doing.depth <= 1 {
        return None;
    }
    Some(valued(Doing {
        depth: doing.depth - 1,
        ..doing
    }))
}

/// What a token that begins at this place stands in.
pub fn stand_before(bytes: &[u8], words: &[Word], offset: usize) -> Stand
    ensures { result ≡ spec.stand_before bytes.now offset spec.at_first words.now }
{
    let mut stand = at_first();
    for word in words {
        if word.at.start >= offset {
            return stand;
        }
        let sense = sense_of(bytes, *word);
        stand = stand_behind(entered(stand, sense), sense);
    }
    stand
}

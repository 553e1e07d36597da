//! What may stand at a place of a text.
use mh_base::Kind;
use mh_edit::{Front, Stand, Word, need_at, stand_before, wants_reference};
use mh_group::{ActionName, Attribute, Class, Need, Shape};
use mh_text::TokenKind;
use std::alloc::{AllocError, Global};

/// What may stand there.
#[derive(Clone, Copy)]
pub(crate) enum Wanted {
    Nothing,
    GroupClass,
    Class,
    /// An attribute of the object with this class and number.
    Attribute(Class, u32),
    Action,
    /// An object that fits.
    Object(Fit),
    Event,
    Truth,
    Justification,
    Kind,
}

/// Which objects fit.
#[derive(Clone, Copy)]
pub(crate) enum Fit {
    Any,
    /// Those for which the action has a rule.
    Target(ActionName),
    Variable,
    /// Variables that hold values of this kind.
    Holds(Kind),
    Visible,
}

/// The brackets that are open at a place, and the token in front.
#[derive(Clone, Copy)]
struct Around {
    braces: usize,
    /// Parentheses behind the last brace.
    parentheses: usize,
    last: Option<TokenKind>,
}

/// What may stand at a place.
pub(crate) fn wanted_at(
    alloc: Global,
    bytes: &[u8],
    words: &[Word],
    offset: usize,
) -> Result<Wanted, AllocError> {
    let around = around_of(alloc, words, offset)?;
    let stand = stand_before(bytes, words, offset);
    Ok(wanted_in(around, stand))
}

fn around_of(alloc: Global, words: &[Word], offset: usize) -> Result<Around, AllocError> {
    let mut outer = Vec::new(alloc);
    let mut parentheses = 0usize;
    let mut last = None;
    for word in words {
        if word.at.start >= offset {
            break;
        }
        last = Some(word.kind);
        match word.kind {
            TokenKind::OpenBrace => {
                outer.push(parentheses)?;
                parentheses = 0;
            }
            TokenKind::CloseBrace => parentheses = outer.pop().unwrap_or(0),
            TokenKind::OpenParenthesis => parentheses = parentheses.saturating_add(1),
            TokenKind::CloseParenthesis => parentheses = parentheses.saturating_sub(1),
            _ => {}
        }
    }
    Ok(Around {
        braces: outer.len(),
        parentheses,
        last,
    })
}

fn wanted_in(around: Around, stand: Stand) -> Wanted {
    if matches!(around.last, Some(TokenKind::OpenBrace)) {
        return if around.braces == 1 {
            Wanted::GroupClass
        } else {
            Wanted::Class
        };
    }
    if around.parentheses != 0 {
        return wanted_within(stand);
    }
    match stand.class {
        Some(class) => wanted_of(class, stand, around.last),
        None => Wanted::Nothing,
    }
}

/// What may stand in an object, outside of all parentheses.
fn wanted_of(class: Class, stand: Stand, last: Option<TokenKind>) -> Wanted {
    match stand.field {
        Some(field) if matches!(last, Some(TokenKind::Keyword)) => wanted_value(class.shape(field)),
        _ => Wanted::Attribute(class, stand.object),
    }
}

/// What may stand as the value of an attribute.
fn wanted_value(shape: Shape) -> Wanted {
    match shape {
        Shape::Bool => Wanted::Truth,
        Shape::Event => Wanted::Event,
        Shape::Justification => Wanted::Justification,
        Shape::Ref => Wanted::Object(Fit::Any),
        _ => Wanted::Nothing,
    }
}

/// What may stand between the parentheses of an attribute's value.
fn wanted_within(stand: Stand) -> Wanted {
    if matches!(stand.front, Front::Reference) {
        return Wanted::Object(Fit::Variable);
    }
    match stand.doing {
        Some(doing) if doing.depth == 1 => wanted_of_action(doing.action, doing.place),
        Some(_) => Wanted::Nothing,
        None => wanted_in_field(stand),
    }
}

fn wanted_in_field(stand: Stand) -> Wanted {
    match stand.field {
        Some(Attribute::OnStartUp | Attribute::OnCloseDown | Attribute::LinkEffect) => {
            Wanted::Action
        }
        _ if wants_reference(stand) => Wanted::Object(Fit::Visible),
        _ => Wanted::Nothing,
    }
}

/// What may stand in an action behind so many values.
fn wanted_of_action(action: ActionName, place: usize) -> Wanted {
    match place.checked_sub(1) {
        None => Wanted::Object(Fit::Target(action)),
        Some(before) => wanted_by(need_at(action, before)),
    }
}

fn wanted_by(need: Option<Need>) -> Wanted {
    match need {
        Some(Need::Bool) => Wanted::Truth,
        Some(Need::Event) => Wanted::Event,
        Some(Need::Ref) => Wanted::Object(Fit::Any),
        Some(Need::Receiver(kind)) => Wanted::Object(Fit::Holds(kind)),
        Some(Need::Typed) => Wanted::Kind,
        _ => Wanted::Nothing,
    }
}

/// Whether an object of the class fits.
pub(crate) fn is_fit(fit: Fit, class: Class) -> bool {
    match fit {
        Fit::Any => true,
        Fit::Target(action) => class.admits(action),
        Fit::Variable => class.is_variable(),
        Fit::Holds(kind) => holds(class, kind),
        Fit::Visible => class.is_visible(),
    }
}

/// Whether variables of the class hold values of the kind.
fn holds(class: Class, kind: Kind) -> bool {
    match kind {
        Kind::Bool => matches!(class, Class::BooleanVar),
        Kind::Int => matches!(class, Class::IntegerVar),
        Kind::Octets => matches!(class, Class::OStringVar),
        Kind::Object => matches!(class, Class::ObjectRefVar),
        Kind::Content => matches!(class, Class::ContentRefVar),
    }
}

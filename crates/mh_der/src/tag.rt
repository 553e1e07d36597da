//! `Tag`: what an element is (ITU-T X.690, 8.1.2).

/// The class of a tag.
#[derive(Clone, Copy, PartialEq, Eq)]
pub enum TagClass {
    Universal,
    Application,
    Context,
    Private,
}

/// A tag: its class, whether its contents are elements, and its number.
#[derive(Clone, Copy, PartialEq, Eq)]
pub struct Tag {
    pub class: TagClass,
    pub is_constructed: bool,
    pub number: u16,
}

/// The tag of truth values.
pub const BOOLEAN: Tag = Tag {
    class: TagClass::Universal,
    is_constructed: false,
    number: 1,
};

/// The tag of integers.
pub const INTEGER: Tag = Tag {
    class: TagClass::Universal,
    is_constructed: false,
    number: 2,
};

/// The tag of octet strings.
pub const OCTET_STRING: Tag = Tag {
    class: TagClass::Universal,
    is_constructed: false,
    number: 4,
};

/// The tag of sequences.
pub const SEQUENCE: Tag = Tag {
    class: TagClass::Universal,
    is_constructed: true,
    number: 16,
};

//! `Class`: the classes of groups and ingredients, and the sets that the tables speak of.
ghost use Rattle.std.specs.Prelude.{◌≡◌, ◌==◌};
ghost use Rattle.std.specs.List.{find};
ghost use Rattle.std.specs.Str.{bytes_eq};
ghost use Rattle.mh_group.specs.Words.{class_word, classes};
ghost use Rattle.mh_group.specs.Table.{class_number, is_group_class, is_variable, is_visible, is_line_art, has_content, shows_text, is_interactible, is_token_manager, is_presentable, is_runnable};

/// The classes (ISO/IEC 13522-5) that the profile has, in the order of their numbers.
#[derive(Clone, Copy, PartialEq, Eq)]
pub enum Class {
    Application,
    Scene,
    Link,
    BooleanVar,
    IntegerVar,
    OStringVar,
    ObjectRefVar,
    ContentRefVar,
    Rectangle,
    Text,
    DynamicLineArt,
    ListGroup,
    TokenGroup,
    EntryField,
    PushButton,
    ResidentPrg,
    Stream,
}

/// All classes.
pub const ALL: [Class; 17] = [
    Class::Application,
    Class::Scene,
    Class::Link,
    Class::BooleanVar,
    Class::IntegerVar,
    Class::OStringVar,
    Class::ObjectRefVar,
    Class::ContentRefVar,
    Class::Rectangle,
    Class::Text,
    Class::DynamicLineArt,
    Class::ListGroup,
    Class::TokenGroup,
    Class::EntryField,
    Class::PushButton,
    Class::ResidentPrg,
    Class::Stream,
];

impl Class {
    /// The one that this word names, if there is one.
    pub fn of_word(word: &[u8]) -> Option<Class>
        ensures { result ≡ find (λ x. bytes_eq (class_word x) word.now) classes }
    {
        ALL.iter().copied().find(|x| x.word() == word)
    }

    /// The one with this number, if there is one.
    pub fn of_number(number: u32) -> Option<Class>
        ensures { result ≡ find (λ x. class_number x == number) classes }
    {
        ALL.iter().copied().find(|x| x.number() == number)
    }

    /// Its word in the textual notation, without the colon.
    #[tactic(auto, unfolding(crate::specs::Words::class_word))]
    pub fn word(self) -> &'static [u8]
        ensures { result.now ≡ class_word self }
    {
        match self {
            Class::Application => b"Application",
            Class::Scene => b"Scene",
            Class::Link => b"Link",
            Class::BooleanVar => b"BooleanVar",
            Class::IntegerVar => b"IntegerVar",
            Class::OStringVar => b"OStringVar",
            Class::ObjectRefVar => b"ObjectRefVar",
            Class::ContentRefVar => b"ContentRefVar",
            Class::Rectangle => b"Rectangle",
            Class::Text => b"Text",
            Class::DynamicLineArt => b"DynamicLineArt",
            Class::ListGroup => b"ListGroup",
            Class::TokenGroup => b"TokenGroup",
            Class::EntryField => b"EntryField",
            Class::PushButton => b"PushButton",
            Class::ResidentPrg => b"ResidentPrg",
            Class::Stream => b"Stream",
        }
    }

    /// Its number in the tables of the profile.
    pub fn number(self) -> u32
        ensures { result ≡ class_number self }
    {
        match self {
            Class::Application => 0,
            Class::Scene => 1,
            Class::Link => 2,
            Class::BooleanVar => 3,
            Class::IntegerVar => 4,
            Class::OStringVar => 5,
            Class::ObjectRefVar => 6,
            Class::ContentRefVar => 7,
            Class::Rectangle => 8,
            Class::Text => 9,
            Class::DynamicLineArt => 10,
            Class::ListGroup => 11,
            Class::TokenGroup => 12,
            Class::EntryField => 13,
            Class::PushButton => 14,
            Class::ResidentPrg => 15,
            Class::Stream => 16,
        }
    }

    /// Whether the class is that of a group, and not of an ingredient.
    pub fn is_group(self) -> bool
        ensures { result ≡ is_group_class self }
    {
        matches!(self, Class::Application | Class::Scene)
    }

    /// Whether objects of the class are variables (ISO/IEC 13522-5, Variable).
    pub fn is_variable(self) -> bool
        ensures { result ≡ is_variable self }
    {
        matches!(
            self,
            Class::BooleanVar
                | Class::IntegerVar
                | Class::OStringVar
                | Class::ObjectRefVar
                | Class::ContentRefVar
        )
    }

    /// Whether objects of the class can be seen (ISO/IEC 13522-5, Visible).
    pub fn is_visible(self) -> bool
        ensures { result ≡ is_visible self }
    {
        self.is_line_art() || self.shows_text()
    }

    /// Whether they are drawn with lines and fills (ISO/IEC 13522-5, LineArt).
    pub fn is_line_art(self) -> bool
        ensures { result ≡ is_line_art self }
    {
        matches!(self, Class::Rectangle | Class::DynamicLineArt)
    }

    /// Whether they show a text that is content: in the group's file or apart from it.
    pub fn has_content(self) -> bool
        ensures { result ≡ has_content self }
    {
        matches!(self, Class::Text | Class::EntryField)
    }

    /// Whether they show a text: content, or a label.
    pub fn shows_text(self) -> bool
        ensures { result ≡ shows_text self }
    {
        matches!(self, Class::Text | Class::EntryField | Class::PushButton)
    }

    /// Whether a viewer can interact with them (ISO/IEC 13522-5, Interactible).
    pub fn is_interactible(self) -> bool
        ensures { result ≡ is_interactible self }
    {
        matches!(self, Class::EntryField | Class::PushButton)
    }

    /// Whether they hand a token among their members (ISO/IEC 13522-5, TokenManager).
    pub fn is_token_manager(self) -> bool
        ensures { result ≡ is_token_manager self }
    {
        matches!(self, Class::ListGroup | Class::TokenGroup)
    }

    /// Whether a scene presents objects of the class (ISO/IEC 13522-5, Presentable): they can become
    /// available and run.
    pub fn is_presentable(self) -> bool
        ensures { result ≡ is_presentable self }
    {
        self.is_visible() || self.is_token_manager() || matches!(self, Class::Stream)
    }

    /// Whether objects of the class can run: links, and what is presented.
    pub fn is_runnable(self) -> bool
        ensures { result ≡ is_runnable self }
    {
        matches!(self, Class::Link) || self.is_presentable()
    }
}

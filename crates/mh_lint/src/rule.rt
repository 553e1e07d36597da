//! `Rule`: what is noted of objects, without a theorem.
ghost use Rattle.std.specs.Prelude.{◌≡◌};
ghost use Rattle.mh_lint.specs.Rules as spec;

/// A rule of notes.
#[derive(Clone, Copy)]
pub enum Rule {
    /// A group that is read has the name of an editor's backup.
    EditorBackup,
    /// A group calls itself by another name than that of its file.
    IdentifierDiffers,
    /// A comment turns off a rule that there is none of.
    UnknownRule,
    /// An application leads away at once, while items of its own are active at first.
    StartLeadsAway,
    /// An item of an application ends with the first transition.
    NotShared,
    /// A link does nothing.
    NoActions,
    /// An action stands behind one that leads away.
    BehindTransition,
    /// A number is divided by zero.
    DivisionByZero,
    /// A size or a line width is negative.
    NegativeSize,
    /// A colour has not four octets.
    ColourOctets,
    /// A timer is set that no link hears.
    UnheardTimer,
    /// The screen is locked, and nothing unlocks it.
    LockedForEver,
    /// A variable is read by nothing.
    UnreadVariable,
    /// Nothing lets a field interact.
    NoInteraction,
    /// A visible lies off the screen, and stays there.
    OffScreen,
    /// A visible covers no cell, and never will.
    CoversNoCell,
    /// A text has no room in its box, and never will.
    CutText,
    /// A text has the colour that lies behind it.
    TextInItsColour,
    /// Content has line feeds, and no carriage return.
    BareLineFeeds,
    /// Content is not there, while a file with nearly its name is.
    NamedAlike,
    /// Content has to arrive.
    ContentToCome,
}

/// All rules.
pub const RULES: [Rule; 21] = [
    Rule::EditorBackup,
    Rule::IdentifierDiffers,
    Rule::UnknownRule,
    Rule::StartLeadsAway,
    Rule::NotShared,
    Rule::NoActions,
    Rule::BehindTransition,
    Rule::DivisionByZero,
    Rule::NegativeSize,
    Rule::ColourOctets,
    Rule::UnheardTimer,
    Rule::LockedForEver,
    Rule::UnreadVariable,
    Rule::NoInteraction,
    Rule::OffScreen,
    Rule::CoversNoCell,
    Rule::CutText,
    Rule::TextInItsColour,
    Rule::BareLineFeeds,
    Rule::NamedAlike,
    Rule::ContentToCome,
];

impl Rule {
    /// The rule with this name, if there is one.
    pub fn of_word(word: &[u8]) -> Option<Rule>
        ensures { result ≡ spec.rule_named word.now }
    {
        RULES.iter().copied().find(|x| x.word() == word)
    }

    /// The name of the rule.
    #[tactic(auto, unfolding(crate::specs::Rules::rule_word))]
    pub fn word(self) -> &'static [u8]
        ensures { result.now ≡ spec.rule_word self }
    {
        match self {
            Rule::EditorBackup => b"editor-backup",
            Rule::IdentifierDiffers => b"identifier-differs",
            Rule::UnknownRule => b"unknown-rule",
            Rule::StartLeadsAway => b"start-leads-away",
            Rule::NotShared => b"not-shared",
            Rule::NoActions => b"no-actions",
            Rule::BehindTransition => b"behind-transition",
            Rule::DivisionByZero => b"division-by-zero",
            Rule::NegativeSize => b"negative-size",
            Rule::ColourOctets => b"colour-octets",
            Rule::UnheardTimer => b"unheard-timer",
            Rule::LockedForEver => b"locked-for-ever",
            Rule::UnreadVariable => b"unread-variable",
            Rule::NoInteraction => b"no-interaction",
            Rule::OffScreen => b"off-screen",
            Rule::CoversNoCell => b"covers-no-cell",
            Rule::CutText => b"cut-text",
            Rule::TextInItsColour => b"text-in-its-colour",
            Rule::BareLineFeeds => b"bare-line-feeds",
            Rule::NamedAlike => b"named-alike",
            Rule::ContentToCome => b"content-to-come",
        }
    }

    /// What is said of the object or the action that has it.
    #[tactic(auto, unfolding(crate::specs::Rules::rule_text))]
    pub fn text(self) -> &'static [u8]
        ensures { result.now ≡ spec.rule_text self }
    {
        match self {
            Rule::EditorBackup =>
                b"has the name of an editor's backup, and is read as a group all the same",
            Rule::IdentifierDiffers =>
                b"calls itself by a name that is not the path of its file, and is known by that path alone",
            Rule::UnknownRule =>
                b"stands in a file with a comment that allows a rule which there is none of",
            Rule::StartLeadsAway =>
                b"leads away at once, so that its items which are active at first do not run",
            Rule::NotShared =>
                b"is not shared: it ends with the first transition, and nothing runs it again",
            Rule::NoActions => b"does nothing: its effect has no action",
            Rule::BehindTransition =>
                b"has an action behind one that leads away, which throws it off unless something led away before",
            Rule::DivisionByZero => b"divides by zero, which changes nothing",
            Rule::NegativeSize => b"sets a negative size, which changes nothing",
            Rule::ColourOctets => b"sets a colour that has not four octets, which changes nothing",
            Rule::UnheardTimer => b"sets a timer that no link hears",
            Rule::LockedForEver => b"locks the screen, and no action of the service unlocks it",
            Rule::UnreadVariable =>
                b"is read by nothing: no action tests it, takes its value or goes through it",
            Rule::NoInteraction => b"never takes a key: no action lets it interact",
            Rule::OffScreen => b"lies off the screen, and nothing moves it",
            Rule::CoversNoCell => b"covers no cell of 12 by 16 units, and nothing changes its box",
            Rule::CutText => b"has a text that is cut by its box, and nothing changes either",
            Rule::TextInItsColour =>
                b"has a text in the colour of its own background, and nothing changes that",
            Rule::BareLineFeeds =>
                b"shows content with line feeds and no carriage return, which alone ends a line (=0D)",
            Rule::NamedAlike =>
                b"shows content that the folder has not, and a file there has nearly its name",
            Rule::ContentToCome => b"shows content that has to arrive: the folder has no such file",
        }
    }
}

/// Which rules are turned off.
#[derive(Clone, Copy)]
pub struct Allowed {
    pub editor_backup: bool,
    pub identifier_differs: bool,
    pub unknown_rule: bool,
    pub start_leads_away: bool,
    pub not_shared: bool,
    pub no_actions: bool,
    pub behind_transition: bool,
    pub division_by_zero: bool,
    pub negative_size: bool,
    pub colour_octets: bool,
    pub unheard_timer: bool,
    pub locked_for_ever: bool,
    pub unread_variable: bool,
    pub no_interaction: bool,
    pub off_screen: bool,
    pub covers_no_cell: bool,
    pub cut_text: bool,
    pub text_in_its_colour: bool,
    pub bare_line_feeds: bool,
    pub named_alike: bool,
    pub content_to_come: bool,
}

impl Allowed {
    /// Whether this rule is turned off.
    pub fn has(self, rule: Rule) -> bool
        ensures { result ≡ spec.has self rule }
    {
        match rule {
            Rule::EditorBackup => self.editor_backup,
            Rule::IdentifierDiffers => self.identifier_differs,
            Rule::UnknownRule => self.unknown_rule,
            Rule::StartLeadsAway => self.start_leads_away,
            Rule::NotShared => self.not_shared,
            Rule::NoActions => self.no_actions,
            Rule::BehindTransition => self.behind_transition,
            Rule::DivisionByZero => self.division_by_zero,
            Rule::NegativeSize => self.negative_size,
            Rule::ColourOctets => self.colour_octets,
            Rule::UnheardTimer => self.unheard_timer,
            Rule::LockedForEver => self.locked_for_ever,
            Rule::UnreadVariable => self.unread_variable,
            Rule::NoInteraction => self.no_interaction,
            Rule::OffScreen => self.off_screen,
            Rule::CoversNoCell => self.covers_no_cell,
            Rule::CutText => self.cut_text,
            Rule::TextInItsColour => self.text_in_its_colour,
            Rule::BareLineFeeds => self.bare_line_feeds,
            Rule::NamedAlike => self.named_alike,
            Rule::ContentToCome => self.content_to_come,
        }
    }
}

//! `Justification`: where the lines of a text begin.
ghost use Rattle.std.specs.Prelude.{◌≡◌, ◌==◌};
ghost use Rattle.std.specs.List.{find};
ghost use Rattle.std.specs.Str.{bytes_eq};
ghost use Rattle.mh_group.specs.Words.{justification_word, justifications, justification_number};

/// Where the lines of a text begin (ISO/IEC 13522-5, HJustification), in the order of their numbers.
#[derive(Clone, Copy, PartialEq, Eq)]
pub enum Justification {
    Start,
    End,
    Centre,
}

const ALL: [Justification; 3] = [
    Justification::Start,
    Justification::End,
    Justification::Centre,
];

impl Justification {
    /// The one that this word names, if there is one.
    pub fn of_word(word: &[u8]) -> Option<Justification>
        ensures { result ≡ find (λ x. bytes_eq (justification_word x) word.now) justifications }
    {
        ALL.iter().copied().find(|x| x.word() == word)
    }

    /// The one with this number, if there is one.
    pub fn of_number(number: u32) -> Option<Justification>
        ensures { result ≡ find (λ x. justification_number x == number) justifications }
    {
        ALL.iter().copied().find(|x| x.number() == number)
    }

    /// Its word in the textual notation.
    #[tactic(auto, unfolding(crate::specs::Words::justification_word))]
    pub fn word(self) -> &'static [u8]
        ensures { result.now ≡ justification_word self }
    {
        match self {
            Justification::Start => b"start",
            Justification::End => b"end",
            Justification::Centre => b"centre",
        }
    }

    /// Its number in the tables of the profile.
    pub fn number(self) -> u32
        ensures { result ≡ justification_number self }
    {
        match self {
            Justification::Start => 1,
            Justification::End => 2,
            Justification::Centre => 3,
        }
    }
}

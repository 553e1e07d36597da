//! The first words of the lines that are explained.
ghost use Rattle.std.specs.Prelude.{◌≡◌};
ghost use Rattle.mh_why.specs.Keywords.{keyword_word, keyword_of};

/// The first word of a line that is explained.
#[derive(Clone, Copy)]
pub(crate) enum Keyword {
    Accepted,
    Start,
    Key,
    Tick,
    Stream,
    Engine,
    Arrive,
    Refused,
    Config,
    Object,
    By,
    Cause,
    File,
    Service,
    Tags,
    Script,
    Read,
    Fault,
}

static KEYWORDS: [Keyword; 18] = [
    Keyword::Accepted,
    Keyword::Start,
    Keyword::Key,
    Keyword::Tick,
    Keyword::Stream,
    Keyword::Engine,
    Keyword::Arrive,
    Keyword::Refused,
    Keyword::Config,
    Keyword::Object,
    Keyword::By,
    Keyword::Cause,
    Keyword::File,
    Keyword::Service,
    Keyword::Tags,
    Keyword::Script,
    Keyword::Read,
    Keyword::Fault,
];

impl Keyword {
    fn word(self) -> &'static [u8]
        ensures { result.now ≡ keyword_word self }
    {
        match self {
            Keyword::Accepted => b"accepted",
            Keyword::Start => b"start",
            Keyword::Key => b"key",
            Keyword::Tick => b"tick",
            Keyword::Stream => b"stream",
            Keyword::Engine => b"engine",
            Keyword::Arrive => b"arrive",
            Keyword::Refused => b"refused",
            Keyword::Config => b"config",
            Keyword::Object => b"object",
            Keyword::By => b"by",
            Keyword::Cause => b"cause",
            Keyword::File => b"file",
            Keyword::Service => b"service",
            Keyword::Tags => b"tags",
            Keyword::Script => b"script",
            Keyword::Read => b"read",
            Keyword::Fault => b"fault",
        }
    }

    /// The keyword that is this word, if it is one.
    pub(crate) fn of_word(word: &[u8]) -> Option<Keyword>
        ensures { result ≡ keyword_of word.now }
    {
        KEYWORDS.iter().copied().find(|x| x.word() == word)
    }
}

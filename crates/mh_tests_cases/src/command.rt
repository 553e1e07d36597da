//! The words of a call behind its program: a subcommand and options, each of which `redplay` and `redtry` know.

/// The day on which a play begins if no other is told.
const DAY: u32 = 60_000;

/// A call, word by word.
#[derive(Clone, Copy)]
pub struct Command<'a> {
    pub name: &'a str,
    pub start: &'a str,
    pub mjd: u32,
    pub lenient: bool,
    /// The file that has the seal by which is played.
    pub sealed: Option<&'a str>,
    pub strict: bool,
    pub tap: bool,
    pub keys: u32,
    pub steps: u32,
    /// The group and the number of the object that is told alone (`--only`, `--object`).
    pub only: Option<(&'a str, u32)>,
    /// Whether a trace is told as objects, and which of its steps.
    pub json: bool,
    pub from: u32,
    pub until: u32,
    /// Behind how many steps a state is told.
    pub at: u32,
    /// The cell of which is told what lies there, by its column and its row.
    pub cell: Option<(u32, u32)>,
    pub aim: Aim<'a>,
}

/// Where a script is to lead that is looked for.
#[derive(Clone, Copy)]
pub enum Aim<'a> {
    Fault,
    /// To more steps than are made.
    More,
    /// To the scene of this path.
    Scene(&'a str),
    /// To this text.
    Shown(&'a str),
}

impl<'a> Command<'a> {
    /// The call that these words say, if they say one.
    pub fn read(text: &'a str) -> Option<Command<'a>> {
        let (name, options) = text.split_once(' ').unwrap_or((text, ""));
        let mut command = Command {
            name,
            start: "a",
            mjd: DAY,
            lenient: false,
            sealed: None,
            strict: false,
            tap: false,
            keys: 6,
            steps: 10_000,
            only: None,
            json: false,
            from: 1,
            until: u32::MAX,
            at: u32::MAX,
            cell: None,
            aim: Aim::Fault,
        };
        for option in options.split("--").skip(1) {
            command = command.with(option.trim_end())?;
        }
        Some(command)
    }

    /// The same with an option more.
    fn with(self, option: &'a str) -> Option<Command<'a>> {
        let (word, value) = option.split_once(' ').unwrap_or((option, ""));
        let mut command = self;
        match word {
            "lenient" => command.lenient = true,
            "sealed" => command.sealed = Some(value),
            "strict" => command.strict = true,
            "tap" => command.tap = true,
            "start" => command.start = unquoted(value),
            "mjd" => command.mjd = value.parse::<u32>().ok()?,
            "keys" => command.keys = value.parse::<u32>().ok()?,
            "steps" => command.steps = value.parse::<u32>().ok()?,
            "only" | "object" => command.only = Some(object(value)?),
            "format" => command.json = value == "json",
            "cell" => command.cell = Some(cell(value)?),
            "at" => command.at = value.parse::<u32>().ok()?,
            "from" => command.from = value.parse::<u32>().ok()?,
            "until" => command.until = value.parse::<u32>().ok()?,
            "endless" => command.aim = Aim::More,
            "to" => command.aim = Aim::Scene(value),
            "shows" => command.aim = Aim::Shown(value),
            _ => return None,
        }
        Some(command)
    }
}

/// A word; `''` is the empty one.
fn unquoted(word: &str) -> &str {
    if word == "''" { "" } else { word }
}

/// A group and a number.
fn object(value: &str) -> Option<(&str, u32)> {
    let (group, number) = value.split_once(' ')?;
    Some((group, number.parse::<u32>().ok()?))
}

/// A column and a row of the screen.
fn cell(value: &str) -> Option<(u32, u32)> {
    let (column, row) = value.split_once(' ')?;
    let (column, row) = (column.parse::<u32>().ok()?, row.parse::<u32>().ok()?);
    if column < 60 && row < 36 {
        Some((column, row))
    } else {
        None
    }
}

//! `Grounds`: what the lines are told by, of the files of a service: where things stand in them, and which rules their comments
//! turn off.
//!
//! Each file is read once for all lines.
ghost use Rattle.std.specs.Prelude.{◌≡◌, Some, IfOk};
ghost use Rattle.mh_places.specs.Directory.{AreBeside, file_of};
ghost use Rattle.mh_lint.specs.NoteLines as spec;

use crate::note_lines::is_turned_off;
use crate::rule::{Allowed, Rule};
use mh_base::GroupName;
use mh_places::Directory;
use std::alloc::{AllocError, Global};
use std::marker::Model;

/// What the lines are told by. A contract sees the files.
#[derive(Drop)]
pub struct Grounds<'a> {
    directory: Directory<'a>,
    /// The rules that are turned off, file by file.
    allowed: Vec<Allowed>,
}

impl<'a> Model for Grounds<'a> {
    ghost use Rattle.std.specs.Prelude.{List};
    ghost use Rattle.mh_told.specs.Reading.{Source};
    ghost use Rattle.mh_places.specs.Directory.{AreBeside};
    ghost use Rattle.mh_lint.specs.NoteLines.{IsTurnedOff};

    ghost Value = { List Source };

    ghost view = { λ g. g.directory };

    ghost invariant = { λ g. AreBeside IsTurnedOff g.directory g.allowed.items };
}

impl<'a> Grounds<'a> {
    /// The grounds of these files.
    pub fn of(alloc: Global, files: &'a [(GroupName, Vec<u8>)]) -> Result<Grounds<'a>, AllocError>
        ensures { IfOk result (λ grounds. grounds ≡ files.now) }
    {
        let allowed = allowed_by_file(alloc, files)?;
        let directory = Directory::of(alloc, files)?;
        Ok(Grounds { directory, allowed })
    }

    /// The files.
    pub fn files(&self) -> &'a [(GroupName, Vec<u8>)]
        ensures { result.now ≡ self.now }
    {
        self.directory.files()
    }

    /// Where the objects and the actions stand.
    pub fn directory(&self) -> &Directory<'a>
        ensures { result.now ≡ self.now }
    {
        &self.directory
    }

    /// Whether a comment in the file of the group turns the rule off.
    pub(crate) fn allows(&self, group: &GroupName, rule: Rule) -> bool
        ensures { result ≡ spec.file_allows (file_of self.now group.now) (spec.comment_words rule) }
    {
        match self.directory.file_number(group) {
            Some(number) => has_at(self.allowed.as_slice(), number, rule),
            None => false,
        }
    }
}

/// Whether the rule is turned off in the file at this place.
fn has_at(allowed: &[Allowed], number: usize, rule: Rule) -> bool
    ensures { result ≡ spec.has_at allowed.now number rule }
{
    match allowed.get(number) {
        Some(file) => file.has(rule),
        None => false,
    }
}

fn allowed_by_file(
    alloc: Global,
    files: &[(GroupName, Vec<u8>)],
) -> Result<Vec<Allowed>, AllocError>
    ensures { IfOk result (λ allowed. AreBeside spec.IsTurnedOff files.now allowed.items) }
{
    let mut allowed = Vec::new(alloc);
    for file in files {
        allowed.push(allowed_in(alloc, file.1.as_slice())?)?;
    }
    Ok(allowed)
}

/// The rules that comments of the file turn off.
#[tactic(auto, unfolding(crate::specs::NoteLines::allowed_in))]
fn allowed_in(alloc: Global, bytes: &[u8]) -> Result<Allowed, AllocError>
    ensures { IfOk result (λ allowed. allowed ≡ spec.allowed_in bytes.now) }
{
    Ok(Allowed {
        editor_backup: is_turned_off(alloc, bytes, Rule::EditorBackup)?,
        identifier_differs: is_turned_off(alloc, bytes, Rule::IdentifierDiffers)?,
        unknown_rule: is_turned_off(alloc, bytes, Rule::UnknownRule)?,
        start_leads_away: is_turned_off(alloc, bytes, Rule::StartLeadsAway)?,
        not_shared: is_turned_off(alloc, bytes, Rule::NotShared)?,
        no_actions: is_turned_off(alloc, bytes, Rule::NoActions)?,
        behind_transition: is_turned_off(alloc, bytes, Rule::BehindTransition)?,
        division_by_zero: is_turned_off(alloc, bytes, Rule::DivisionByZero)?,
        negative_size: is_turned_off(alloc, bytes, Rule::NegativeSize)?,
        colour_octets: is_turned_off(alloc, bytes, Rule::ColourOctets)?,
        unheard_timer: is_turned_off(alloc, bytes, Rule::UnheardTimer)?,
        locked_for_ever: is_turned_off(alloc, bytes, Rule::LockedForEver)?,
        unread_variable: is_turned_off(alloc, bytes, Rule::UnreadVariable)?,
        no_interaction: is_turned_off(alloc, bytes, Rule::NoInteraction)?,
        off_screen: is_turned_off(alloc, bytes, Rule::OffScreen)?,
        covers_no_cell: is_turned_off(alloc, bytes, Rule::CoversNoCell)?,
        cut_text: is_turned_off(alloc, bytes, Rule::CutText)?,
        text_in_its_colour: is_turned_off(alloc, bytes, Rule::TextInItsColour)?,
        bare_line_feeds: is_turned_off(alloc, bytes, Rule::BareLineFeeds)?,
        named_alike: is_turned_off(alloc, bytes, Rule::NamedAlike)?,
        content_to_come: is_turned_off(alloc, bytes, Rule::ContentToCome)?,
    })
}

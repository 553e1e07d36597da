//! The groups of a service, as a table writes them: behind an `@` each its path, how many variables it has
//! besides and how many actions it does at its start, if not those of the text, and the text; or one of the
//! shared files.
use crate::building::grown;
use crate::examples::path_and_text;
use crate::table::bytes;
use mh_base::GroupName;
use mh_group::Group;
use mh_text::read_group;
use std::alloc::Global;

/// A path, and the group there.
pub type Named = (GroupName, Group);

fn group(alloc: Global, written: &str) -> Option<Group> {
    if written.starts_with('{') {
        return read_group(alloc, bytes(alloc, written)?.as_slice()).ok();
    }
    let (variables, rest) = written.split_once(' ')?;
    let (actions, text) = rest.split_once(' ')?;
    let (variables, actions) = (
        variables.parse::<u32>().ok()?,
        actions.parse::<usize>().ok()?,
    );
    grown(alloc, bytes(alloc, text)?.as_slice(), variables, actions)
}

/// The file as a table writes it.
pub fn named(alloc: Global, file: &str) -> Option<Named> {
    let (path, written) = path_and_text(file)?;
    let name = GroupName::of_path(alloc, path.as_bytes()).ok();
    name.zip(group(alloc, written))
}

pub fn add_named(alloc: Global, groups: &mut Vec<Named>, files: &str) -> Option<()> {
    for file in files.split('@') {
        groups.push(named(alloc, file)?).ok()?;
    }
    Some(())
}

//! The variables through which an action goes, in words.
ghost use Rattle.std.specs.Prelude.{◌≡◌, ◌++◌, OnOk};
ghost use Rattle.std.specs.Option.{option_copied};
ghost use Rattle.mh_why.specs.Sources.{path_from, through_path, variable_words, more_variables};

use mh_base::{GroupName, NameError};
use mh_text::Through;
use mh_told::text::Text;
use std::alloc::{AllocError, Global};

/// Puts variables, each behind a comma.
pub(crate) fn put_more(
    alloc: Global,
    words: &mut Text,
    from: &GroupName,
    variables: &[Through<'_>],
) -> Result<(), AllocError>
    ensures { OnOk result (words.new ≡ words.old ++ more_variables from.now variables.now) }
{
    for variable in variables {
        words.put(b", ")?;
        put_variable(alloc, words, from, variable)?;
    }
    Ok(())
}

/// Puts a variable, as the text of a group names it.
pub(crate) fn put_variable(
    alloc: Global,
    words: &mut Text,
    from: &GroupName,
    variable: &Through<'_>,
) -> Result<(), AllocError>
    ensures { OnOk result (words.new ≡ words.old ++ variable_words from.now variable.now) }
{
    words.put(b"variable ")?;
    words.put_number(u64::from(variable.number))?;
    words.put(b" of ")?;
    put_group(alloc, words, from, variable.name)
}

/// Puts the path of the group that is named; of the group itself where none is.
pub(crate) fn put_group(
    alloc: Global,
    words: &mut Text,
    from: &GroupName,
    name: Option<&[u8]>,
) -> Result<(), AllocError>
    ensures { OnOk result (words.new ≡ words.old ++ through_path from.now (option_copied name.entry)) }
{
    match name {
        Some(name) => put_path(alloc, words, from, name),
        None => words.put(from.as_bytes()),
    }
}

/// Puts the path to which a name leads; the name itself where it leads to none.
fn put_path(
    alloc: Global,
    words: &mut Text,
    from: &GroupName,
    name: &[u8],
) -> Result<(), AllocError>
    ensures { OnOk result (words.new ≡ words.old ++ path_from from.now name.now) }
{
    match GroupName::resolve(alloc, from, name) {
        Ok(path) => words.put(path.as_bytes()),
        Err(NameError::BadName) => words.put(name),
        Err(NameError::NoMemory) => Err(AllocError),
    }
}

//! The file of a group.
ghost use Rattle.std.specs.Prelude.{◌≡◌};
ghost use Rattle.std.specs.List.{find};
ghost use Rattle.std.specs.Str.{bytes_eq};
ghost use Rattle.std.specs.Option.{option_copied};

use mh_base::GroupName;

/// The file of this name, if there is one.
pub(crate) fn file_of<'a>(
    files: &'a [(GroupName, Vec<u8>)],
    group: &GroupName,
) -> Option<&'a (GroupName, Vec<u8>)>
    ensures { option_copied result ≡ find (λ f. bytes_eq f.0 group.now) files.now }
{
    files.iter().find(|file| file.0 == *group)
}

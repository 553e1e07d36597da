//! Laws over the definitions, for those who stand on both reading and writing.
ghost use Rattle.mh_codec.specs.Laws.{SpellsOne, NoLinesNameProfile};

/// The law that by no table octets spell two groups.
pub fn spells_one_group()
    ensures { SpellsOne }
{}

/// The law that the table of the profile is the one that no lines name.
pub fn no_lines_name_the_profile()
    ensures { NoLinesNameProfile }
{}

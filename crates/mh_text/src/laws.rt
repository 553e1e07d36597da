//! Laws over the definitions, for those who stand on both reading and printing.
ghost use Rattle.mh_text.specs.Laws.{ReadsPrinted, SpellsOne};

/// The law that the printed form of a group, where it passes no limit, is read as that group.
pub fn reads_what_is_printed()
    ensures { ReadsPrinted }
{}

/// The law that no text spells two groups.
pub fn spells_one_group()
    ensures { SpellsOne }
{}

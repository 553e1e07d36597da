//! The law of a seal's text, over the definitions.
ghost use Rattle.mh_seal.specs.Reading.{SpellsOneSeal};

/// The law that one text is that of one seal.
pub fn spells_one_seal()
    ensures { SpellsOneSeal }
{}

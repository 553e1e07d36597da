//! What a new number for an object changes in a text: the tokens that `uses_in` tells, and no other word.
ghost use Rattle.mh_edit.specs.Renumbering.{OnlyNumbersChange};

/// A text whose tokens of an object have another number has the words that it had, with that number in the place of those tokens.
pub fn only_numbers_change()
    ensures { OnlyNumbersChange }
{}

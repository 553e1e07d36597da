//! Examples, played by the definitions alone.
ghost use Rattle.mh_laws.specs.ExampleComputing.{Computes};
ghost use Rattle.mh_laws.specs.ExampleCounting.{CountsExamples};
ghost use Rattle.mh_laws.specs.ExampleFirst.{PlaysFirst, PlaysOthers};
ghost use Rattle.mh_laws.specs.ExampleHanding.{Hands};
ghost use Rattle.mh_laws.specs.ExampleLate.{ComesLate};
ghost use Rattle.mh_laws.specs.ExamplePassing.{Passes};
ghost use Rattle.mh_laws.specs.ExampleShowing.{Shows};
ghost use Rattle.mh_laws.specs.ExampleWidgets.{WorksWidgets};

/// The law that the definitions play the first example as its report says: 11 steps, then 2, with the
/// rectangle where it should be.
pub fn plays_first()
    ensures { PlaysFirst }
{}

/// The law that the definitions play an empty application, and a link that names an absent object, as their
/// reports say.
pub fn plays_others()
    ensures { PlaysOthers }
{}

/// The law that the definitions compute as the rules say: tests whose links are heard at once, sums at
/// the limits, numbers written in octets, and objects that are named through variables.
pub fn computes()
    ensures { Computes }
{}

/// The law that the definitions show what their reports say: a text of four lines, a drawn line in five
/// cells, and, while the screen is locked, the picture that was there before.
pub fn shows()
    ensures { Shows }
{}

/// The law that the definitions play as their reports say: timers that fire in the order in which they are
/// due, streams, a key that waits while one scene is exchanged for another, and an application that quits.
pub fn passes()
    ensures { Passes }
{}

/// The law that the definitions play as their reports say: a text that waits for its content file, and
/// one whose file was there beforehand; a program that is called, one that fails, and one of the
/// receiver's own that doubles. And that they refuse files as they should, and that the built-in
/// programs answer as they should.
pub fn hands()
    ensures { Hands }
{}

/// The law that the definitions work widgets as they should: a list that is scrolled, shortened and
/// lengthened, its selection, a token that moves by a table, a field into which digits are typed, and a
/// button.
pub fn works_widgets()
    ensures { WorksWidgets }
{}

/// The law that the definitions count the costs of small services as they should: of a rectangle that a key
/// moves, of an application that does nothing, of a chain of tests in which each is made twice as often as
/// the one before, of references that are handed on, and of timers, one of which is set again when it fires.
pub fn counts_examples()
    ensures { CountsExamples }
{}

/// The law that the definitions play and count a scene whose file comes late as they should: a transition to it
/// waits, one to another scene takes its place, and no file comes but its own, and once.
pub fn comes_late()
    ensures { ComesLate }
{}

//! An example, played by the definitions alone.
ghost use Rattle.mh_never.specs.ExampleFiring.{FiresFirst};

/// The law that link 11 of the first example, which the red key puts to work, is not said to be put to work by nothing.
pub fn fires_first()
    ensures { FiresFirst }
{}

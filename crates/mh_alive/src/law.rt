//! Where runs lead, as a law over the definitions.
ghost use Rattle.mh_alive.specs.Alive.{StaysReached};

/// The law that of an acceptable service each state of each run is in a configuration that its flow reaches: what is in none of
/// these is never entered.
pub fn stays_reached()
    ensures { StaysReached }
{}

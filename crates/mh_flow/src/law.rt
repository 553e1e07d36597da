//! What chains say.
//!
//! Promise: where a variable or a list may hold a reference there is a chain, and only there.
ghost use Rattle.mh_flow.specs.ChainLaws.{MovesBring, WhatBringsMoves, WhatIsBroughtIsHeld, WhatIsHeldIsBrought};

/// Chains lead to what is held and to nothing else.
pub fn chains_say_what_is_held()
    ensures held { WhatIsBroughtIsHeld }
    ensures brought { WhatIsHeldIsBrought }
{}

/// Moves one behind the other are chains, and all chains are such.
pub fn moves_say_what_is_brought()
    ensures bring { MovesBring }
    ensures moves { WhatBringsMoves }
{}

//! A machine that could not be made.
ghost use Rattle.std.specs.Prelude.{◌≡◌};

use mh_model::Signature;
use mh_service::Service;

/// A service that could not be started for want of memory. It is handed back.
#[derive(Drop)]
pub struct Unstarted {
    pub service: Service,
}

impl Unstarted {
    /// The same with the service beside these programs of a receiver, which it carried before.
    pub fn carrying(self, programs: Vec<Signature>) -> Unstarted
        ensures { result.service ≡ record self.service { programs = programs.items } }
    {
        Unstarted {
            service: self.service.with_programs(programs),
        }
    }
}

//! The picture that a traced machine shows.
ghost use Rattle.std.specs.Prelude.{◌≡◌};
ghost use Rattle.std.specs.Borrow.{sem};
ghost use Rattle.mh_model.specs.Picture.{shown};
ghost use Rattle.mh_trace.specs.Lent.{TracerStays};

use crate::tracer::Tracer;
use mh_model::Picture;

impl Tracer {
    /// The picture that is shown. What the steps so far have left to be painted is painted now, which wants no memory and
    /// changes nothing that is traced.
    pub fn picture(&mut self) -> &Picture
        ensures* same { sem 𝓛 (TracerStays self.entry) }
        ensures shown { result.now ≡ shown self.old.state }
    {
        self.machine.picture()
    }
}

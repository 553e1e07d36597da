// The session of a handle, lent.
ghost use Rattle.std.specs.Prelude.{◌≡◌, Some, is_none, None, true, false};
ghost use Rattle.std.specs.Borrow.{sem};
ghost use Rattle.redplay_page.specs.Lent.{LendsSession};

use super::Handle;
use crate::session::Session;

impl Handle {
    /// Whether there is no session.
    pub fn is_none(&mut self) -> bool
        ensures { (result ≡ is_none self.old.session) × (self.new ≡ self.old) × (result ≡ true → self.old.session ≡ None) }
    {
        self.at.is_null()
    }

    /// The session, for a call.
    pub fn held(&mut self) -> &mut Session
        requires { is_none self.old.session ≡ false }
        ensures* writes_back { sem 𝓛 (LendsSession self.entry result) }
        ensures value { self.old.session ≡ Some result.now }
    {
        unsafe { &mut *(self.at as *mut Session) }
    }
}

//! `Handle`: what a program in C keeps of a session: its address, or null for none.
ghost use Rattle.std.specs.Prelude.{◌≡◌, Option, Some, None, is_none, true, false};
ghost use Rattle.redplay_page.specs.Playing.{Playing};
ghost use Rattle.redplay_page.specs.Owned.{owned, coded_session};

mod lending;
mod raw_box;

use crate::session::Session;
use raw_box::RawBox;
use std::alloc::Global;
use std::marker::Model;
use std::ptr::null_mut;

/// A session on the heap, or none. It is never `Drop`: a session is taken out before.
#[repr(C)]
pub struct Handle {
    at: *mut u8,
    alloc: Global,
    pub ghost session: { Option Playing } by { coded_session },
}

impl Model for Handle {
    ghost also_owns = { λ h. owned h.alloc h.at h.session };
}

impl Handle {
    /// The handle of no session.
    pub fn none(alloc: Global) -> Handle
        ensures { result.session ≡ None }
    {
        Handle {
            at: null_mut(),
            alloc,
        }
    }

    /// The handle of the session in a box.
    pub fn of(session: Box<Session, Global>) -> Handle
        ensures { result.session ≡ Some session.value }
    {
        Handle::of_parts(RawBox::of(session))
    }

    /// The box of the session again.
    pub fn into_box(self) -> Box<Session, Global>
        requires { is_none self.session ≡ false }
        ensures { self.session ≡ Some result.value }
    {
        self.into_parts().into_box()
    }

    fn of_parts(parts: RawBox<Session, Global>) -> Handle
        ensures { result.session ≡ Some parts.value }
    {
        let RawBox { at, alloc } = parts;
        Handle {
            at: at as *mut u8,
            alloc,
        }
    }

    fn into_parts(self) -> RawBox<Session, Global>
        requires { is_none self.session ≡ false }
        ensures { self.session ≡ Some result.value }
    {
        let Handle { at, alloc } = self;
        RawBox {
            at: at as *mut Session,
            alloc,
        }
    }

    /// Lets go of a handle that has no session.
    pub fn let_go(self)
        requires { self.session ≡ None }
    {
        let Handle { at: _, alloc: _ } = self;
    }
}

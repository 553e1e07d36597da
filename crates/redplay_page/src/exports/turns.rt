//! A script that is done where a session stands, and the lines that are told of it.
ghost use Rattle.std.specs.Prelude.{◌≡◌, [], None};
ghost use Rattle.mh_crossing.specs.Answers.{good};
ghost use Rattle.mh_crossing.specs.OnSession.{OnSession};
ghost use Rattle.mh_crossing.specs.Rooms.{IsPut};
ghost use Rattle.redplay_page.specs.Playing.{IsObeyed, counts_of};

use crate::handle::Handle;
use crate::session::Counts;
use mh_crossing::{GOOD, NO_SESSION};

/// Does the commands of a script: inputs, steps and what arrives.
#[unsafe(no_mangle)]
pub extern "C" fn redpage_obey(handle: &mut Handle, script: &[u8]) -> u32
    ensures { OnSession (IsObeyed script.now) handle.old.session handle.new.session result }
{
    if handle.is_none() {
        return NO_SESSION;
    }
    handle.held().obey(script)
}

/// The lines since they were fetched. They stay until `redpage_fetched`.
#[unsafe(no_mangle)]
pub extern "C" fn redpage_lines(handle: &mut Handle, text: &mut [u8], length: &mut usize) -> u32
    ensures put { OnSession (λ s t n. (n ≡ good) × (t ≡ s) × IsPut s.told text.old text.new length.new) handle.old.session handle.new.session result }
    ensures none { handle.old.session ≡ None → (text.new ≡ text.old) × (length.new ≡ length.old) }
{
    if handle.is_none() {
        return NO_SESSION;
    }
    handle.held().put_lines(text, length);
    GOOD
}

/// The lines were fetched, and are told no more.
#[unsafe(no_mangle)]
pub extern "C" fn redpage_fetched(handle: &mut Handle) -> u32
    ensures { OnSession (λ s t n. (n ≡ good) × (t ≡ record s { told = [] })) handle.old.session handle.new.session result }
{
    if handle.is_none() {
        return NO_SESSION;
    }
    handle.held().forget_lines();
    GOOD
}

/// How many steps were taken, how many faults were met, and what is left to do.
#[unsafe(no_mangle)]
pub extern "C" fn redpage_counts(handle: &mut Handle, counts: &mut Counts) -> u32
    ensures counted { OnSession (λ s t n. (n ≡ good) × (t ≡ s) × (counts.new ≡ counts_of s.tracing.state)) handle.old.session handle.new.session result }
    ensures none { handle.old.session ≡ None → counts.new ≡ counts.old }
{
    if handle.is_none() {
        return NO_SESSION;
    }
    *counts = handle.held().counts();
    GOOD
}

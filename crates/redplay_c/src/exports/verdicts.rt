//! What is told of a service before it is played.
ghost use Rattle.std.specs.Prelude.{◌≡◌, ◌⊎◌};
ghost use Rattle.redplay_c.specs.Verdicts.{IsChecked, IsUnchecked, IsUnput};

use crate::answer::name_number;
use crate::crossing::{Source, put};
use crate::verdict::checked;
use std::alloc::Global;

/// Tells what the verifier says of the service that files make, or why they make none.
#[unsafe(no_mangle)]
#[tactic(auto, using(crate::proofs::VerdictLemmas::unchecked_so))]
pub extern "C" fn redplay_check(
    alloc: Global,
    sources: &[Source],
    start: &[u8],
    late: &[u8],
    text: &mut [u8],
    length: &mut usize,
) -> u32
    ensures { IsChecked sources.now start.now late.now text.old text.new length.new result ⊎ (IsUnchecked sources.now result × IsUnput text.old text.new length.old length.new) }
{
    match checked(alloc, sources, start, late) {
        Ok(verdict) => {
            *length = put(verdict.text.as_slice(), text);
            verdict.number
        }
        Err(why) => name_number(why),
    }
}

//! The table of tags by which groups in the binary notation are read.
//!
//! Promise: each function answers what the definition of its name in `specs/Reading` says.
ghost use Rattle.std.specs.Prelude.{◌≡◌};
ghost use Rattle.std.specs.Option.{option_copied};
ghost use Rattle.mh_codec.specs.TagLines.{read_table};
ghost use Rattle.mh_told.specs.Reading.{Gives, table_of, tagged};

use crate::unplayable::Unplayable;
use mh_codec::{TagError, TagTable};
use std::alloc::Global;

/// The table that a file gives, a tag a line; the profile's where there is no file. It is refused by 60 with the
/// number of the first wrong line, else by 61 with the number of the first context in which a tag stands twice.
#[tactic(auto, unfolding(crate::specs::Reading::table_of))]
pub fn table_of(alloc: Global, bytes: Option<&[u8]>) -> Result<TagTable, Unplayable>
    ensures { Gives (λ tags. tags) result (table_of (option_copied bytes.entry)) }
{
    match bytes {
        Some(bytes) => tagged(alloc, bytes),
        None => Ok(TagTable::profile(alloc)?),
    }
}

fn tagged(alloc: Global, bytes: &[u8]) -> Result<TagTable, Unplayable>
    ensures { Gives (λ tags. tags) result (tagged (read_table bytes.now)) }
{
    match TagTable::read(alloc, bytes) {
        Ok(tags) => Ok(tags),
        Err(TagError::NoMemory) => Err(Unplayable::NoMemory),
        Err(TagError::Line(line)) => Err(Unplayable::Tags {
            number: 60,
            place: line,
        }),
        Err(TagError::Double(context)) => Err(Unplayable::Tags {
            number: 61,
            place: context as usize,
        }),
    }
}

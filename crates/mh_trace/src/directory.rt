//! Where actions are written, as it is told behind their places.
ghost use Rattle.std.specs.Prelude.{◌≡◌, ◌++◌, OnOk, []};
ghost use Rattle.std.specs.Map.{lookup};
ghost use Rattle.std.specs.Option.{option_copied};
ghost use Rattle.mh_trace.specs.Sites.{same_site};
ghost use Rattle.mh_trace.specs.Directory as spec;

use crate::json::put_more;
use crate::site::Site;
use indexmap::IndexMap;
use mh_told::text::Text;
use std::alloc::{AllocError, Global};
use std::marker::Model;

/// Where actions are written. A contract sees the entries.
#[derive(Drop)]
pub struct Directory {
    entries: IndexMap<Site, Text>,
}

impl Model for Directory {
    ghost use Rattle.mh_trace.specs.Directory.{Directory as Entries};

    ghost Value = { Entries };

    ghost view = { λ d. d.entries.entries };
}

impl Directory {
    /// Of no action yet.
    pub fn new(alloc: Global) -> Directory
        ensures { result ≡ [] }
    {
        Directory {
            entries: IndexMap::new(alloc),
        }
    }

    /// Adds where an action is written. Of one that is added again the last counts.
    pub fn add(&mut self, site: Site, written: Text) -> Result<(), AllocError>
        ensures { OnOk result (self.new ≡ spec.with_entry site written self.old) }
    {
        self.entries.insert(site, written)?;
        Ok(())
    }

    /// Puts where an action is written, if an entry tells it.
    #[tactic(auto, unfolding(crate::specs::Directory::written_at))]
    pub fn put_written(&self, text: &mut Text, site: &Site) -> Result<(), AllocError>
        ensures { OnOk result (text.new ≡ text.old ++ spec.written_at self.now site.now) }
    {
        put_entry(text, self.entry_of(site))
    }

    /// Puts it as a member of an object.
    pub fn put_written_json(&self, text: &mut Text, site: &Site) -> Result<(), AllocError>
        ensures { OnOk result (text.new
            ≡ text.old ++ spec.written_json (lookup (same_site site.now) self.now)) }
    {
        put_entry_json(text, self.entry_of(site))
    }

    fn entry_of(&self, site: &Site) -> Option<&Text>
        ensures { option_copied result ≡ lookup (same_site site.now) self.now }
    {
        self.entries.get(site)
    }
}

fn put_entry(text: &mut Text, entry: Option<&Text>) -> Result<(), AllocError>
    ensures { OnOk result (text.new ≡ text.old ++ spec.written_note (option_copied entry.entry)) }
{
    match entry {
        None => Ok(()),
        Some(written) => {
            text.put(b" at ")?;
            text.put(written.as_slice())
        }
    }
}

fn put_entry_json(text: &mut Text, entry: Option<&Text>) -> Result<(), AllocError>
    ensures { OnOk result (text.new ≡ text.old ++ spec.written_json (option_copied entry.entry)) }
{
    match entry {
        None => Ok(()),
        Some(written) => put_more(text, b"at", written.as_slice()),
    }
}

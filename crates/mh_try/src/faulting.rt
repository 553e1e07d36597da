//! Where the actions stand that a machine cannot do, and where a file cannot be read, for whoever tells it in a line.
use crate::tried::{Chosen, Play, bytes_of, played};
use mh_base::GroupName;
use mh_places::{place_at, put_place};
use mh_told::tags::table_of;
use mh_told::text::Text;
use mh_told::unplayable::Unplayable;
use mh_trace::{Directory, Site, Tracer};
use mh_verdict::complaint_text;
use std::alloc::{AllocError, Global};

/// The place of each fault that a script leads to, in order, as a trace tells it behind the action: the file, the line and the
/// column; empty where it tells none.
pub fn fault_places(
    alloc: Global,
    files: &[(GroupName, Vec<u8>)],
    script: &[u8],
    chosen: &Chosen,
) -> Result<Vec<Text>, Unplayable> {
    let tags = table_of(alloc, bytes_of(&chosen.tags))?;
    let played = played(alloc, &tags, files, script, chosen)?;
    let places = places_in(alloc, played)?;
    Ok(places)
}

fn places_in(alloc: Global, played: Play) -> Result<Vec<Text>, AllocError> {
    let places = places_of(alloc, &played.tracer);
    drop(played);
    places
}

fn places_of(alloc: Global, tracer: &Tracer) -> Result<Vec<Text>, AllocError> {
    let mut places = Vec::new(alloc);
    for site in tracer.faulted() {
        places.push(place_text(alloc, tracer.directory(), site)?)?;
    }
    Ok(places)
}

fn place_text(
    alloc: Global,
    directory: &Directory,
    site: &Option<Site>,
) -> Result<Text, AllocError> {
    let mut text = Text::new(alloc);
    if let Some(site) = site {
        directory.put_written(&mut text, site)?;
    }
    Ok(text)
}

fn text_of(alloc: Global, bytes: &[u8]) -> Result<Text, AllocError> {
    let mut text = Text::new(alloc);
    text.put(bytes)?;
    Ok(text)
}

/// Why the files cannot be played, in one line without its end: the line of a verdict, and of a file the place in it.
pub fn complaint_of(
    alloc: Global,
    files: &[(GroupName, Vec<u8>)],
    why: &Unplayable,
) -> Result<Text, AllocError> {
    let line = complaint_text(alloc, why)?;
    let mut text = text_of(
        alloc,
        line.as_slice()
            .strip_suffix(b"\n")
            .unwrap_or(line.as_slice()),
    )?;
    if let Unplayable::File { name, offset, .. } = why {
        put_place_in(&mut text, files, name.as_slice(), *offset)?;
    }
    Ok(text)
}

/// Puts the place of an offset in the file of this name.
fn put_place_in(
    text: &mut Text,
    files: &[(GroupName, Vec<u8>)],
    name: &[u8],
    offset: usize,
) -> Result<(), AllocError> {
    let Some(file) = files.iter().find(|file| file.0.as_bytes() == name) else {
        return Ok(());
    };
    text.put(b" at ")?;
    text.put(name)?;
    text.put(b":")?;
    put_place(text, place_at(file.1.as_slice(), offset))
}

//! The page on embedding (`docs/EMBEDDING.md`): the code that it shows, as it stands there, and the example
//! `first`, played by it.
mod example;

use crate::reports::embedding::example::{APPLICATION, LATE_SCREENS, SCENE, SCREENS};
use mh_base::{GroupName, Octets};
use mh_cases::are;
use mh_codec::{TagTable, decode_group};
use mh_engine::Engine;
use mh_group::Group;
use mh_model::picture::CELLS;
use mh_model::{Cell, File, Input, Key, Picture, SharedGroup};
use mh_service::Service;
use mh_text::read_group;
use mh_verify::verify;
use std::alloc::Global;

/// A file: its path in the folder of the service, and its bytes.
type Source = (GroupName, Vec<u8>);

/// Whether a file is a group. Every other one is content.
fn is_group(tags: &TagTable, source: &Source) -> bool {
    let bytes = source.1.as_slice();
    mh_text::begins_group(bytes) || mh_codec::begins_group(tags, bytes)
}

/// The group of a file, in the notation in which it begins, under the name of the file.
fn named(alloc: Global, tags: &TagTable, source: &Source) -> Option<(GroupName, Group)> {
    let name = source.0.clone().ok();
    name.zip(group(alloc, tags, source.1.as_slice()))
}

fn group(alloc: Global, tags: &TagTable, bytes: &[u8]) -> Option<Group> {
    if mh_codec::begins_group(tags, bytes) {
        decode_group(alloc, tags, bytes).ok()
    } else {
        read_group(alloc, bytes).ok()
    }
}

/// The service of the files, which begins with the application `a`.
fn service(alloc: Global, tags: &TagTable, sources: &[Source]) -> Option<Service> {
    let mut groups = Vec::new(alloc);
    for source in sources {
        if is_group(tags, source) {
            groups.push(named(alloc, tags, source)?).ok()?;
        }
    }
    Service::of_files(alloc, groups, GroupName::of_path(alloc, b"a").ok()?).ok()
}

/// An engine of the service, if the verifier accepts it, which begins on the modified Julian day 60,000.
fn start(alloc: Global, tags: &TagTable, sources: &[Source]) -> Option<Engine> {
    let accepted = verify(alloc, service(alloc, tags, sources)?, &[]).ok()?;
    Engine::start(alloc, accepted, 60_000).ok()
}

/// What the verifier says of the service, if it accepts it: to how many steps the start, a key and a tick lead at most.
fn longest(alloc: Global, tags: &TagTable, sources: &[Source]) -> Option<Vec<u8>> {
    let accepted = verify(alloc, service(alloc, tags, sources)?, &[]).ok()?;
    let bounds = accepted.bounds();
    drop(accepted);
    let (start, key, tick) = (bounds.start, bounds.key, bounds.tick);
    let line = format!(in alloc; "start {start} key {key} tick {tick}\n").ok()?;
    Some(line.into_bytes())
}

/// A file as content.
fn content(alloc: Global, source: &Source) -> Option<File> {
    Some(File {
        name: source.0.clone().ok()?,
        content: Octets::from_slice(alloc, source.1.as_slice()).ok()?,
    })
}

/// Puts the content files there before the first move.
fn preset(alloc: Global, tags: &TagTable, engine: &mut Engine, sources: &[Source]) -> Option<()> {
    for source in sources {
        if !is_group(tags, source) {
            engine.preset(content(alloc, source)?).ok()?;
        }
    }
    Some(())
}

/// Plays: what is shown at first, and what is shown once the red key was pressed.
fn play(
    alloc: Global,
    tags: &TagTable,
    engine: &mut Engine,
    sources: &[Source],
) -> Option<Vec<u8>> {
    let mut screen = Vec::new(alloc);
    preset(alloc, tags, engine, sources)?;
    turn(alloc, engine, &mut screen)?;
    engine.post(Input::Key(Key::Red)).ok()?;
    turn(alloc, engine, &mut screen)?;
    Some(screen)
}

/// Makes the steps that there are to make, tells how many were made so far and how many could have been at most, and draws
/// what is shown.
fn turn(alloc: Global, engine: &mut Engine, screen: &mut Vec<u8>) -> Option<()> {
    engine.advance(1_000_000).ok()?;
    let (taken, most) = (engine.taken(), engine.budget());
    let line = format!(in alloc; "{taken} of {most} steps\n").ok()?;
    screen.extend_from_slice(line.as_bytes()).ok()?;
    draw(alloc, engine.picture(), screen)
}

/// An engine of the service of the files, of which these scenes come late.
fn start_late(
    alloc: Global,
    tags: &TagTable,
    sources: &[Source],
    late: &[&[u8]],
) -> Option<Engine> {
    let mut names = Vec::new(alloc);
    for name in late {
        names.push(GroupName::of_path(alloc, name).ok()?).ok()?;
    }
    let service = service(alloc, tags, sources)?.with_late(names).ok()?;
    let accepted = verify(alloc, service, &[]).ok()?;
    Engine::start(alloc, accepted, 60_000).ok()
}

/// Posts the file of a scene, which the carousel has brought.
fn arrived(alloc: Global, tags: &TagTable, engine: &mut Engine, source: &Source) -> Option<()> {
    let (name, group) = named(alloc, tags, source)?;
    let group = SharedGroup::new(alloc, group).ok()?;
    engine.post(Input::Scene(name, group)).ok()
}

/// Plays: what is shown while the scene is late, and what is shown once its file has come.
fn play_late(
    alloc: Global,
    tags: &TagTable,
    engine: &mut Engine,
    scene: &Source,
) -> Option<Vec<u8>> {
    let mut screen = Vec::new(alloc);
    turn(alloc, engine, &mut screen)?;
    arrived(alloc, tags, engine, scene)?;
    turn(alloc, engine, &mut screen)?;
    Some(screen)
}

/// Whether a cell is a space before black.
fn is_black(cell: Cell) -> bool {
    cell.scalar == 32 && cell.back == 0
}

/// Draws all cells but the black ones.
fn draw(alloc: Global, picture: &Picture, screen: &mut Vec<u8>) -> Option<()> {
    for at in 0..CELLS {
        let cell = picture.cell(at);
        if !is_black(cell) {
            draw_cell(alloc, at, cell, screen)?;
        }
    }
    Some(())
}

/// Draws a cell: its row and column, its character, the colour of that, and the colour behind it.
fn draw_cell(alloc: Global, at: usize, cell: Cell, screen: &mut Vec<u8>) -> Option<()> {
    let (row, column) = (at / 60, at % 60);
    let (scalar, fore, back) = (cell.scalar, cell.fore, cell.back);
    let line = format!(in alloc; "{row} {column}: {scalar} {fore:06x} {back:06x}\n").ok()?;
    screen.extend_from_slice(line.as_bytes()).ok()
}

/// What is played. Its owner below is generic, since a function that owns an engine by name is dear to
/// prove.
trait Played {
    fn screens(&mut self, alloc: Global, tags: &TagTable, sources: &[Source]) -> Option<Vec<u8>>;

    fn late_screens(&mut self, alloc: Global, tags: &TagTable, scene: &Source) -> Option<Vec<u8>>;
}

impl Played for Engine {
    fn screens(&mut self, alloc: Global, tags: &TagTable, sources: &[Source]) -> Option<Vec<u8>> {
        play(alloc, tags, self, sources)
    }

    fn late_screens(&mut self, alloc: Global, tags: &TagTable, scene: &Source) -> Option<Vec<u8>> {
        play_late(alloc, tags, self, scene)
    }
}

fn of_played<P: Played + Drop>(
    alloc: Global,
    tags: &TagTable,
    played: Option<P>,
    sources: &[Source],
) -> Option<Vec<u8>> {
    let mut played = played;
    played.as_mut()?.screens(alloc, tags, sources)
}

fn of_late<P: Played + Drop>(
    alloc: Global,
    tags: &TagTable,
    played: Option<P>,
    scene: &Source,
) -> Option<Vec<u8>> {
    let mut played = played;
    played.as_mut()?.late_screens(alloc, tags, scene)
}

/// A file of a folder.
fn file(alloc: Global, path: &str, text: &str) -> Option<Source> {
    let name = GroupName::of_path(alloc, path.as_bytes()).ok();
    name.zip(Vec::from_slice(alloc, text.as_bytes()).ok())
}

fn first(alloc: Global) -> Option<Vec<Source>> {
    let mut sources = Vec::new(alloc);
    sources.push(file(alloc, "a", APPLICATION)?).ok()?;
    sources.push(file(alloc, "s", SCENE)?).ok()?;
    Some(sources)
}

fn screens(alloc: Global) -> Option<Vec<u8>> {
    let (sources, tags) = first(alloc).zip(TagTable::profile(alloc).ok())?;
    let sources = sources.as_slice();
    of_played(alloc, &tags, start(alloc, &tags, sources), sources)
}

fn late_screens(alloc: Global) -> Option<Vec<u8>> {
    let (sources, tags) = first(alloc).zip(TagTable::profile(alloc).ok())?;
    let sources = sources.as_slice();
    let scene = sources.get(1)?;
    of_late(
        alloc,
        &tags,
        start_late(alloc, &tags, sources, &[b"s"]),
        scene,
    )
}

fn told(alloc: Global) -> Option<Vec<u8>> {
    let (sources, tags) = first(alloc).zip(TagTable::profile(alloc).ok())?;
    longest(alloc, &tags, sources.as_slice())
}

#[test]
fn first_is_embedded(rt: HostRuntime) {
    assert!(rt; are(told(rt.alloc()), b"start 12 key 2 tick 1\n"));
    assert!(rt; are(screens(rt.alloc()), SCREENS.as_bytes()));
}

#[test]
fn a_late_scene_is_embedded(rt: HostRuntime) {
    assert!(rt; are(late_screens(rt.alloc()), LATE_SCREENS.as_bytes()));
}

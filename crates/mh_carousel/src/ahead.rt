//! How many files there will be when all that waits is taken.
ghost use Rattle.std.specs.Prelude.{◌≡◌, ◌+◌, ◌≤◌, length, slice_get, take};
ghost use Rattle.std.specs.List.{list_any};
ghost use Rattle.std.specs.Option.{option_copied};
ghost use Rattle.mh_model.specs.Files.{is_too_many};
ghost use Rattle.mh_model.specs.Step.{files_ahead};
ghost use Rattle.mh_carousel.specs.Ahead.{brings, file_at, has, is_for};
ghost use Rattle.mh_carousel.specs.Ahead.{number_with};
ghost use Rattle.mh_carousel.specs.Carried.{files_of};

use crate::files::{MOST_FILES, has};
use indexmap::IndexMap;
use mh_base::{GroupName, Octets};
use mh_events::Queue;
use mh_model::{File, Input, Waiting};

/// Whether there would be one file too many when this one comes behind all that waits.
pub(crate) fn is_one_too_many(
    files: &IndexMap<GroupName, Octets>,
    file: &File,
    queue: &Queue,
) -> bool
    ensures { let ahead = files_ahead (files_of files.now.entries) queue.now.items in
        result ≡ is_too_many file.now ahead }
{
    if files.len() + queue.len() < MOST_FILES {
        return false;
    }
    if has_ahead(files, queue, queue.len(), &file.name) {
        return false;
    }
    MOST_FILES <= count_ahead(files, queue)
}

/// How many files there will be when all that waits is taken.
fn count_ahead(files: &IndexMap<GroupName, Octets>, queue: &Queue) -> usize
    ensures { result ≡ length (files_ahead (files_of files.now.entries) queue.now.items) }
{
    let mut count = files.len();
    for place in 0..queue.len() {
        count += more_at(files, queue, place);
    }
    count
}

/// 1 where what waits at this place brings a file whose name is new then, else 0.
fn more_at(files: &IndexMap<GroupName, Octets>, queue: &Queue, place: usize) -> usize
    ensures more { let before = files_ahead (files_of files.now.entries) (take place queue.now.items) in
        length before + result ≡ number_with (file_at (slice_get queue.now.items place)) before }
    ensures small { result ≤ 1 }
{
    match queue.at(place) {
        Some(Waiting::Input(Input::Arrive(file))) => {
            if has_ahead(files, queue, place, &file.name) {
                0
            } else {
                1
            }
        }
        _ => 0,
    }
}

/// Whether a file of this name is there when so many are taken of all that waits.
fn has_ahead(
    files: &IndexMap<GroupName, Octets>,
    queue: &Queue,
    count: usize,
    name: &GroupName,
) -> bool
    ensures { result
        ≡ has name.now (files_ahead (files_of files.now.entries) (take count queue.now.items)) }
{
    if has(files, name) {
        return true;
    }
    is_brought(queue, count, name)
}

/// Whether one of the first that wait, so many, brings a file of this name.
fn is_brought(queue: &Queue, count: usize, name: &GroupName) -> bool
    ensures { result ≡ list_any (brings name.now) (take count queue.now.items) }
{
    for place in 0..count {
        if brings(queue.at(place), name) {
            return true;
        }
    }
    false
}

fn brings(found: Option<&Waiting>, name: &GroupName) -> bool
    ensures { result ≡ is_for name.now (file_at (option_copied found.entry)) }
{
    match found {
        Some(Waiting::Input(Input::Arrive(file))) => file.name == *name,
        _ => false,
    }
}

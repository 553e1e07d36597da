//! The objects and cells that the command line names.
use crate::command_line::LineError;
use clap::ArgMatches;
use mh_base::{GroupName, NameError, ObjRef};
use mh_command::NoTask;
use mh_model::picture::{COLUMNS, ROWS};
use mh_try::Part;
use std::alloc::Global;

/// What is told of a state: an object, a cell, or all of it.
pub fn part_in(alloc: Global, given: &ArgMatches<'_>) -> Result<Part, LineError> {
    let object = object_in(alloc, given, "object")?;
    let cell = cell_in(given)?;
    match (object, cell) {
        (None, None) => Ok(Part::All),
        (Some(at), None) => Ok(Part::Object(at)),
        (None, Some(cell)) => Ok(Part::Cell(cell)),
        (Some(_), Some(_)) => Err(LineError::ManyParts),
    }
}

/// The cell that `--cell` names by its column and its row, if it is given.
fn cell_in(given: &ArgMatches<'_>) -> Result<Option<usize>, LineError> {
    match given.get_strs("cell") {
        None => Ok(None),
        Some([column, row]) => match cell_of(*column, *row) {
            Some(cell) => Ok(Some(cell)),
            None => Err(LineError::NoCell),
        },
        Some(_) => Err(LineError::NoCell),
    }
}

/// The number of the cell in this column and row, if there is one.
fn cell_of(column: &str, row: &str) -> Option<usize> {
    let column = place_of(column, COLUMNS)?;
    let row = place_of(row, ROWS)?;
    row.checked_mul(COLUMNS)?.checked_add(column)
}

/// The number that a word says, if it is below this one.
fn place_of(word: &str, count: usize) -> Option<usize> {
    match word.parse::<usize>() {
        Ok(place) if place < count => Some(place),
        _ => None,
    }
}

/// The object that this option names, if it is given.
pub fn object_in(
    alloc: Global,
    given: &ArgMatches<'_>,
    option: &str,
) -> Result<Option<ObjRef>, LineError> {
    match given.get_strs(option) {
        None => Ok(None),
        Some([group, number]) => Ok(Some(object_of(alloc, *group, *number)?)),
        Some(_) => Err(LineError::NoObject),
    }
}

fn object_of(alloc: Global, group: &str, number: &str) -> Result<ObjRef, LineError> {
    let Ok(number) = number.parse::<u32>() else {
        return Err(LineError::NoObject);
    };
    match GroupName::of_path(alloc, group.as_bytes()) {
        Ok(group) => Ok(ObjRef { group, number }),
        Err(NameError::BadName) => Err(LineError::NoObject),
        Err(NameError::NoMemory) => Err(LineError::NoTask(NoTask::NoMemory)),
    }
}

//! Files by their paths: a folder, a slash, and the name of the group.
ghost use Rattle.std.specs.Prelude.{◌≡◌, ◌++◌, codes, IfOk, string_bytes, option_map};
ghost use Rattle.std.specs.Str.Lossy.{utf8_lossy};
ghost use Rattle.mh_answers.specs.Paths as spec;

use mh_protocol::escaped;
use std::alloc::{AllocError, Global};

/// The path of a file in a folder.
pub fn path_of(alloc: Global, folder: &[u8], name: &[u8]) -> Result<Vec<u8>, AllocError>
    ensures { IfOk result (λ path. path.items ≡ spec.path_of folder.now name.now) }
{
    let mut path = Vec::from_slice(alloc, folder)?;
    path.push(b'/')?;
    path.extend_from_slice(name)?;
    Ok(path)
}

/// The name by which an editor knows the file.
pub fn uri_of(alloc: Global, folder: &[u8], name: &[u8]) -> Result<String, AllocError>
    ensures { IfOk result (λ uri. string_bytes uri ≡ spec.uri_of folder.now name.now) }
{
    let path = path_of(alloc, folder, name)?;
    uri_of_path(alloc, path.as_slice())
}

/// The same, of a path.
pub fn uri_of_path(alloc: Global, path: &[u8]) -> Result<String, AllocError>
    ensures { IfOk result (λ uri. string_bytes uri ≡ spec.uri_of_path path.now) }
{
    let text = escaped(alloc, path)?;
    uri_with(alloc, text.as_slice())
}

fn uri_with(alloc: Global, escaped: &[u8]) -> Result<String, AllocError>
    ensures { IfOk result (λ uri. string_bytes uri ≡ utf8_lossy (codes "file://" ++ escaped.now)) }
{
    let mut text = Vec::from_slice(alloc, b"file://")?;
    text.extend_from_slice(escaped)?;
    String::from_utf8_lossy(alloc, text.as_slice())
}

/// What stands in a path behind the folder and a slash, if the folder stands in front.
pub fn name_in<'a>(folder: &[u8], path: &'a [u8]) -> Option<&'a [u8]>
    ensures { option_map (λ name. name.now) result ≡ spec.name_in folder.now path.entry.now }
{
    let mut left = folder;
    let mut rest = path;
    while let Some((wanted, others)) = left.split_first() {
        let Some((byte, behind)) = rest.split_first() else {
            return None;
        };
        if *byte != *wanted {
            return None;
        }
        left = others;
        rest = behind;
    }
    behind_slash(rest)
}

fn behind_slash(rest: &[u8]) -> Option<&[u8]>
    ensures { option_map (λ name. name.now) result ≡ spec.behind_slash rest.entry.now }
{
    match rest {
        [b'/', name @ ..] => Some(name),
        _ => None,
    }
}

/// Whether it is the path of the file with this name in the folder.
pub fn is_path_of(folder: &[u8], name: &[u8], path: &[u8]) -> bool
    ensures { result ≡ spec.is_path_of folder.now name.now path.now }
{
    match name_in(folder, path) {
        Some(found) => found == name,
        None => false,
    }
}

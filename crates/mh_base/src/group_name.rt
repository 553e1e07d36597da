//! `GroupName`: the path of a group's file, and how a written name is resolved to it.
ghost use Rattle.std.specs.Prelude.{◌≡◌, ◌==◌, ◌+◌, ◌≤◌, ◌&&◌, true, false, length, IfOk, IsErrOf, OnOk, OnErr, nat_eq, Some, None, drop, ◌++◌};
ghost use Rattle.std.specs.List.{list_all, position};
ghost use Rattle.std.specs.Hash as fed;
ghost use Rattle.std.specs.Cmp.Lexicographic.{pointwise, nat_list_eq_equiv};
ghost use Rattle.std.specs.Cmp.{partial_equiv_from_equiv};
ghost use Rattle.std.specs.Cmp.Rules.{hashing};
ghost use Rattle.std.proofs.Common.{rules};
ghost use Rattle.mh_base.specs.Mixing.{mixed as mixed_lem};
ghost use Rattle.mh_base.specs.Path.{is_path, led_to, folder_of, is_name_byte, is_part, has_good_parts, behind_slashes, folder_of as folder_of_lem};

use crate::NameError;
use crate::mixing::{are_same_bytes, mixed};
use std::alloc::{AllocError, Global};
use std::fmt;
use std::hash::{Hash, Hasher};
use std::marker::Model;
use std::rc::Rc;

/// The longest path, in bytes.
pub const LONGEST_PATH: usize = 255;

/// The name of a group or of a content file: the path of its file in the service, with parts between
/// single slashes. Copies share one piece of memory. A contract sees the bytes of the path.
#[derive(Drop)]
pub struct GroupName {
    path: Rc<Path>,
}

/// The bytes of a path, and the word that is mixed from them: most names that differ are told apart by it alone.
#[derive(Drop)]
struct Path {
    word: u64,
    bytes: Vec<u8>,
}

impl Model for Path {
    ghost use Rattle.std.specs.Prelude.{ℕ, List, ◌≡◌};
    ghost use Rattle.mh_base.specs.Mixing.{mixed};

    ghost Value = { List ℕ };

    ghost view = { λ p. p.bytes.items };

    ghost invariant = { λ p. p.word ≡ mixed p.bytes.items };
}

impl Path {
    fn new(bytes: Vec<u8>) -> Path
        ensures { result ≡ bytes.items }
    {
        Path {
            word: mixed(bytes.as_slice()),
            bytes,
        }
    }

    fn word(&self) -> u64
        ensures { result ≡ mixed_lem self.now }
    {
        self.word
    }

    fn as_bytes(&self) -> &[u8]
        ensures { result.now ≡ self.now }
    {
        self.bytes.as_slice()
    }
}

impl Model for GroupName {
    ghost use Rattle.std.specs.Prelude.{ℕ, List, ◌≡◌, true};
    ghost use Rattle.mh_base.specs.Path.{is_path};

    ghost Value = { List ℕ };

    ghost view = { λ n. n.path.value };

    ghost invariant = { λ n. is_path n.path.value ≡ true };
}

impl GroupName {
    /// The name whose path is these bytes, as the folder of a service, a script or an option gives it.
    pub fn of_path(alloc: Global, path: &[u8]) -> Result<GroupName, NameError>
        ensures found { IfOk result (λ name. name ≡ path.now) }
        ensures good { OnOk result (is_path path.now ≡ true) }
        ensures bad { IsErrOf result NameError.BadName → is_path path.now ≡ false }
    {
        if !tests_path(path) {
            return Err(NameError::BadName);
        }
        let copied = Vec::from_slice(alloc, path)?;
        GroupName::of_good(alloc, copied)
    }

    /// The path to which a name leads that the group `from` writes.
    pub fn resolve(alloc: Global, from: &GroupName, name: &[u8]) -> Result<GroupName, NameError>
        ensures found { IfOk result (λ found. found ≡ led_to from.now name.now) }
        ensures good { OnOk result (is_path (led_to from.now name.now) ≡ true) }
        ensures bad { IsErrOf result NameError.BadName → is_path (led_to from.now name.now) ≡ false }
    {
        let rest = match name {
            [b'D', b'S', b'M', b':', rest @ ..] => behind_slashes(rest),
            [b'~', rest @ ..] => behind_slashes(rest),
            [b'/', ..] => behind_slashes(name),
            _ => return from.beside(alloc, name),
        };
        GroupName::of_path(alloc, rest)
    }

    /// The bytes of the path.
    pub fn as_bytes(&self) -> &[u8]
        ensures value { result.now ≡ self.now }
        ensures path { is_path self.now ≡ true }
    {
        self.path.as_ref().as_bytes()
    }

    /// The word that is mixed from the path.
    fn word(&self) -> u64
        ensures { result ≡ mixed_lem self.now }
    {
        self.path.as_ref().word()
    }

    /// The path of a relative name: behind the folder of this group.
    fn beside(&self, alloc: Global, name: &[u8]) -> Result<GroupName, NameError>
        ensures found { IfOk result (λ found. found ≡ folder_of self.now ++ name.now) }
        ensures good { OnOk result (is_path (folder_of self.now ++ name.now) ≡ true) }
        ensures bad { IsErrOf result NameError.BadName → is_path (folder_of self.now ++ name.now) ≡ false }
    {
        let mut path = Vec::from_slice(alloc, folder_of(self.as_bytes()))?;
        path.extend_from_slice(name)?;
        if !tests_path(path.as_slice()) {
            return Err(NameError::BadName);
        }
        GroupName::of_good(alloc, path)
    }

    fn of_good(alloc: Global, path: Vec<u8>) -> Result<GroupName, NameError>
        requires { is_path path.items ≡ true }
        ensures found { IfOk result (λ name. name ≡ path.items) }
        ensures only { ¬ (IsErrOf result NameError.BadName) }
    {
        match Rc::new(alloc, Path::new(path)) {
            Ok(path) => Ok(GroupName { path }),
            Err(_) => Err(NameError::NoMemory),
        }
    }
}

/// Whether the bytes are a path.
fn tests_path(bytes: &[u8]) -> bool
    ensures { result ≡ is_path bytes.now }
{
    if bytes.is_empty() {
        return false;
    }
    if bytes.len() > LONGEST_PATH {
        return false;
    }
    if !has_name_bytes(bytes) {
        return false;
    }
    has_good_parts(bytes)
}

/// Whether a name may have each of the bytes.
fn has_name_bytes(bytes: &[u8]) -> bool
    ensures { result ≡ list_all is_name_byte bytes.now }
{
    bytes.iter().all(|b| is_name_byte(*b))
}

/// Whether a name may have this byte.
pub fn is_name_byte(b: u8) -> bool
    ensures { result ≡ is_name_byte b }
{
    32 <= b && b <= 126 && b != b'"'
}

fn is_part(part: &[u8]) -> bool
    ensures { result ≡ is_part part.now }
{
    !part.is_empty() && part != b".".as_slice() && part != b"..".as_slice()
}

fn has_good_parts(bytes: &[u8]) -> bool
    ensures { result ≡ has_good_parts bytes.now }
{
    match first_slash(bytes) {
        None => is_part(bytes),
        Some(at) => is_part(&bytes[..at]) && has_good_parts(&bytes[at + 1..]),
    }
}

fn first_slash(bytes: &[u8]) -> Option<usize>
    ensures { result ≡ position (λ b. b == 47) bytes.now }
{
    bytes.iter().position(|b| *b == b'/')
}

/// What is left behind the slashes at the front.
fn behind_slashes(bytes: &[u8]) -> &[u8]
    ensures { result.now ≡ behind_slashes bytes.now }
{
    let mut rest = bytes;
    while let [b'/', behind @ ..] = rest {
        rest = behind;
    }
    rest
}

/// The folder in which a path lies, with its last slash.
fn folder_of(path: &[u8]) -> &[u8]
    ensures { result.now ≡ folder_of_lem path.now }
{
    let mut end = path.len();
    while end > 0 && path[end - 1] != b'/' {
        end -= 1;
    }
    &path[..end]
}

impl Clone for GroupName {
    ghost is_clone = { λ name copy. copy ≡ name };

    fn clone(&self) -> Result<GroupName, AllocError> {
        Ok(GroupName {
            path: self.path.clone()?,
        })
    }
}

impl PartialEq for GroupName {
    ghost eq = { pointwise nat_eq };

    ghost laws = { partial_equiv_from_equiv nat_list_eq_equiv };

    fn eq(&self, other: &GroupName) -> bool {
        self.word() == other.word() && are_same_bytes(self.as_bytes(), other.as_bytes())
    }
}

impl Eq for GroupName {
    ghost laws = { nat_list_eq_equiv };
}

impl Hash for GroupName {
    ghost hash_input = { λ name. fed.u64 (mixed_lem name) };

    ghost respects_eq = { Prim.search (hashing, rules) };

    fn hash<H: Hasher>(&self, state: &mut H) {
        self.word().hash(state);
    }
}

impl fmt::Debug for GroupName {
    fn fmt<W: fmt::Write>(&self, f: &mut fmt::Formatter<W>) -> fmt::Result {
        fmt::Debug::fmt(&self.as_bytes(), f)
    }
}

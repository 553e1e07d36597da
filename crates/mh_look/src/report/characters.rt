//! The characters of a run, read back.
ghost use Rattle.std.specs.Prelude.{ℕ, List, ◌≡◌, ◌≤◌, ◌<◌, ◌++◌, ◌∷◌, IfOk, IfSome, length, true, encode_utf8};
ghost use Rattle.std.specs.List.{list_all};
ghost use Rattle.mh_told.specs.Printing.{quoted};
ghost use Rattle.mh_look.specs.Reading.{AreCharactersFound};
ghost use lib.Utf8.{scalar};

use bstr::decode_utf8;
use std::alloc::AllocError;

/// Reads the characters with which the bytes begin, behind a space and between quotation marks, puts
/// them behind those that are there, and answers how many bytes were read; none where no such
/// characters stand there.
pub fn read_characters(bytes: &[u8], scalars: &mut Vec<u32>) -> Result<Option<usize>, AllocError>
    ensures found { IfOk result (AreCharactersFound bytes.now scalars.old.items scalars.new.items) }
    ensures within { IfOk result (λ found. IfSome found (λ n. n ≤ length bytes.now)) }
    ensures good { IfOk result (λ found. list_all scalar scalars.old.items ≡ true → list_all scalar scalars.new.items ≡ true) }
{
    let [b' ', b'"', rest @ ..] = bytes else {
        return Ok(None);
    };
    let mut rest = rest;
    while let Some((scalar, length)) = read_quoted(rest) {
        scalars.push(scalar)?;
        rest = &rest[length..];
    }
    match rest {
        [b'"', behind @ ..] => Ok(Some(bytes.len() - behind.len())),
        _ => Ok(None),
    }
}

/// The character at the front, and how many bytes it takes between quotation marks; none at such a
/// mark and where no character begins.
fn read_quoted(bytes: &[u8]) -> Option<(u32, usize)>
    ensures found { (c : ℕ) → scalar c ≡ true → (rest : List ℕ) → bytes.now ≡ quoted c ++ rest → result ≡ Some (c, length (quoted c)) }
    ensures none { (rest : List ℕ) → bytes.now ≡ 34 ∷ rest → result ≡ None }
    ensures good { IfSome result (λ found. scalar found.0 ≡ true) }
    ensures within { IfSome result (λ found. found.1 ≤ length bytes.now) }
    ensures some { IfSome result (λ found. 0 < found.1) }
{
    match bytes {
        [b'"', ..] => None,
        [b'\\', marked, ..] => Some((u32::from(*marked), 2)),
        _ => read_plain(bytes),
    }
}

/// The character at the front, and how many bytes it takes in UTF-8.
fn read_plain(bytes: &[u8]) -> Option<(u32, usize)>
    ensures found { (c : ℕ) → scalar c ≡ true → (rest : List ℕ) → bytes.now ≡ encode_utf8 c ++ rest → result ≡ Some (c, length (encode_utf8 c)) }
    ensures good { IfSome result (λ found. scalar found.0 ≡ true) }
    ensures within { IfSome result (λ found. found.1 ≤ length bytes.now) }
    ensures some { IfSome result (λ found. 0 < found.1) }
{
    let (character, length) = decode_utf8(bytes);
    Some((u32::from(character?), length))
}

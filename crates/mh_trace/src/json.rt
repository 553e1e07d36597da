//! Strings and members of objects in the JavaScript Object Notation (ECMA-404).
//!
//! Promise: what is put is what `specs/Json` says. A string has visible ASCII characters alone; any other octet of what it says
//! stands as the character with its number.
ghost use Rattle.std.specs.Prelude.{◌≡◌, ◌++◌, OnOk};
ghost use Rattle.std.specs.List.{flat_map};
ghost use Rattle.mh_told.specs.Printing as printing;
ghost use Rattle.mh_trace.specs.Json as spec;

use mh_told::text::Text;
use std::alloc::AllocError;

/// Puts a string that says these octets.
#[tactic(auto, unfolding(crate::specs::Json::string_text))]
pub fn put_string(text: &mut Text, octets: &[u8]) -> Result<(), AllocError>
    ensures { OnOk result (text.new ≡ text.old ++ spec.string_text octets.now) }
{
    text.put_byte(34)?;
    put_escaped(text, octets)?;
    text.put_byte(34)
}

/// Puts octets as they stand in a string.
pub fn put_escaped(text: &mut Text, octets: &[u8]) -> Result<(), AllocError>
    ensures { OnOk result (text.new ≡ text.old ++ flat_map spec.escaped octets.now) }
{
    for octet in octets {
        put_octet(text, *octet)?;
    }
    Ok(())
}

fn put_octet(text: &mut Text, octet: u8) -> Result<(), AllocError>
    ensures { OnOk result (text.new ≡ text.old ++ spec.escaped octet) }
{
    if octet == 34 || octet == 92 {
        return put_marked(text, octet);
    }
    if 32 <= octet && octet <= 126 {
        text.put_byte(octet)
    } else {
        put_numbered(text, octet)
    }
}

#[tactic(auto, unfolding(crate::specs::Json::marked))]
fn put_marked(text: &mut Text, octet: u8) -> Result<(), AllocError>
    ensures { OnOk result (text.new ≡ text.old ++ spec.marked octet) }
{
    text.put_byte(92)?;
    text.put_byte(octet)
}

#[tactic(auto, unfolding(crate::specs::Json::numbered))]
fn put_numbered(text: &mut Text, octet: u8) -> Result<(), AllocError>
    ensures { OnOk result (text.new ≡ text.old ++ spec.numbered octet) }
{
    text.put_byte(92)?;
    text.put(b"u00")?;
    text.put_byte(hex_digit(octet / 16))?;
    text.put_byte(hex_digit(octet))
}

/// The last hexadecimal digit of a number.
fn hex_digit(number: u8) -> u8
    ensures { result ≡ printing.hex_digit number }
{
    let digit = number % 16;
    if digit < 10 {
        b'0' + digit
    } else {
        b'a' + (digit - 10)
    }
}

/// Puts a member of an object: its name, and a string.
#[tactic(auto, unfolding(crate::specs::Json::member_text))]
pub fn put_member(text: &mut Text, name: &[u8], octets: &[u8]) -> Result<(), AllocError>
    ensures { OnOk result (text.new ≡ text.old ++ spec.member_text name.now octets.now) }
{
    put_name(text, name)?;
    put_string(text, octets)
}

/// Puts a member that is not the first.
#[tactic(auto, unfolding(crate::specs::Json::more_text))]
pub fn put_more(text: &mut Text, name: &[u8], octets: &[u8]) -> Result<(), AllocError>
    ensures { OnOk result (text.new ≡ text.old ++ spec.more_text name.now octets.now) }
{
    text.put(b",")?;
    put_member(text, name, octets)
}

/// Puts a member that is not the first, with a value that stands as it is: a number, a truth value or a list.
#[tactic(auto, unfolding(crate::specs::Json::plain_text))]
pub fn put_plain(text: &mut Text, name: &[u8], value: &[u8]) -> Result<(), AllocError>
    ensures { OnOk result (text.new ≡ text.old ++ spec.plain_text name.now value.now) }
{
    text.put(b",")?;
    put_name(text, name)?;
    text.put(value)
}

/// Puts a member that is not the first, with a number.
#[tactic(auto, unfolding(crate::specs::Json::member_number))]
pub fn put_number(text: &mut Text, name: &[u8], number: u64) -> Result<(), AllocError>
    ensures { OnOk result (text.new ≡ text.old ++ spec.member_number name.now number) }
{
    text.put(b",")?;
    put_name(text, name)?;
    text.put_number(number)
}

/// Puts a member that is not the first, with a list. Each of its items has a comma in front.
#[tactic(auto, unfolding(crate::specs::Json::list_text))]
pub fn put_list(text: &mut Text, name: &[u8], items: &[u8]) -> Result<(), AllocError>
    ensures { OnOk result (text.new ≡ text.old ++ spec.list_text name.now items.now) }
{
    text.put(b",")?;
    put_name(text, name)?;
    text.put(b"[")?;
    text.put(behind(items, 1))?;
    text.put(b"]")
}

/// The same, where there is an item.
pub fn put_list_if(text: &mut Text, name: &[u8], items: &[u8]) -> Result<(), AllocError>
    ensures { OnOk result (text.new ≡ text.old ++ spec.list_if name.now items.now) }
{
    if items.is_empty() {
        Ok(())
    } else {
        put_list(text, name, items)
    }
}

/// What stands behind so many octets.
pub fn behind(octets: &[u8], size: usize) -> &[u8]
    ensures { result.now ≡ spec.behind octets.now size }
{
    octets.get(size..).unwrap_or(&[])
}

#[tactic(auto, unfolding(crate::specs::Json::name_text))]
pub fn put_name(text: &mut Text, name: &[u8]) -> Result<(), AllocError>
    ensures { OnOk result (text.new ≡ text.old ++ spec.name_text name.now) }
{
    put_string(text, name)?;
    text.put(b":")
}

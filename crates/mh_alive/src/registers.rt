//! Which registers scenes may have, and which keys these let through.
//!
//! Promise: what is gathered, and what is answered, is what the definition that its clause names says.
ghost use Rattle.std.specs.Prelude.{◌≡◌, ◌∷◌, [], map, IfOk, OnOk};
ghost use Rattle.std.specs.List.{flat_map};
ghost use Rattle.std.specs.Option.{option_copied};
ghost use Rattle.indexmap.specs.IndexSet.{insert_all};
ghost use Rattle.mh_never.specs.Saying.{first_register as first_register_lem};
ghost use Rattle.mh_alive.specs.Registers as spec;
ghost use Rattle.mh_alive.specs.Registers.{same_register};
ghost use Rattle.mh_alive.specs.There.{comes_to, sets_there};

use crate::there::There;
use indexmap::IndexSet;
use mh_base::{ObjRef, Value};
use mh_flow::Site;
use mh_group::{ActionName, Attribute, Class};
use mh_model::held::as_int;
use mh_model::{Act, Argument, Fixed, FixedPart, KEYS, Key};
use std::alloc::AllocError;

/// The register of a scene where none is written; it lets every key through (ETSI ES 202 184, InputEventRegister).
const USUAL: i32 = 4;

/// The register that lets Cancel, the colours and Text through.
const COLOURS: i32 = 3;

/// The register that lets all but the digits through.
const NO_DIGITS: i32 = 5;

/// A scene, and a register that it may have: 3, 5, or 4 for all that let every key through.
#[derive(Drop, PartialEq, Eq, Hash)]
pub(crate) struct Register {
    pub at: ObjRef,
    pub number: i32,
}

fn plain_register(number: i32) -> i32
    ensures { result ≡ spec.plain_register number }
{
    if number == COLOURS || number == NO_DIGITS {
        number
    } else {
        USUAL
    }
}

fn register_of(at: &ObjRef, number: i32) -> Result<Register, AllocError>
    ensures { IfOk result (λ one. one ≡ spec.register at.now number) }
{
    Ok(Register {
        at: at.clone()?,
        number: plain_register(number),
    })
}

fn put(registers: &mut IndexSet<Register>, at: &ObjRef, number: i32) -> Result<(), AllocError>
    ensures { OnOk result (registers.new.keys
        ≡ insert_all same_register registers.old.keys (spec.register at.now number ∷ [])) }
{
    registers.insert(register_of(at, number)?)?;
    Ok(())
}

fn first_register(part: &Fixed) -> i32
    ensures { result ≡ first_register_lem part.now }
{
    as_int(part.properties.get(Attribute::InputEventReg), USUAL)
}

fn put_part(registers: &mut IndexSet<Register>, part: &Fixed) -> Result<(), AllocError>
    ensures { OnOk result (registers.new.keys
        ≡ insert_all same_register registers.old.keys (spec.written_registers part.now)) }
{
    if matches!(part.class, Class::Scene) {
        put(registers, &part.key, first_register(part))?;
    }
    Ok(())
}

/// Puts in what is written at these objects.
#[tactic(auto, using(crate::proofs::SetLemmas::put_both))]
pub(crate) fn put_parts(
    registers: &mut IndexSet<Register>,
    parts: &[FixedPart],
) -> Result<(), AllocError>
    ensures { OnOk result (registers.new.keys
        ≡ insert_all same_register registers.old.keys (flat_map spec.written_registers parts.now)) }
{
    for part in parts {
        put_part(registers, part.get())?;
    }
    Ok(())
}

/// The register that is given by these arguments; one that lets every key through where it is not written.
fn number_given(arguments: &[Argument]) -> i32
    ensures { result ≡ spec.number_given arguments.now }
{
    match arguments {
        [Argument::Direct(Value::Int(number)), ..] => *number,
        _ => USUAL,
    }
}

/// Puts in that each of these objects may have the register.
fn put_each(
    registers: &mut IndexSet<Register>,
    objects: &[ObjRef],
    number: i32,
) -> Result<(), AllocError>
    ensures { OnOk result (registers.new.keys
        ≡ insert_all same_register registers.old.keys (map (λ r. spec.register r number) objects.now)) }
{
    for at in objects {
        put(registers, at, number)?;
    }
    Ok(())
}

fn put_act(
    registers: &mut IndexSet<Register>,
    there: &There<'_>,
    act: &Act,
) -> Result<(), AllocError>
    ensures { OnOk result (registers.new.keys
        ≡ insert_all same_register registers.old.keys (spec.registers_by (sets_there there.now) act.now)) }
{
    match act.name {
        ActionName::SetInputRegister => put_each(
            registers,
            there.comes_to(&act.target),
            number_given(act.arguments.as_slice()),
        ),
        _ => Ok(()),
    }
}

/// Puts in those that the actions at these sites set.
#[tactic(auto, using(crate::proofs::SetLemmas::put_both))]
pub(crate) fn put_sites(
    registers: &mut IndexSet<Register>,
    there: &There<'_>,
    sites: &[Site<'_>],
) -> Result<(), AllocError>
    ensures { OnOk result (registers.new.keys
        ≡ insert_all same_register registers.old.keys (flat_map (λ x. spec.registers_by (sets_there there.now) x.act) sites.now)) }
{
    for site in sites {
        put_act(registers, there, site.act)?;
    }
    Ok(())
}

fn has_register(
    registers: &IndexSet<Register>,
    at: &ObjRef,
    number: i32,
) -> Result<bool, AllocError>
    ensures { IfOk result (λ has. has ≡ spec.has_register registers.now.keys at.now number) }
{
    let wanted = Register {
        at: at.clone()?,
        number,
    };
    Ok(registers.contains(&wanted))
}

/// Which of the registers a scene may have.
#[derive(Clone, Copy)]
pub(crate) struct Choice {
    pub all: bool,
    pub no_digits: bool,
    pub colours: bool,
}

fn choice_of(registers: &IndexSet<Register>, at: &ObjRef) -> Result<Choice, AllocError>
    ensures { IfOk result (λ choice. choice ≡ spec.choice_of registers.now.keys at.now) }
{
    Ok(Choice {
        all: has_register(registers, at, USUAL)?,
        no_digits: has_register(registers, at, NO_DIGITS)?,
        colours: has_register(registers, at, COLOURS)?,
    })
}

/// Whether one of them lets the key through.
fn lets(choice: Choice, key: Key) -> bool
    ensures { result ≡ spec.lets choice key }
{
    choice.all || choice.no_digits && key.passes(NO_DIGITS) || choice.colours && key.passes(COLOURS)
}

#[tactic(auto, unfolding(crate::specs::Registers::lets_any))]
fn lets_any(choice: Choice) -> bool
    ensures { result ≡ spec.lets_any choice }
{
    KEYS.iter().any(|key| lets(choice, *key))
}

fn lets_numbered(choice: Choice, number: i32, key: Key) -> bool
    ensures { result ≡ spec.lets_numbered choice number key }
{
    key.number() == number && lets(choice, key)
}

/// Whether one of them lets a key with this number through.
#[tactic(auto, unfolding(crate::specs::Registers::lets_number))]
fn lets_number(choice: Choice, number: i32) -> bool
    ensures { result ≡ spec.lets_number choice number }
{
    KEYS.iter().any(|key| lets_numbered(choice, number, *key))
}

/// Whether a key comes of the scene, for a link that names this data.
pub(crate) fn is_let(
    registers: &IndexSet<Register>,
    at: &ObjRef,
    value: Option<&Value>,
) -> Result<bool, AllocError>
    ensures { IfOk result (λ comes. comes ≡ spec.is_let (spec.choice_of registers.now.keys at.now) (option_copied value.entry)) }
{
    let choice = choice_of(registers, at)?;
    match value {
        None => Ok(lets_any(choice)),
        Some(Value::Int(number)) => Ok(lets_number(choice, *number)),
        Some(_) => Ok(false),
    }
}

//! What the built-in programs answer (ETSI ES 202 184, resident programs).
ghost use Rattle.std.specs.Prelude.{◌≡◌, IfOk, [], ◌∷◌, ◌+◌, ◌<◌, ◌^◌};
ghost use Rattle.mh_model.specs.declared.program.Builtin.TheVariants as builtin;
ghost use Rattle.mh_model.specs.declared.program.Now.{Now as NowLem};
ghost use Rattle.mh_base.specs.declared.value.Value.TheVariants as value;
ghost use Rattle.mh_model.specs.Programs as programs;

use crate::octets::{behind, counted, front, in_front, searched_from, substring};
use mh_base::{Octets, Value};
use mh_model::{Builtin, Now};
use std::alloc::{AllocError, Global};

/// What a built-in program answers to these values; nothing, if they do not fit its parameters.
pub fn answer_of(
    alloc: Global,
    which: Builtin,
    now: Now,
    values: &[Value],
) -> Result<Vec<Value>, AllocError>
    ensures { IfOk result (λ vs. vs.items ≡ programs.answer which now values.now) }
{
    match which {
        Builtin::CurrentDate => current_date(alloc, now),
        Builtin::DayOfWeek => day_of_week(alloc, values),
        Builtin::StringLength => string_length(alloc, values),
        Builtin::Substring => get_substring(alloc, values),
        Builtin::ExtractSubstring => extract_substring(alloc, values),
        Builtin::SearchSubstring => search_substring(alloc, values),
    }
}

/// GCD: the modified Julian day, and the seconds since it began.
fn current_date(alloc: Global, now: Now) -> Result<Vec<Value>, AllocError>
    ensures { let day = value.Int (programs.counted (programs.day_of now)) in
        let seconds = value.Int (programs.counted (programs.seconds_of now)) in
        IfOk result (λ vs. vs.items ≡ day ∷ seconds ∷ []) }
{
    let day = counted(now.mjd as u64 + (now.moment / 86400000) as u64);
    let seconds = counted((now.moment / 1000 % 86400) as u64);
    two(alloc, Value::Int(day), Value::Int(seconds))
}

/// GDW: the day of the week, where 0 is Sunday.
fn day_of_week(alloc: Global, values: &[Value]) -> Result<Vec<Value>, AllocError>
    ensures { (now : NowLem) →
        IfOk result (λ vs. vs.items ≡ programs.answer builtin.DayOfWeek now values.now) }
{
    match values {
        [Value::Int(day)] => one(alloc, Value::Int(weekday(*day))),
        _ => Ok(Vec::new(alloc)),
    }
}

fn weekday(day: i32) -> i32
    ensures { result ≡ programs.weekday day }
{
    (day as i64 + 3).rem_euclid(7) as i32
}

/// GSL: how many octets there are.
fn string_length(alloc: Global, values: &[Value]) -> Result<Vec<Value>, AllocError>
    ensures { (now : NowLem) →
        IfOk result (λ vs. vs.items ≡ programs.answer builtin.StringLength now values.now) }
{
    match values {
        [Value::Octets(octets)] => {
            one(alloc, Value::Int(counted(octets.as_slice().len() as u64)))
        }
        _ => Ok(Vec::new(alloc)),
    }
}

/// GSS: the octets from one place to another.
fn get_substring(alloc: Global, values: &[Value]) -> Result<Vec<Value>, AllocError>
    ensures { (now : NowLem) →
        IfOk result (λ vs. vs.items ≡ programs.answer builtin.Substring now values.now) }
{
    match values {
        [Value::Octets(octets), Value::Int(begin), Value::Int(end)] => {
            one(
                alloc,
                octet_value(alloc, substring(octets.as_slice(), *begin, *end))?,
            )
        }
        _ => Ok(Vec::new(alloc)),
    }
}

/// SES: what stands in front of a target, from a place on, and the place behind the target.
fn extract_substring(alloc: Global, values: &[Value]) -> Result<Vec<Value>, AllocError>
    ensures { (now : NowLem) →
        IfOk result (λ vs. vs.items ≡ programs.answer builtin.ExtractSubstring now values.now) }
{
    match values {
        [
            Value::Octets(octets),
            Value::Int(start),
            Value::Octets(target),
        ] => { extracted(alloc, octets.as_slice(), *start, target.as_slice()) }
        _ => Ok(Vec::new(alloc)),
    }
}

/// Where the target is not found, all the octets from the place on, and -1.
fn extracted(
    alloc: Global,
    octets: &[u8],
    start: i32,
    target: &[u8],
) -> Result<Vec<Value>, AllocError>
    ensures { let found = programs.searched_from octets.now start target.now in
        IfOk result (λ vs. vs.items ≡ programs.extracted octets.now start target.now found) }
{
    let rest = behind(octets, in_front(start));
    match searched_from(octets, start, target) {
        None => two(alloc, octet_value(alloc, rest)?, Value::Int(-1)),
        Some(found) => {
            let place = counted(in_front(start) as u64 + (found + target.len()) as u64 + 1);
            two(
                alloc,
                octet_value(alloc, front(rest, found))?,
                Value::Int(place),
            )
        }
    }
}

/// SSS: the place of a target, from a place on.
fn search_substring(alloc: Global, values: &[Value]) -> Result<Vec<Value>, AllocError>
    ensures { (now : NowLem) →
        IfOk result (λ vs. vs.items ≡ programs.answer builtin.SearchSubstring now values.now) }
{
    match values {
        [
            Value::Octets(octets),
            Value::Int(start),
            Value::Octets(target),
        ] => {
            let found = searched_from(octets.as_slice(), *start, target.as_slice());
            one(alloc, Value::Int(place_of(*start, found)))
        }
        _ => Ok(Vec::new(alloc)),
    }
}

/// The place so many octets behind another one, or -1.
fn place_of(start: i32, found: Option<usize>) -> i32
    ensures { result ≡ programs.place_of start found }
{
    match found {
        None => -1,
        Some(found) => counted(
            (in_front(start) as u64)
                .saturating_add(found as u64)
                .saturating_add(1),
        ),
    }
}

fn octet_value(alloc: Global, octets: &[u8]) -> Result<Value, AllocError>
    ensures { IfOk result (λ v. v ≡ value.Octets octets.now) }
{
    Ok(Value::Octets(Octets::from_slice(alloc, octets)?))
}

fn one(alloc: Global, value: Value) -> Result<Vec<Value>, AllocError>
    ensures { IfOk result (λ vs. vs.items ≡ value ∷ []) }
{
    let mut values = Vec::with_capacity(alloc, 1)?;
    values.push(value)?;
    Ok(values)
}

fn two(alloc: Global, first: Value, second: Value) -> Result<Vec<Value>, AllocError>
    ensures { IfOk result (λ vs. vs.items ≡ first ∷ second ∷ []) }
{
    let mut values = Vec::with_capacity(alloc, 2)?;
    values.push(first)?;
    values.push(second)?;
    Ok(values)
}

//! Calls of programs that do not fit: which program is meant, what it takes, and what it is called with.
ghost use Rattle.std.specs.Prelude.{◌≡◌, ◌++◌, OnOk};
ghost use Rattle.std.specs.Option.{option_copied};
ghost use Rattle.mh_cause.specs.Calls.{any_builtin, builtin_mend, call_cause, call_mend, call_mend_by, call_of, called_name, misfit_call, name_in, named_call, named_mend, near_mend, unknown_call};

use crate::acts::{act_of, part_of};
use crate::phrases::{AS_IT_TAKES, IS_CALLED_WITH, NO_PROGRAM, ONE_OF_PROGRAMS, WRITE_NAME};
use crate::programs::{
    arguments_of, near_builtin, put_arguments_told, put_near, put_params, put_words,
};
use crate::refused::Refused;
use mh_model::{Argument, Builtin, Fixed, Param};
use mh_resident::{params_for, program_name, word};
use mh_service::Service;
use mh_told::text::Text;
use std::alloc::AllocError;

#[tactic(auto, unfolding(crate::specs::Calls::unknown_call))]
fn put_unknown_call(text: &mut Text, name: &[u8]) -> Result<(), AllocError>
    ensures { OnOk result (text.new ≡ text.old ++ unknown_call name.now) }
{
    text.put(NO_PROGRAM)?;
    text.put(name)?;
    put_near(text, near_builtin(name))
}

#[tactic(auto, unfolding(crate::specs::Calls::misfit_call))]
fn put_misfit_call(
    text: &mut Text,
    name: &[u8],
    params: &[Param],
    arguments: &[Argument],
) -> Result<(), AllocError>
    ensures { OnOk result (text.new ≡ text.old ++ misfit_call name.now params.now arguments.now) }
{
    text.put(name)?;
    text.put(b" ")?;
    put_params(text, params)?;
    text.put(IS_CALLED_WITH)?;
    put_arguments_told(text, arguments)
}

fn put_call_of(
    text: &mut Text,
    service: &Service,
    refused: &Refused<'_>,
    name: &[u8],
    params: Option<&[Param]>,
) -> Result<(), AllocError>
    ensures { OnOk result (text.new ≡ text.old ++ call_of service.now refused.now name.now (option_copied params.entry)) }
{
    match params {
        None => put_unknown_call(text, name),
        Some(params) => {
            put_misfit_call(text, name, params, arguments_of(act_of(service, refused)))
        }
    }
}

/// The name of the program that is called.
#[tactic(auto, unfolding(crate::specs::Calls::called_name))]
pub(crate) fn called_name<'a>(service: &'a Service, refused: &Refused<'_>) -> Option<&'a [u8]>
    ensures { option_copied result ≡ called_name service.now refused.now }
{
    name_in(part_of(service, &refused.at.group, refused.at.number))
}

fn name_in(part: Option<&Fixed>) -> Option<&[u8]>
    ensures { option_copied result ≡ name_in (option_copied part.entry) }
{
    match part {
        None => None,
        Some(part) => program_name(part),
    }
}

fn put_named_call(
    text: &mut Text,
    service: &Service,
    refused: &Refused<'_>,
    name: Option<&[u8]>,
) -> Result<(), AllocError>
    ensures { OnOk result (text.new ≡ text.old ++ named_call service.now refused.now (option_copied name.entry)) }
{
    match name {
        None => Ok(()),
        Some(name) => {
            let params = params_for(service.programs(), name);
            put_call_of(text, service, refused, name, params)
        }
    }
}

/// Puts that no program is called so, or what it takes and is called with.
pub(crate) fn put_call_cause(
    text: &mut Text,
    service: &Service,
    refused: &Refused<'_>,
) -> Result<(), AllocError>
    ensures { OnOk result (text.new ≡ text.old ++ call_cause service.now refused.now) }
{
    put_named_call(text, service, refused, called_name(service, refused))
}

#[tactic(auto, unfolding(crate::specs::Calls::builtin_mend))]
fn put_builtin_mend(text: &mut Text, which: Builtin) -> Result<(), AllocError>
    ensures { OnOk result (text.new ≡ text.old ++ builtin_mend which) }
{
    text.put(WRITE_NAME)?;
    text.put(word(which))?;
    text.put(b"'`")
}

#[tactic(auto, unfolding(crate::specs::Calls::any_builtin))]
fn put_any_builtin(text: &mut Text) -> Result<(), AllocError>
    ensures { OnOk result (text.new ≡ text.old ++ any_builtin) }
{
    text.put(ONE_OF_PROGRAMS)?;
    put_words(text)
}

fn put_near_mend(text: &mut Text, which: Option<Builtin>) -> Result<(), AllocError>
    ensures { OnOk result (text.new ≡ text.old ++ near_mend which) }
{
    match which {
        None => put_any_builtin(text),
        Some(which) => put_builtin_mend(text, which),
    }
}

fn put_mend_by(text: &mut Text, name: &[u8], params: Option<&[Param]>) -> Result<(), AllocError>
    ensures { OnOk result (text.new ≡ text.old ++ call_mend_by name.now (option_copied params.entry)) }
{
    match params {
        None => put_near_mend(text, near_builtin(name)),
        Some(_) => text.put(AS_IT_TAKES),
    }
}

/// Puts the name of a program, or how it is called.
pub(crate) fn put_call_mend(
    text: &mut Text,
    service: &Service,
    refused: &Refused<'_>,
) -> Result<(), AllocError>
    ensures { OnOk result (text.new ≡ text.old ++ call_mend service.now refused.now) }
{
    match called_name(service, refused) {
        None => Ok(()),
        Some(name) => put_mend_by(text, name, params_for(service.programs(), name)),
    }
}

//! Which of the arguments of a call does not fit the program.
ghost use Rattle.std.specs.Prelude.{◌≡◌, length};
ghost use Rattle.std.specs.Option.{option_copied};
ghost use Rattle.mh_cause.specs.Details.{call_detail, name_detail, params_detail, passed_detail};

use crate::acts::act_of;
use crate::calls::called_name;
use crate::detail::Detail;
use crate::programs::arguments_of;
use crate::refused::Refused;
use mh_model::{Argument, Param, fits_param};
use mh_resident::params_for;
use mh_service::Service;

/// What of the call is wrong: the program, where none has its name, or an argument.
#[tactic(auto, unfolding(crate::specs::Details::call_detail))]
pub(crate) fn call_detail(service: &Service, refused: &Refused<'_>) -> Detail
    ensures { result ≡ call_detail service.now refused.now }
{
    name_detail(service, refused, called_name(service, refused))
}

fn name_detail(service: &Service, refused: &Refused<'_>, name: Option<&[u8]>) -> Detail
    ensures { result ≡ name_detail service.now refused.now (option_copied name.entry) }
{
    match name {
        None => Detail::Unknown,
        Some(name) => params_detail(
            arguments_of(act_of(service, refused)),
            params_for(service.programs(), name),
        ),
    }
}

fn params_detail(arguments: &[Argument], params: Option<&[Param]>) -> Detail
    ensures { result ≡ params_detail arguments.now (option_copied params.entry) }
{
    match params {
        None => Detail::Value(0),
        Some(params) => passed_detail(params, arguments),
    }
}

/// The first argument that does not fit what the program takes there, or that it does not take; where one lacks, the
/// whole list.
fn passed_detail(params: &[Param], arguments: &[Argument]) -> Detail
    ensures { result ≡ passed_detail (length arguments.now) params.now arguments.now }
{
    let mut params = params;
    let mut left = arguments;
    while let Some((argument, behind)) = left.split_first() {
        let number = arguments.len().saturating_sub(left.len());
        let Some((param, others)) = params.split_first() else {
            return Detail::Within(2, number);
        };
        if !fits_param(*param, argument) {
            return Detail::Within(2, number);
        }
        params = others;
        left = behind;
    }
    Detail::Value(2)
}

//! Whether signatures are the same.
ghost use Rattle.std.specs.Prelude.{◌≡◌};
ghost use Rattle.std.specs.Bool.{Decides};

use mh_model::{Param, Plain, Signature};

/// Whether two lists of signatures are the same: as many, with the same names and parameters in
/// order.
#[tactic(auto, using(crate::proofs::SameLemmas::left_behind, crate::proofs::SameLemmas::differ, crate::proofs::SameLemmas::shorter, crate::proofs::SameLemmas::ended))]
pub fn same_signatures(a: &[Signature], b: &[Signature]) -> bool
    ensures { Decides result (a.now ≡ b.now) }
{
    let mut first = a;
    let mut second = b;
    while let Some((x, behind)) = first.split_first() {
        let Some((y, others)) = second.split_first() else {
            return false;
        };
        if !same_signature(x, y) {
            return false;
        }
        first = behind;
        second = others;
    }
    second.is_empty()
}

/// Whether two signatures have the same name and the same parameters.
pub fn same_signature(a: &Signature, b: &Signature) -> bool
    ensures { Decides result (a.now ≡ b.now) }
{
    if a.name.as_slice() != b.name.as_slice() {
        return false;
    }
    same_params(a.params.as_slice(), b.params.as_slice())
}

#[tactic(auto, using(crate::proofs::SameLemmas::left_behind, crate::proofs::SameLemmas::differ, crate::proofs::SameLemmas::shorter, crate::proofs::SameLemmas::ended))]
fn same_params(a: &[Param], b: &[Param]) -> bool
    ensures { Decides result (a.now ≡ b.now) }
{
    let mut first = a;
    let mut second = b;
    while let Some((x, behind)) = first.split_first() {
        let Some((y, others)) = second.split_first() else {
            return false;
        };
        if !same_param(*x, *y) {
            return false;
        }
        first = behind;
        second = others;
    }
    second.is_empty()
}

fn same_param(a: Param, b: Param) -> bool
    ensures { Decides result (a ≡ b) }
{
    match (a, b) {
        (Param::In(x), Param::In(y)) => same_plain(x, y),
        (Param::Out(x), Param::Out(y)) => same_plain(x, y),
        _ => false,
    }
}

fn same_plain(a: Plain, b: Plain) -> bool
    ensures { Decides result (a ≡ b) }
{
    matches!(
        (a, b),
        (Plain::Bool, Plain::Bool) | (Plain::Int, Plain::Int) | (Plain::Octets, Plain::Octets)
    )
}

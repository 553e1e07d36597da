//! `Table`: spans under the numbers of objects, those under one number in the order in which they were put there.
ghost use Rattle.std.specs.Prelude.{◌≡◌, ◌++◌, ◌∷◌, [], if◌then◌else◌, nat_eq, slice_get, ℕ, Some, OnOk};
ghost use Rattle.std.specs.Map.{lookup};
ghost use Rattle.mh_places.specs.Directory.{listed};

use crate::span::Span;
use indexmap::IndexMap;
use mh_base::Seq;
use std::alloc::{AllocError, Global};

/// Spans under the numbers of objects.
pub(crate) type Table = IndexMap<u32, Seq<Span>>;

/// Puts the first span under its number.
fn start(alloc: Global, table: &mut Table, number: u32, span: Span) -> Result<(), AllocError>
    ensures { OnOk result
        ((n : ℕ) →
        lookup (nat_eq n) table.new.entries
        ≡ (if nat_eq number n then Some (span ∷ []) else lookup (nat_eq n) table.old.entries)) }
{
    let mut spans = Seq::new(alloc);
    spans.push(span)?;
    table.insert(number, spans)?;
    Ok(())
}

/// Puts a span behind those under its number.
#[tactic(auto, using(crate::proofs::DirectoryLemmas::listed_more))]
pub(crate) fn put(
    alloc: Global,
    table: &mut Table,
    number: u32,
    span: Span,
) -> Result<(), AllocError>
    ensures { OnOk result
        ((n : ℕ) →
        listed n table.new.entries
        ≡ listed n table.old.entries ++ (if nat_eq number n then span ∷ [] else [])) }
{
    match table.get_mut(&number) {
        Some(spans) => {
            spans.push(span)?;
            Ok(())
        }
        None => start(alloc, table, number, span),
    }
}

/// The span under a number before which so many stand there.
pub(crate) fn span_under(table: &Table, number: u32, before: usize) -> Option<Span>
    ensures { result ≡ slice_get (listed number table.now.entries) before }
{
    match table.get(&number) {
        Some(spans) => spans.as_slice().get(before).copied(),
        None => None,
    }
}

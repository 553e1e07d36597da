//! `Group`: what is written, where the tables allow it.
ghost use Rattle.std.specs.Prelude.{◌≡◌, true, false, length, IfOk, IfErr, OnOk, OnErr, ◌≤◌, Some};
ghost use Rattle.mh_group.specs.Fit.{is_group, misfit_of, is_rising, has_attribute, has_required, takes_each, fits_each, fields_misfit, ingredient_misfit, ingredients_misfit, items_of, before_items};
ghost use Rattle.mh_group.specs.declared.written.Written.{Written};

pub use crate::fit::{MOST_LIST_ITEMS, fits, fits_action};
use crate::misfit::{Misfit, MisfitWhy};
use crate::written::{Field, Ingredient, Written};
use crate::{Attribute, Class};
use std::marker::Model;

/// A group that the tables allow: each object has the fields of its class, each once, in the order of
/// their numbers and with values in range, and each action has its parameters. A contract sees what is
/// written.
#[derive(Drop)]
pub struct Group {
    written: Written,
}

impl Model for Group {
    ghost use Rattle.std.specs.Prelude.{◌≡◌, true};
    ghost use Rattle.mh_group.specs.declared.written.Written.{Written};
    ghost use Rattle.mh_group.specs.Fit.{is_group};

    ghost Value = { Written };

    ghost view = { λ g. g.written };

    ghost invariant = { λ g. is_group g.written ≡ true };
}

impl Group {
    /// The group that is written so. What the tables do not allow is handed back, with its cause.
    pub fn new(written: Written) -> Result<Group, Misfit>
        ensures fits { OnOk result (is_group written ≡ true) }
        ensures same { IfOk result (λ group. group ≡ written) }
        ensures why { IfErr result (λ misfit. Some misfit.why ≡ misfit_of written) }
        ensures unfit { OnErr result (is_group written ≡ false) }
        ensures back { IfErr result (λ misfit. misfit.written ≡ written) }
    {
        match misfit_of(&written) {
            None => Ok(Group { written }),
            Some(why) => Err(Misfit { why, written }),
        }
    }

    /// What is written.
    pub fn written(&self) -> &Written
        ensures same { result.now ≡ self.now }
        ensures fits { is_group self.now ≡ true }
    {
        &self.written
    }

    pub fn into_written(self) -> Written
        ensures same { result ≡ self }
    {
        let Group { written } = self;
        written
    }
}

/// The ingredients of a group; none where it writes no items.
pub fn items(written: &Written) -> &[Ingredient]
    ensures { result.now ≡ items_of written.now }
{
    match &written.items {
        Some(items) => items.as_slice(),
        None => &[],
    }
}

/// How many fields at the front have smaller numbers than the items, which are written behind them.
pub fn before_items(fields: &[Field]) -> usize
    ensures exact { result ≡ before_items fields.now }
    ensures within { result ≤ length fields.now }
{
    let limit = Attribute::Items.number();
    fields
        .iter()
        .take_while(|field| field.attribute.number() < limit)
        .count()
}

fn are_rising(fields: &[Field]) -> bool
    ensures { result ≡ is_rising fields.now }
{
    let mut last = 0;
    for field in fields {
        let number = field.attribute.number();
        if number <= last {
            return false;
        }
        last = number;
    }
    true
}

/// Whether one of the fields has the attribute.
pub fn has_attribute(fields: &[Field], attribute: Attribute) -> bool
    ensures { result ≡ has_attribute fields.now attribute }
{
    let number = attribute.number();
    fields
        .iter()
        .any(|field| field.attribute.number() == number)
}

/// Whether nothing is missing with which objects of the class have to be written.
pub fn has_required(class: Class, fields: &[Field]) -> bool
    ensures { result ≡ has_required class fields.now }
{
    class
        .required()
        .iter()
        .all(|attribute| has_attribute(fields, *attribute))
}

fn takes_each(class: Class, fields: &[Field]) -> bool
    ensures { result ≡ takes_each class fields.now }
{
    fields.iter().all(|field| class.takes(field.attribute))
}

fn fits_each(class: Class, fields: &[Field]) -> bool
    ensures { result ≡ fits_each class fields.now }
{
    fields
        .iter()
        .all(|field| fits(class.shape(field.attribute), &field.setting))
}

/// Why these are no fields of an object of the class, if they are not.
fn fields_misfit(class: Class, fields: &[Field]) -> Option<MisfitWhy>
    ensures { result ≡ fields_misfit class fields.now }
{
    if !are_rising(fields) {
        return Some(MisfitWhy::Order);
    }
    if !has_required(class, fields) {
        return Some(MisfitWhy::Missing);
    }
    if !takes_each(class, fields) {
        return Some(MisfitWhy::NotTaken);
    }
    if !fits_each(class, fields) {
        return Some(MisfitWhy::Value);
    }
    None
}

fn ingredient_misfit(ingredient: &Ingredient) -> Option<MisfitWhy>
    ensures { result ≡ ingredient_misfit ingredient.now }
{
    if ingredient.class.is_group() {
        return Some(MisfitWhy::NotAnIngredient);
    }
    if ingredient.number.get() == 0 {
        return Some(MisfitWhy::Unnumbered);
    }
    fields_misfit(ingredient.class, ingredient.fields.as_slice())
}

fn ingredients_misfit(ingredients: &[Ingredient]) -> Option<MisfitWhy>
    ensures { result ≡ ingredients_misfit ingredients.now }
{
    for ingredient in ingredients {
        if let Some(why) = ingredient_misfit(ingredient) {
            return Some(why);
        }
    }
    None
}

/// Why this is no group, if it is none.
#[tactic(auto, unfolding(crate::specs::Fit::misfit_of))]
fn misfit_of(written: &Written) -> Option<MisfitWhy>
    ensures { result ≡ misfit_of written.now }
{
    if !written.class.is_group() {
        return Some(MisfitWhy::NotAGroup);
    }
    if let Some(why) = fields_misfit(written.class, written.fields.as_slice()) {
        return Some(why);
    }
    ingredients_misfit(items(written))
}

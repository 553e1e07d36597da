//! Why what is written is no group.
use crate::Written;
use thiserror::Error;

/// What the tables do not allow, the first of it: the group's own fields first, then its ingredients in
/// Items order; of one object in the order of these causes.
#[derive(Clone, Copy, Debug, PartialEq, Eq, Error)]
pub enum MisfitWhy {
    #[error("the class is that of an ingredient")]
    NotAGroup,
    #[error("the class is that of a group")]
    NotAnIngredient,
    #[error("an ingredient has number 0")]
    Unnumbered,
    #[error("an attribute stands twice, or behind one with a larger number")]
    Order,
    #[error("an attribute is missing")]
    Missing,
    #[error("the class does not take the attribute")]
    NotTaken,
    #[error("the value, or a parameter, is not what the tables allow")]
    Value,
}

/// What is written, and why it is no group.
#[derive(Drop)]
pub struct Misfit {
    pub why: MisfitWhy,
    pub written: Written,
}

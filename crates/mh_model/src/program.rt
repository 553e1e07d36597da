//! Resident programs: what they are called with, what they answer, and those that each engine has.
ghost use Rattle.std.specs.Prelude.{◌≡◌};
ghost use Rattle.mh_model.specs.Programs.{kind_in};

use mh_base::{Kind, Octets, Seq, Shared, Value};

/// What a program takes and answers: a truth value, a number of 32 bits, or octets.
#[derive(Clone, Copy, PartialEq, Eq)]
pub enum Plain {
    Bool,
    Int,
    Octets,
}

impl Plain {
    /// The kind of its values.
    pub fn kind(self) -> Kind
        ensures { result ≡ kind_in self }
    {
        match self {
            Plain::Bool => Kind::Bool,
            Plain::Int => Kind::Int,
            Plain::Octets => Kind::Octets,
        }
    }
}

/// A parameter of a program (ISO/IEC 13522-5, Call): a value that it takes, or one that it answers.
#[derive(Clone, Copy, PartialEq, Eq)]
pub enum Param {
    In(Plain),
    Out(Plain),
}

/// A program's name, and its parameters in order.
#[derive(Clone, Drop)]
pub struct Signature {
    pub name: Octets,
    pub params: Shared<Param>,
}

/// When a program is called: the modified Julian day on which the engine began, and the milliseconds
/// since then.
#[derive(Clone, Copy, PartialEq, Eq)]
pub struct Now {
    pub mjd: u32,
    pub moment: u32,
}

/// A call of a program: its name, when it is called, and the values that go in, in order.
#[derive(Drop)]
pub struct Call {
    pub name: Octets,
    pub time: Now,
    pub values: Seq<Value>,
}

/// What comes of a call.
#[derive(Drop)]
pub enum Outcome {
    /// The answers, in the order of the parameters that take them.
    Answered(Seq<Value>),
    Failed,
}

/// The programs that each engine has (ETSI ES 202 184, resident programs).
#[derive(Clone, Copy, PartialEq, Eq)]
pub enum Builtin {
    /// GCD
    CurrentDate,
    /// GDW
    DayOfWeek,
    /// GSL
    StringLength,
    /// GSS
    Substring,
    /// SES
    ExtractSubstring,
    /// SSS
    SearchSubstring,
}

//! The operators of a test.
ghost use Rattle.std.specs.Prelude.{◌≡◌};
ghost use Rattle.mh_model.specs.Variables.{operator_of};

/// How a test compares what a variable holds with what it is given (ISO/IEC 13522-5, TestVariable).
#[derive(Clone, Copy, PartialEq, Eq)]
pub enum Operator {
    Equal,
    NotEqual,
    Less,
    LessOrEqual,
    Greater,
    GreaterOrEqual,
}

impl Operator {
    /// The operator with this number, if there is one.
    pub fn of_number(number: i32) -> Option<Operator>
        ensures { result ≡ operator_of number }
    {
        Some(match number {
            1 => Operator::Equal,
            2 => Operator::NotEqual,
            3 => Operator::Less,
            4 => Operator::LessOrEqual,
            5 => Operator::Greater,
            6 => Operator::GreaterOrEqual,
            _ => return None,
        })
    }
}

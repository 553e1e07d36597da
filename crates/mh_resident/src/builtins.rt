//! The built-in programs: their names and their parameters.
ghost use Rattle.std.specs.Prelude.{◌≡◌};
ghost use Rattle.mh_model.specs.Programs as programs;

use mh_model::{Builtin, Param, Plain};

const ALL: [Builtin; 6] = [
    Builtin::CurrentDate,
    Builtin::DayOfWeek,
    Builtin::StringLength,
    Builtin::Substring,
    Builtin::ExtractSubstring,
    Builtin::SearchSubstring,
];

/// The built-in program with this name, if there is one.
pub fn builtin_named(name: &[u8]) -> Option<Builtin>
    ensures { result ≡ programs.builtin_named name.now }
{
    ALL.iter().copied().find(|which| name == word(*which))
}

/// The name of a built-in program (ETSI ES 202 184, resident programs).
pub fn word(which: Builtin) -> &'static [u8]
    ensures { result.now ≡ programs.word which }
{
    match which {
        Builtin::CurrentDate => b"GCD",
        Builtin::DayOfWeek => b"GDW",
        Builtin::StringLength => b"GSL",
        Builtin::Substring => b"GSS",
        Builtin::ExtractSubstring => b"SES",
        Builtin::SearchSubstring => b"SSS",
    }
}

/// The parameters of a built-in program, in order.
pub fn params_of(which: Builtin) -> &'static [Param]
    ensures { result.now ≡ programs.params_of which }
{
    match which {
        Builtin::CurrentDate => &[Param::Out(Plain::Int), Param::Out(Plain::Int)],
        Builtin::DayOfWeek => &[Param::In(Plain::Int), Param::Out(Plain::Int)],
        Builtin::StringLength => &[Param::In(Plain::Octets), Param::Out(Plain::Int)],
        Builtin::Substring => &[
            Param::In(Plain::Octets),
            Param::In(Plain::Int),
            Param::In(Plain::Int),
            Param::Out(Plain::Octets),
        ],
        Builtin::ExtractSubstring => &[
            Param::In(Plain::Octets),
            Param::In(Plain::Int),
            Param::In(Plain::Octets),
            Param::Out(Plain::Octets),
            Param::Out(Plain::Int),
        ],
        Builtin::SearchSubstring => &[
            Param::In(Plain::Octets),
            Param::In(Plain::Int),
            Param::In(Plain::Octets),
            Param::Out(Plain::Int),
        ],
    }
}

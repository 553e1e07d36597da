//! `Few`: a list of which most have one or two members.
ghost use Rattle.std.specs.Prelude.{◌≡◌, ◌∷◌, []};

use std::marker::Model;

/// Where the members lie.
#[derive(Drop)]
enum Kept<T> {
    None,
    One([T; 1]),
    Two([T; 2]),
    More(Vec<T>),
}

/// A list that keeps one or two members in itself, so that it takes no memory for them. A contract
/// sees the list of its members.
#[derive(Drop)]
pub struct Few<T> {
    kept: Kept<T>,
}

impl<T> Model for Few<T> {
    ghost use Rattle.std.specs.Prelude.{List};
    ghost use Rattle.std.specs.Coded.{coded_list};
    ghost use Rattle.mh_actions.specs.Members.{members};

    ghost Value = { List T };

    ghost coded = { coded_list T.code };

    ghost view = { λ few. members few.kept };
}

impl<T> Few<T> {
    /// A list with no member.
    pub fn none() -> Few<T>
        ensures { result ≡ [] }
    {
        Few { kept: Kept::None }
    }

    /// A list with this member.
    pub fn one(member: T) -> Few<T>
        ensures { result ≡ member ∷ [] }
    {
        Few {
            kept: Kept::One([member]),
        }
    }

    /// A list with these two members.
    pub fn two(first: T, second: T) -> Few<T>
        ensures { result ≡ first ∷ second ∷ [] }
    {
        Few {
            kept: Kept::Two([first, second]),
        }
    }

    /// The members of a vector, which it takes over as they lie.
    pub fn from_vec(vector: Vec<T>) -> Few<T>
        ensures { result ≡ vector.items }
    {
        Few {
            kept: Kept::More(vector),
        }
    }

    pub fn as_slice(&self) -> &[T]
        ensures { result.now ≡ self.now }
    {
        match &self.kept {
            Kept::None => &[],
            Kept::One(one) => one,
            Kept::Two(two) => two,
            Kept::More(vector) => vector.as_slice(),
        }
    }
}

//! What `redplay` prints where it plays nothing, told from a report.
ghost use Rattle.std.specs.Prelude.{◌≡◌, map};
ghost use Rattle.mh_look.specs.Printed.{is_verdict, beginnings};

use mh_why::begins_with;

/// What begins a verdict, and what tells of a service that cannot be read. No report begins so.
pub static BEGINNINGS: [&[u8]; 7] = [
    b"accepted\n",
    b"refused V",
    b"file ",
    b"service ",
    b"tags ",
    b"script ",
    b"read ",
];

/// Whether bytes are what `redplay check` prints, and no report.
pub(crate) fn is_verdict(bytes: &[u8]) -> bool
    ensures { result ≡ is_verdict bytes.now }
{
    let mut left = beginnings();
    while let [word, behind @ ..] = left {
        if begins_with(word, bytes) {
            return true;
        }
        left = behind;
    }
    false
}

#[tactic(auto, unfolding(crate::specs::Printed::beginnings))]
fn beginnings() -> &'static [&'static [u8]]
    ensures { map (λ word. word.now) result.now ≡ beginnings }
{
    &BEGINNINGS
}

//! What `lint` refuses before it reads a file: the name of a rule that there is none of.
use crate::folders::failure_of;
use mh_look::Failure;

/// Whether it is told, with status 2, that no rule has this name, with rules that begin so.
fn is_told(failure: Option<Failure>, name: &str, begins: &str) -> bool {
    let is_told = match &failure {
        Some(failure) => failure.exit().code() == 2 && names(failure, name, begins),
        None => false,
    };
    drop(failure);
    is_told
}

fn names(failure: &Failure, name: &str, begins: &str) -> bool {
    match failure {
        Failure::NoRule(written, rules) | Failure::NoRuleLike(written, rules) => {
            written.as_str() == name && rules.as_str().starts_with(begins)
        }
        _ => false,
    }
}

#[test]
fn a_rule_that_there_is_none_of_is_told(rt: HostRuntime) {
    for (name, begins) in [
        ("no-action", "no-actions"),
        ("off-scren", "off-screen"),
        ("zzzzzzzz", "editor-backup, identifier-differs, "),
    ] {
        let words = ["redlook", "lint", "/no/such/folder", "--allow", name];
        let failure = failure_of(&rt, words.as_slice());
        assert!(rt; is_told(failure, name, begins), "{name}");
    }
}

//! Tests of the machine, the verifier, reports and what stands between them, through calls that answer values: typed
//! answers, sinks and sources that fail, memory that is refused.
//!
//! What a contract says is proved where it stands. Here is what no contract says: that the definitions mean what they
//! should, by values that were worked out by hand, by worked examples and by octets of another program. What the programs
//! write is told by cases in files (`mh_tests_cases`); the tests of the notations
//! (`mh_tests_notation`) and those of what is made of reports (`mh_tests_look`) stand apart, so that all are proved side
//! by side.
#![tactic(auto)]

#[cfg(test)]
mod cases;
#[cfg(test)]
mod judging;
#[cfg(test)]
mod machine;
#[cfg(test)]
mod playing;
#[cfg(test)]
mod reports;

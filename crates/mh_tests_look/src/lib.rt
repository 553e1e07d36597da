//! Tests of what is made of reports, and of places in files, through public calls.
//!
//! What `redlook why` and `redlook lint` write is told by cases in files (`mh_tests_cases`).
#![tactic(auto)]

#[cfg(test)]
mod cases;
#[cfg(test)]
mod examples;
#[cfg(test)]
mod folders;
#[cfg(test)]
mod looking;
#[cfg(test)]
mod painting;
#[cfg(test)]
mod parts;
#[cfg(test)]
mod places;
#[cfg(test)]
mod reading;
#[cfg(test)]
mod rules;
#[cfg(test)]
mod stored;

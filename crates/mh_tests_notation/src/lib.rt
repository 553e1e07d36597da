//! Tests of the libraries below the machine, through public calls: groups, tables, names, texts and octets.
//!
//! They stand on the notations alone, so that they are proved beside the machine and not behind it.
#![tactic(auto)]

#[cfg(test)]
mod base;
#[cfg(test)]
mod cases;
#[cfg(test)]
mod codec;
#[cfg(test)]
mod codec_forms;
#[cfg(test)]
mod der;
#[cfg(test)]
mod der_values;
#[cfg(test)]
mod group;
#[cfg(test)]
mod limits;
#[cfg(test)]
mod marks;
#[cfg(test)]
mod octets;
#[cfg(test)]
mod plain;
#[cfg(test)]
mod seal;
#[cfg(test)]
mod tags;
#[cfg(test)]
mod text;
#[cfg(test)]
mod text_forms;
#[cfg(test)]
mod words;

//! Tests of public calls of this repository's libraries, for results that no run of a program shows. They are in one
//! crate, since each further crate of tests would have to load the same libraries again.
#![tactic(auto)]

#[cfg(test)]
mod evaluation;
#[cfg(test)]
mod keepers;
#[cfg(test)]
mod replicas;
#[cfg(test)]
mod server;

//! Tests of keepers, the stores in which an upstream keeps its commands, for cases that no run of a program covers.
//! One reopens a keeper in memory that already has rows. The other stops a simulated machine at each disk call in turn,
//! and checks which commands the reopened upstream has.
mod machine;
mod memory;
mod stops;
mod upstreams;

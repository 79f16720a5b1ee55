//! Tests of toggles, contexts, documents, batches, tokens, metrics reports, hashes, command-line arguments, draws, and
//! a sink and a peer in memory. They cover results of calls that no command prints.
mod base;
mod compiled;
mod context;
mod delta;
mod documents;
mod metrics;
mod murmur;
mod tokens;
mod words;

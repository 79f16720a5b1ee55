//! Tests of serving links: single connections, the queue of links, a pool without threads, and the network.
mod connections;
mod links;
mod network;
mod workers;

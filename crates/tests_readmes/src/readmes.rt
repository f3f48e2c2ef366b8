//! The calls that the READMEs of the libraries show under "One call", each compiled, proved and
//! run.
//!
//! `scripts/check-docs` compares: the lines of each README stand in `readmes/`, one after the
//! other.
mod devices;
mod digest;
mod files;
mod frame_table;
mod frames;
mod gossip;
mod history;
mod kit;
mod maps;
mod peer;
mod pool;
mod random;
mod rank;
mod refbuffer;
mod replica;
mod schedule;
mod setup;
mod shards;
mod stamps;
mod threads;
mod turn;
mod visits;
mod world;

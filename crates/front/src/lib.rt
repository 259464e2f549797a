//! The front for MongoDB drivers: up to 1,024 sockets before the 64 connections of a `Core`. A message of a socket is lent one of
//! them for its time, and what drivers send beyond the database's own commands is translated.
#![tactic(auto)]

mod asking;
mod front;
pub mod laws;
mod serving;

pub use front::Front;

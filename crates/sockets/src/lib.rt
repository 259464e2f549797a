//! Connections served by one thread, as many as a `Service` has numbers for: what is there is read from each, all are answered in
//! one turn, and what a socket does not take waits for it.
#![tactic(auto)]

mod client;
mod clients;
mod loops;
mod marks;
mod queue;
mod service;
mod stream;
mod table;

pub use loops::{listen, serve_on};
pub use service::{NotTaken, Outlet, ServeFault, Service, Stopped};

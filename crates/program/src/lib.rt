//! What `docpage` does of what its words ask for, over a server in its own process and any reader and writers, and over a port.
//!
//! `database_file` opens the file, `tasks` runs a task, `ports` serves one that has a port; `exec` answers frames of its input, `people` documents and commands as Extended JSON, which `terminal`
//! watches; `check` counts what a file holds, `dump` writes documents as their bytes. `in_process` is a server as people see it. Crate
//! `program_words` reads the words, and crate `docpage` hands them on and serves drivers.
#![tactic(auto)]

mod check;
mod database_file;
mod dump;
mod exec;
mod fault;
mod in_process;
mod people;
mod ports;
mod tasks;
mod terminal;

pub use database_file::open_server;
pub use fault::ProgramFault;
pub use in_process::Server;
pub use ports::bind;
pub use tasks::run_task;
pub use terminal::Terminal;

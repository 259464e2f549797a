//! What an aggregation pipeline is, and what it makes of documents. It stands in specs/: of code there are the lists of the
//! stages and of the accumulators alone, by which the definitions tell them apart.
#![tactic(auto)]

mod accumulators;
mod stages;

pub use accumulators::Accumulator;
pub use stages::StageName;

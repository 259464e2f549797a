//! Stages as they were read.

use crate::grouping::Grouping;
use crate::names::FieldName;
use crate::projecting::Projecting;
use filter::Filter;
use path::Path;
use sort::Sort;

/// What is done to a list of documents.
#[derive(Drop)]
pub enum Stage {
    /// Keeps those that match.
    Match(Filter),
    /// Gives a part of each, and what is computed of it.
    Project(Projecting),
    /// Gives each once for each element of the array at the path.
    Unwind(Path),
    /// Splits them, and gives a document for each group.
    Group(Grouping),
    /// Puts them in order.
    Sort(Sort),
    /// Leaves out the first ones.
    Skip(usize),
    /// Leaves out those behind the first ones.
    Limit(usize),
    /// Says how many they are, under this name.
    Count(FieldName),
}

//! The names of stages.

/// The name of a stage.
#[derive(Clone, Copy)]
pub enum StageName {
    Match,
    Project,
    Unwind,
    Group,
    Sort,
    Skip,
    Limit,
    Count,
}

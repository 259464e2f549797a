//! The names that begin a wrapper: an object that stands for a value of another type.

ghost use Rattle.std.specs.Prelude.{◌≡◌};
ghost use Rattle.ext_json.specs.Wrappers as spec;

/// What an object stands for whose first name begins a wrapper.
#[derive(Clone, Copy, Debug, PartialEq, Eq)]
pub(crate) enum Wrapper {
    NumberInt,
    NumberLong,
    ObjectId,
    Date,
    Binary,
    Uuid,
    Timestamp,
    MinKey,
    MaxKey,
    /// A type that no document here holds.
    Unsupported,
}

/// The wrapper of a type that documents hold.
#[tactic(auto, unfolding(crate::specs::Wrappers::known_wrapper))]
fn known_wrapper(name: &str) -> Option<Wrapper>
    ensures { result ≡ spec.known_wrapper name.now }
{
    match name {
        "$numberInt" => Some(Wrapper::NumberInt),
        "$numberLong" => Some(Wrapper::NumberLong),
        "$oid" => Some(Wrapper::ObjectId),
        "$date" => Some(Wrapper::Date),
        "$binary" => Some(Wrapper::Binary),
        "$uuid" => Some(Wrapper::Uuid),
        "$timestamp" => Some(Wrapper::Timestamp),
        "$minKey" => Some(Wrapper::MinKey),
        "$maxKey" => Some(Wrapper::MaxKey),
        _ => None,
    }
}

/// Whether the name begins a wrapper of a type that no document here holds.
#[tactic(auto, unfolding(crate::specs::Wrappers::is_unsupported))]
fn is_unsupported(name: &str) -> bool
    ensures { result ≡ spec.is_unsupported name.now }
{
    name == "$numberDouble"
        || name == "$numberDecimal"
        || name == "$regularExpression"
        || name == "$symbol"
        || name == "$code"
        || name == "$dbPointer"
        || name == "$undefined"
}

/// The wrapper that a name begins, where it begins one.
pub(crate) fn wrapper_named(name: &str) -> Option<Wrapper>
    ensures { result ≡ spec.wrapper_named name.now }
{
    if is_unsupported(name) {
        return Some(Wrapper::Unsupported);
    }
    known_wrapper(name)
}

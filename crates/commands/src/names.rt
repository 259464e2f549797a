//! Names of databases and collections.

ghost use Rattle.std.specs.Prelude.{◌≡◌, ◌==◌, ◌||◌, string_bytes};
ghost use Rattle.std.specs.List.{list_any};
ghost use Rattle.command_model.specs.Names.{is_bad_byte, is_bad_database, is_bad_collection, namespace_of};
ghost use Rattle.outcome.specs.Outcome.{Gives};

use command_model::NAMESPACE_LIMIT;
use path::Refusal;
use std::alloc::Global;

/// The most bytes of a database's name.
const DATABASE_LIMIT: usize = 63;

/// No database's name has this byte.
fn is_bad_byte(byte: u8) -> bool
    ensures { result ≡ is_bad_byte byte }
{
    b"/\\.\"$ \0".contains(&byte)
}

fn has_bad_byte(name: &str) -> bool
    ensures { result ≡ list_any is_bad_byte name.now }
{
    name.as_bytes().iter().any(|byte| is_bad_byte(*byte))
}

/// No database is called so: a name has 1 to 63 bytes, and none of `/`, `\`, `.`, `"`, `$`, space and zero.
pub(crate) fn is_bad_database(name: &str) -> bool
    ensures { result ≡ is_bad_database name.now }
{
    if name.is_empty() || DATABASE_LIMIT < name.len() {
        return true;
    }
    has_bad_byte(name)
}

fn has_dollar_or_zero(name: &str) -> bool
    ensures { result ≡ list_any (λ b. b == 36 || b == 0) name.now }
{
    name.as_bytes()
        .iter()
        .any(|byte| *byte == b'$' || *byte == 0)
}

/// No collection is called so: a name is not empty, has no `$` and no zero, and does not begin with
/// `system.`.
fn is_bad_collection(name: &str) -> bool
    ensures { result ≡ is_bad_collection name.now }
{
    if name.is_empty() || has_dollar_or_zero(name) {
        return true;
    }
    name.as_bytes().starts_with(b"system.")
}

/// The namespace of a collection in a database, `InvalidNamespace` where one of them is not called so or
/// both are too long.
pub(crate) fn namespace_of(
    alloc: Global,
    database: &str,
    collection: &str,
) -> Result<String, Refusal>
    ensures { Gives Refusal.OutOfMemory (λ s. string_bytes s) result
        (namespace_of database.now collection.now) }
{
    if is_bad_database(database)
        || is_bad_collection(collection)
        || NAMESPACE_LIMIT <= database.len().saturating_add(collection.len())
    {
        return Err(Refusal::InvalidNamespace);
    }
    let mut namespace = String::from_str(alloc, database)?;
    namespace.push_str(".")?;
    namespace.push_str(collection)?;
    Ok(namespace)
}

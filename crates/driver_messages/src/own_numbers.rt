//! The numbers of a command that are no part of a document that is kept or sought.

ghost use Rattle.std.specs.Prelude.{◌≡◌, map};
ghost use Rattle.driver_messages.specs.OwnNumbers.{is_number_of_command, is_number_in, is_number_of_item, is_number_in_item, is_number_at, is_own_number};

/// Directly in a command: any but the number of a cursor, which is beside the name of a `getMore`.
fn is_number_of_command(name: &str) -> bool
    ensures { result ≡ is_number_of_command name.now }
{
    name != "getMore"
}

/// In the document of a field of a command: a direction, what a projection says, a cursor's batch, a write concern.
fn is_number_in(field: &str, name: &str) -> bool
    ensures { result ≡ is_number_in field.now name.now }
{
    if field == "writeConcern" {
        return true;
    }
    field == "sort" || field == "projection" || field == "cursor" && name == "batchSize"
}

/// In a statement of a delete, or a stage of a pipeline.
fn is_number_of_item(list: &str, name: &str) -> bool
    ensures { result ≡ is_number_of_item list.now name.now }
{
    list == "deletes" && name == "limit"
        || list == "pipeline" && (name == "$skip" || name == "$limit")
}

/// In the key of an index, or a sort or a projection that is a stage of a pipeline.
fn is_number_in_item(list: &str, field: &str) -> bool
    ensures { result ≡ is_number_in_item list.now field.now }
{
    list == "indexes" && field == "key"
        || list == "pipeline" && (field == "$sort" || field == "$project")
}

/// Of the document at this place of a command.
fn is_number_at(place: &[&str], name: &str) -> bool
    ensures { result ≡ is_number_at (map (λ s. s.now) place.now) name.now }
{
    match place {
        [] => is_number_of_command(name),
        [field] => is_number_in(field, name),
        [list, _] => is_number_of_item(list, name),
        [list, _, field] => is_number_in_item(list, field),
        _ => false,
    }
}

/// Of the document at this place of a command, or of one that an `explain` holds.
#[tactic(auto, unfolding(crate::specs::OwnNumbers::is_own_number))]
pub(crate) fn is_own_number(place: &[&str], name: &str) -> bool
    ensures { result ≡ is_own_number (map (λ s. s.now) place.now) name.now }
{
    match place.split_first() {
        Some((field, names)) if *field == "explain" => is_number_at(names, name),
        _ => is_number_at(place, name),
    }
}

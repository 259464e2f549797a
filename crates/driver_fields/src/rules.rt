//! Fields that drivers send and the database doesn't have.

ghost use Rattle.std.specs.Prelude.{◌≡◌};
ghost use Rattle.driver_fields.specs.Rules.{rule_of};

use driver_replies::named;

/// What is done with a field that the database doesn't have.
#[derive(Clone, Copy, Debug, PartialEq, Eq)]
pub enum Rule {
    /// It changes no answer, whatever its value is.
    ReadOver,
    /// It makes the command part of a transaction, or one that could be sent again.
    Transaction,
    /// It means something that the database doesn't do.
    Unsupported,
    /// It means so unless its value says that it doesn't.
    UnlessEmpty,
    /// How many servers are to have a write before it is answered.
    WriteConcern,
    /// How many servers have what is read.
    ReadConcern,
    /// By which language texts are compared.
    Collation,
    /// The version of the commands.
    ApiVersion,
    /// How an index is kept in a file.
    IndexVersion,
    /// True or false, which the plan sees to.
    Truth,
    /// Which collections are listed, by their names, which the plan sees to.
    NameFilter,
}

/// The fields whose names have up to four bytes.
const UP_TO_FOUR: [(&str, Rule); 6] = [
    ("lsid", Rule::ReadOver),
    ("size", Rule::Unsupported),
    ("hint", Rule::UnlessEmpty),
    ("let", Rule::UnlessEmpty),
    ("min", Rule::UnlessEmpty),
    ("max", Rule::UnlessEmpty),
];

/// Those whose names have five to eight bytes.
const UP_TO_EIGHT: [(&str, Rule); 5] = [
    ("comment", Rule::ReadOver),
    ("tailable", Rule::UnlessEmpty),
    ("capped", Rule::UnlessEmpty),
    ("sparse", Rule::UnlessEmpty),
    ("hidden", Rule::UnlessEmpty),
];

/// Those whose names have nine to eleven bytes.
const UP_TO_ELEVEN: [(&str, Rule); 10] = [
    ("maxTimeMS", Rule::ReadOver),
    ("apiStrict", Rule::ReadOver),
    ("txnNumber", Rule::Transaction),
    ("autocommit", Rule::Transaction),
    ("awaitData", Rule::UnlessEmpty),
    ("returnKey", Rule::UnlessEmpty),
    ("validator", Rule::UnlessEmpty),
    ("readConcern", Rule::ReadConcern),
    ("collation", Rule::Collation),
    ("apiVersion", Rule::ApiVersion),
];

/// Those whose names have more.
const FROM_TWELVE: [(&str, Rule); 15] = [
    ("$clusterTime", Rule::ReadOver),
    ("$readPreference", Rule::ReadOver),
    ("allowDiskUse", Rule::ReadOver),
    ("bypassDocumentValidation", Rule::ReadOver),
    ("noCursorTimeout", Rule::ReadOver),
    ("allowPartialResults", Rule::ReadOver),
    ("apiDeprecationErrors", Rule::ReadOver),
    ("commitQuorum", Rule::ReadOver),
    ("authorizedCollections", Rule::ReadOver),
    ("startTransaction", Rule::Transaction),
    ("expireAfterSeconds", Rule::Unsupported),
    ("arrayFilters", Rule::UnlessEmpty),
    ("showRecordId", Rule::UnlessEmpty),
    ("partialFilterExpression", Rule::UnlessEmpty),
    ("writeConcern", Rule::WriteConcern),
];

/// What is done with a field of this name; nothing where the database has to say. The length of a name says in which
/// table it may stand.
#[tactic(auto, unfolding(crate::specs::Rules::rule_of))]
pub(crate) fn rule_of(name: &str) -> Option<Rule>
    ensures { result ≡ rule_of name.now }
{
    let len = name.len();
    if len < 5 {
        return named(&UP_TO_FOUR, name);
    }
    if len < 9 {
        return named(&UP_TO_EIGHT, name);
    }
    if len < 12 {
        return named(&UP_TO_ELEVEN, name);
    }
    named(&FROM_TWELVE, name)
}

//! Laws of the definitions and rows worked by hand, as contracts; the limit as a number.

ghost use Rattle.std.specs.Prelude.{◌≡◌};
ghost use Rattle.index.specs.Laws.{SetAscends, EntriesOrder, KeysAgree, ChangesLead, OneKey, KeysSpellable, ReadsBack, OnlySpelled};

use crate::KEY_LIMIT;

/// The limit, as a number.
pub fn limit()
    ensures { KEY_LIMIT ≡ 500 }
{}

/// The set of a document's encoded keys ascends, has these keys and no others, and is the only such list.
pub fn set_ascends()
    ensures { SetAscends }
{}

/// The entries of an index order by bytes as their keys do, and those of one key by the `_id`.
pub fn entries_order()
    ensures { EntriesOrder }
{}

/// Encoded keys are equal exactly where the order calls the keys equal, and none begins another.
pub fn keys_agree()
    ensures { KeysAgree }
{}

/// What is removed and added makes of the old keys the new ones, and of the same keys nothing.
pub fn changes_lead()
    ensures { ChangesLead }
{}

/// A document without an array on the paths of an index has one key in it.
pub fn one_key()
    ensures { OneKey }
{}

/// The keys of a document that BSON can spell have values that it can spell, as the laws of their order ask.
pub fn keys_spellable()
    ensures { KeysSpellable }
{}

/// What a definition is spelled as is read back.
pub fn reads_back()
    ensures { ReadsBack }
{}

/// What is read as a definition is spelled so, and may be one.
pub fn only_spelled()
    ensures { OnlySpelled }
{}

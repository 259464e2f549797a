//! Laws of the definitions, as contracts.

ghost use Rattle.aggregate_model.specs.Laws.{MatchesBoth, GivesWindow, GroupsNone, GroupsAll, RunsOneAfterOther};
ghost use Rattle.aggregate_model.specs.Laws.{SumsInAnyOrder};

/// `$match` and then `$match` keep what one `$match` of all their conditions keeps.
pub fn matches_both()
    ensures { MatchesBoth }
{}

/// `$skip` and then `$limit` give the window of these numbers.
pub fn gives_window()
    ensures { GivesWindow }
{}

/// There are no groups of no documents.
pub fn groups_none()
    ensures { GroupsNone }
{}

/// Every document is in one group: the groups' numbers of documents sum up to the number of all.
pub fn groups_all()
    ensures { GroupsAll }
{}

/// One pipeline behind another is the two run one after the other.
pub fn runs_one_after_other()
    ensures { RunsOneAfterOther }
{}

/// Two summands that change places change nothing, so a sum is the same in every order.
pub fn sums_in_any_order()
    ensures { SumsInAnyOrder }
{}

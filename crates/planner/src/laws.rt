//! Laws of the definitions and rows worked by hand, as contracts.

ghost use Rattle.planner.specs.AnswerLaws.{FrontOfAnswer, OrderedOnce, SortsToAnswer, KeptAreNoted, NeverChangesAnswer, WalksInOrder};
ghost use Rattle.planner.specs.ChoiceLaws.{ChoosesFirstBest};
ghost use Rattle.planner.specs.IdLaws.{FindsByIds};
ghost use Rattle.planner.specs.FirstIds.{FirstIdsLead};
ghost use Rattle.planner.specs.FoundIds.{IdsLeadToMatching};
ghost use Rattle.planner.specs.IdRange.{HasIdInRange, IdRangeSelects};
ghost use Rattle.planner.specs.KeyRange.{HasKeyInRange, HasBytesInRange};
ghost use Rattle.planner.specs.KeyScanLaws.{FindsIdText};
ghost use Rattle.planner.specs.KeySpan.{SpansRange};
ghost use Rattle.planner.specs.RangeReading.{RangeFindsMatching};
ghost use Rattle.planner.specs.Rows.{PlanRows, EdgeRows, MultiRows};

/// The plans of filters and sorts over three indexes.
pub fn plan_rows()
    ensures { PlanRows }
{}

/// Those of filters and sorts that an index can serve in part or not at all.
pub fn edge_rows()
    ensures { EdgeRows }
{}

/// Those over multikey indexes.
pub fn multi_rows()
    ensures { MultiRows }
{}

/// The plan is the first index that none outranks, where it helps; else no index helps, and it is a scan.
pub fn chooses_first_best()
    ensures { ChoosesFirstBest }
{}

/// A document that a filter matches has a key in the range that the filter gives in an index.
pub fn has_key_in_range()
    ensures { HasKeyInRange }
{}

/// So one of its encoded keys is bytes in that range, where BSON can spell it and the values of the range.
pub fn has_bytes_in_range()
    ensures { HasBytesInRange }
{}

/// No key of a range is below its first bytes, and none is above its last ones but what goes on from these.
pub fn spans_range()
    ensures { SpansRange }
{}

/// Two lists of the same documents that both ascend in the order of an answer are one list.
pub fn ordered_once()
    ensures { OrderedOnce }
{}

/// Documents in ascending order of `_id`, in the order of a sort, are the one list of them that ascends so.
pub fn sorts_to_answer()
    ensures { SortsToAnswer }
{}

/// Documents that a filter matches are the first ones of an answer where they stand in its order and each other one is above them.
pub fn front_of_answer()
    ensures { FrontOfAnswer }
{}

/// The indexes of a collection that is kept are noted as multikey where a document of it has an array on one of their
/// paths.
pub fn kept_are_noted()
    ensures { KeptAreNoted }
{}

/// Whichever index serves: what a walk over its range finds, each document once and in the order of an answer, are the
/// documents that the filter matches, sorted.
pub fn never_changes_answer()
    ensures { NeverChangesAnswer }
{}

/// The entries of an index that is in the order of a sort stand in the order of an answer.
pub fn walks_in_order()
    ensures { WalksInOrder }
{}

/// Documents that are found by ascending texts of `_id`s, with all that pass among them, give what a scan gives.
pub fn finds_by_ids()
    ensures { FindsByIds }
{}

/// The text of the `_id` is found behind each key in the text of an entry.
pub fn finds_id_text()
    ensures { FindsIdText }
{}

/// What is read of an index from the first key of a range to its last leads to each document that the filter matches, and
/// to stored documents alone.
pub fn range_finds_matching()
    ensures { RangeFindsMatching }
{}

/// Of the documents of the `_id`s that are found so the filter selects what it selects of all.
pub fn ids_lead_to_matching()
    ensures { IdsLeadToMatching }
{}

/// What is read first of an index in the order of a sort leads to documents of which those that the filter matches are the first ones of the
/// answer.
pub fn first_ids_lead()
    ensures { FirstIdsLead }
{}

/// A stored document that a filter matches has its `_id` in the range that the filter gives in the index on `_id`.
pub fn has_id_in_range()
    ensures { HasIdInRange }
{}

/// Of all documents whose `_id`s lie in that range, whichever others are given with them, the filter selects what it selects of all.
pub fn id_range_selects()
    ensures { IdRangeSelects }
{}

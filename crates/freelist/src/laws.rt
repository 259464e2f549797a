//! Laws of the definitions, each the contract of a function that does nothing.

ghost use Rattle.freelist.specs.ListLaws.{WrittenIsRead, PagesSuffice, ReadingIsExact, FreeIsComplement, BookOfPartition, ListedIsSound, ListRows};
ghost use Rattle.freelist.specs.ListLaws.{MadeIsPartition, MadeIsRead, MadeStaysSound, MadeTellsTheBook, MadeRows};
ghost use Rattle.freelist.specs.Sound.{TakesLeast, NoneIsFree, IsFreeByDefinition, OpensSound, CallsStaySound};
ghost use Rattle.freelist.specs.Undone.{UndoingLeadsBack};

/// What a take gives is free, and no page below it is.
pub fn takes_least()
    ensures { TakesLeast }
{}

/// A take gives none only where no page is free.
pub fn none_is_free()
    ensures { NoneIsFree }
{}

/// In a sound book a page may be taken exactly where it is free by the definition: it isn't in use, the running turn didn't
/// retire it, and no pin keeps it.
pub fn free_by_definition()
    ensures { IsFreeByDefinition }
{}

/// The book that a file is opened with is sound.
pub fn opens_sound()
    ensures { OpensSound }
{}

/// Every call keeps a book sound, so no page that was retired is lost, and none is freed while a pin keeps it.
pub fn calls_stay_sound()
    ensures { CallsStaySound }
{}

/// Undoing to a mark gives the book of the mark.
pub fn undoing_leads_back()
    ensures { UndoingLeadsBack }
{}

/// A list that was written is read: pages that hold it are a list on these pages that names these.
pub fn written_is_read()
    ensures { WrittenIsRead }
{}

/// A list on as many pages as it needs names all that it should.
pub fn pages_suffice()
    ensures { PagesSuffice }
{}

/// From a first page on, pages hold one list at most.
pub fn reading_is_exact()
    ensures { ReadingIsExact }
{}

/// Where each page of a file is in use, of its list or named by it, the pages below the page count that the book has free
/// are those that the list names.
pub fn free_is_complement()
    ensures { FreeIsComplement }
{}

/// That book is told by the list alone.
pub fn book_of_partition()
    ensures { BookOfPartition }
{}

/// The book that a list tells is sound, whatever the list names.
pub fn listed_is_sound()
    ensures { ListedIsSound }
{}

/// Lists worked by hand.
pub fn list_rows()
    ensures { ListRows }
{}

/// A list that was made names all pages of the file that are neither in use nor its own, each once.
pub fn made_is_partition()
    ensures { MadeIsPartition }
{}

/// A list that was made is read again, once its pages hold what they are to hold.
pub fn made_is_read()
    ensures { MadeIsRead }
{}

/// Making a list keeps a book sound.
pub fn made_stays_sound()
    ensures { MadeStaysSound }
{}

/// The book that a turn leaves, with its list made, is what the list tells whoever opens the file next.
pub fn made_tells_the_book()
    ensures { MadeTellsTheBook }
{}

/// Lists made by hand: with nothing to name, of pages below the page count, and with a page behind it.
pub fn made_rows()
    ensures { MadeRows }
{}

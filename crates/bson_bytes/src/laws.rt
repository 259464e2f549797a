//! Laws of the definitions, as contracts of functions that do nothing.

ghost use Rattle.std.specs.Prelude.{◌≡◌, ◌≢◌, [], ◌<◌, ◌≤◌, ◌^◌, ◌++◌, ℕ, List, length, take, Ok, Err};
ghost use Rattle.bson.specs.Tree.{Tree, Pairs};
ghost use Rattle.bson.specs.Kinds.{kind};
ghost use Rattle.bson.specs.Lawful.{IsBytes, IsTree, levels};
ghost use Rattle.bson.specs.Spelling.{Spells, IsSpellable, tree_bytes};
ghost use Rattle.bson_bytes.specs.Raw.{document_spelled};
ghost use Rattle.bson_bytes.specs.FirstFault.{WrongDocument, Agrees, IsStill};
ghost use Rattle.bson_bytes.specs.Decoding.{value_at, pairs_by, items_by, pairs_in, items_in, document_at};
ghost use Rattle.bson_bytes.specs.declared.fault.BsonFault.{BsonFault};
ghost use Rattle.bson_bytes.specs.declared.fault.BsonFault.TheVariants as faults;
ghost use Rattle.bson_bytes.specs.Faults.{bson_fault_number};

use crate::fault::BsonFault;

/// The number of a fault of bytes: from 1, in the order of their declaration.
pub fn bson_fault_number(fault: BsonFault) -> u8
    ensures { result ≡ bson_fault_number fault }
{
    fault as u8
}

/// A document has one spelling, and no document's spelling begins another's.
pub fn one_spelling()
    ensures { (a b x y : List ℕ) (ps qs : Pairs) → Spells a ps → Spells b qs → a ++ x ≡ b ++ y
        → (ps ≡ qs) × (a ≡ b) }
{}

/// The same of values of one kind.
pub fn one_value()
    ensures { (t u : Tree) (x y : List ℕ) → IsSpellable t → IsSpellable u → kind t ≡ kind u
        → tree_bytes t ++ x ≡ tree_bytes u ++ y → (t ≡ u) × (x ≡ y) }
{}

/// What reading gives is what is spelled at the front of the input.
pub fn reading_is_spelling()
    ensures read { (bytes : List ℕ) (ps : Pairs) (n : ℕ) → IsBytes bytes
        → document_at bytes ≡ Ok (ps, n)
        → (n ≤ length bytes) × Spells (take n bytes) ps }
    ensures spelled { (front rest : List ℕ) (ps : Pairs) → Spells front ps
        → document_at (front ++ rest) ≡ Ok (ps, length front) }
{}

/// Bytes that spell a document spell no other.
pub fn spelled_once()
    ensures { (bytes : List ℕ) (ps : Pairs) → Spells bytes ps → document_spelled bytes ≡ ps }
{}

/// No bytes are the reason that memory runs out.
pub fn no_bytes_want_memory()
    ensures { (bytes : List ℕ) → document_at bytes ≢ Err faults.Memory }
{}

/// What is wrong stays wrong at its place, whatever stands behind the bytes that were seen; unless a document or
/// an array that is open there does not end with a zero any more, which is wrong further left.
pub fn unseen_bytes_do_not_matter()
    ensures { (bytes other : List ℕ) (place seen : ℕ) (fault : BsonFault) → IsBytes bytes
        → WrongDocument bytes place seen fault → Agrees seen bytes other
        → IsStill (WrongDocument other) place seen fault }
{}

/// The bound on the number of elements that ends the definition of reading is never met: a greater one
/// changes nothing.
pub fn elements_are_not_bounded()
    ensures pairs { (more most : ℕ) (content : List ℕ) → IsBytes content → length content ≤ most
        → pairs_by (value_at more) most [] content ≡ pairs_in (value_at more) content }
    ensures items { (more most : ℕ) (content : List ℕ) → IsBytes content → length content ≤ most
        → items_by (value_at more) most 0 content ≡ items_in (value_at more) content }
{}

/// What is wrong at a place, behind what is spelled before it, is the fault that reading gives: there is no other first fault.
pub fn what_is_wrong_is_refused()
    ensures { (bytes : List ℕ) (place seen : ℕ) (fault : BsonFault) → IsBytes bytes
        → WrongDocument bytes place seen fault → document_at bytes ≡ Err fault }
{}

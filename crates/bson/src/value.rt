//! Values: what a document holds, and what contracts see of it.

ghost use Rattle.std.specs.Prelude.{◌≡◌, ◌≤◌};
ghost use Rattle.bson.specs.View.{pairs_of, items_of};
ghost use Rattle.bson.specs.Lawful.{IsArray, IsDocument};

use crate::beside::Beside;
use crate::binary::Binary;
use crate::kind::Kind;
use crate::nesting::Nesting;
use crate::object_id::ObjectId;
use crate::text::Text;
use std::marker::Model;

/// A value of BSON 1.1, of the kinds that this crate takes.
#[cycle(value)]
#[derive(Debug, Drop)]
pub enum Value {
    /// A text in UTF-8, which may hold a zero byte.
    String(Text),
    /// A document in the document.
    Document(Document),
    /// Values in order.
    Array(Array),
    /// Bytes with a subtype.
    Binary(Binary),
    /// Twelve bytes that name an object.
    ObjectId(ObjectId),
    /// True or false.
    Bool(bool),
    /// Milliseconds since 1970, before that negative.
    Date(i64),
    /// No value.
    Null,
    /// A whole number in four bytes.
    Int32(i32),
    /// A time of the database's own, as one number: seconds in its upper half, a count in its lower.
    Timestamp(u64),
    /// A whole number in eight bytes.
    Int64(i64),
    /// What is below every other value.
    MinKey,
    /// What is above every other value.
    MaxKey,
}

/// A name with its value.
#[cycle(value)]
#[derive(Debug, Drop)]
pub struct Pair {
    pub name: Text,
    pub value: Value,
}

/// Names with their values, in order: at every level the names are distinct and have no zero byte, and
/// documents and arrays nest at most 100 levels, the document itself among them.
#[cycle(value)]
#[derive(Debug)]
pub struct Document {
    pub(crate) pairs: Vec<Pair>,
    // how deep the values nest, and how to find names where there are many
    pub(crate) beside: Beside,
}

/// Values in order, nesting at most 99 levels, the array itself among them.
#[cycle(value)]
#[derive(Debug)]
pub struct Array {
    pub(crate) items: Vec<Value>,
    // how deep the items nest, and how many how deep where there are many
    pub(crate) nesting: Nesting,
}

// (written out, so that no crate above proves again that the parts are let go)
impl Drop for Document {
    #[cycle(dropping)]
    fn drop(self) {
        let Document {
            pairs: _,
            beside: _,
        } = self;
    }
}

impl Drop for Array {
    #[cycle(dropping)]
    fn drop(self) {
        let Array {
            items: _,
            nesting: _,
        } = self;
    }
}

impl Document {
    /// The pairs, to be changed and put back by `from_pairs`.
    pub fn into_pairs(self) -> Vec<Pair>
        ensures pairs { pairs_of result.items ≡ self }
        ensures lawful { IsDocument self }
    {
        let Document { pairs, beside: _ } = self;
        pairs
    }
}

impl Array {
    /// The items, to be changed and put back by `from_items`.
    pub fn into_items(self) -> Vec<Value>
        ensures items { items_of result.items ≡ self }
        ensures lawful { IsArray self }
    {
        let Array { items, nesting: _ } = self;
        items
    }
}

impl Model for Document {
    ghost use Rattle.bson.specs.Tree.{Pairs, count_pairs};
    ghost use Rattle.bson.specs.TreeCode.{coded_pairs};

    ghost Value = { Pairs };

    ghost coded = { coded_pairs };

    ghost use Rattle.bson.specs.Lawful.{HoldsDocument};
    ghost use Rattle.bson.specs.Overview.{levels_of, Fits};
    ghost use Rattle.bson.specs.View.{pairs_of};

    ghost view = { λ a. pairs_of a.pairs.items };

    ghost invariant = { λ a. HoldsDocument (levels_of a.beside) (pairs_of a.pairs.items)
        × Fits a.beside (pairs_of a.pairs.items) };

    ghost size = { count_pairs };

    ghost use Rattle.bson.specs.CountLaws.{most_le-count_pairs};

    ghost size_decreases = { λ a h. most_le-count_pairs a.pairs.items };
}

impl Model for Array {
    ghost use Rattle.bson.specs.Tree.{Items, count_items};
    ghost use Rattle.bson.specs.TreeCode.{coded_items};

    ghost Value = { Items };

    ghost coded = { coded_items };

    ghost use Rattle.bson.specs.Lawful.{HoldsArray};
    ghost use Rattle.bson.specs.Overview.{nested, FitsItems};
    ghost use Rattle.bson.specs.View.{items_of};

    ghost view = { λ a. items_of a.items.items };

    ghost invariant = { λ a. HoldsArray (nested a.nesting) (items_of a.items.items)
        × FitsItems a.nesting (items_of a.items.items) };

    ghost size = { count_items };

    ghost use Rattle.bson.specs.CountLaws.{most_le-count_items};

    ghost size_decreases = { λ a h. most_le-count_items a.items.items };
}

impl Value {
    ghost use Rattle.bson.specs.Kinds.{kind};
    ghost use Rattle.bson.specs.View.{tree};
    ghost use Rattle.bson.specs.Lawful.{IsTree, IsLawfulLeaf, levels};

    /// Which kind of value it is.
    pub fn kind(&self) -> Kind
        ensures { result ≡ kind (tree self.now) }
    {
        match self {
            Value::String(_) => Kind::String,
            Value::Document(_) => Kind::Document,
            Value::Array(_) => Kind::Array,
            Value::Binary(_) => Kind::Binary,
            Value::ObjectId(_) => Kind::ObjectId,
            Value::Bool(_) => Kind::Bool,
            Value::Date(_) => Kind::Date,
            Value::Null => Kind::Null,
            Value::Int32(_) => Kind::Int32,
            Value::Timestamp(_) => Kind::Timestamp,
            Value::Int64(_) => Kind::Int64,
            Value::MinKey => Kind::MinKey,
            Value::MaxKey => Kind::MaxKey,
        }
    }

    /// How deep the value nests: 0 for what is no document and no array.
    pub fn levels(&self) -> u32
        ensures levels { result ≡ levels (tree self.now) }
        ensures lawful { IsTree (tree self.now) }
        ensures most { result ≤ 100 }
    {
        match self {
            Value::Document(document) => document.levels(),
            Value::Array(array) => array.levels(),
            _ => {
                self.look();
                0
            }
        }
    }

    // Reads what holds no other value, by which a proof learns what its type says of it.
    fn look(&self)
        ensures { IsLawfulLeaf (tree self.now) }
    {
        match self {
            Value::String(text) => {
                let _text = text.as_str();
            }
            Value::Binary(binary) => {
                let _subtype = binary.subtype.byte();
                let _bytes = binary.bytes.as_slice();
            }
            Value::ObjectId(id) => {
                let _bytes = id.bytes();
            }
            Value::Int32(number) => {
                let _number = *number;
            }
            Value::Date(number) | Value::Int64(number) => {
                let _number = *number;
            }
            Value::Timestamp(number) => {
                let _number = *number;
            }
            _ => {}
        }
    }
}

//! Values of their own that are equal to others.

ghost use Rattle.std.specs.Prelude.{◌≡◌, IfOk};

use crate::beside::Beside;
use crate::fault::NoMemory;
use crate::nesting::Nesting;
use crate::value::{Array, Document, Pair, Value};

impl Value {
    ghost use Rattle.bson.specs.View.{tree};

    /// An equal value of its own.
    #[cycle(copies)]
    pub fn copy(&self) -> Result<Value, NoMemory>
        ensures { IfOk result (λ v. tree v ≡ tree self.now) }
    {
        match self {
            Value::String(text) => Ok(Value::String(text.copy()?)),
            Value::Document(document) => Ok(Value::Document(document.copy()?)),
            Value::Array(array) => Ok(Value::Array(array.copy()?)),
            Value::Binary(binary) => Ok(Value::Binary(binary.copy()?)),
            Value::ObjectId(id) => Ok(Value::ObjectId(*id)),
            Value::Bool(truth) => Ok(Value::Bool(*truth)),
            Value::Date(number) => Ok(Value::Date(*number)),
            Value::Null => Ok(Value::Null),
            Value::Int32(number) => Ok(Value::Int32(*number)),
            Value::Timestamp(number) => Ok(Value::Timestamp(*number)),
            Value::Int64(number) => Ok(Value::Int64(*number)),
            Value::MinKey => Ok(Value::MinKey),
            Value::MaxKey => Ok(Value::MaxKey),
        }
    }
}

impl Document {
    /// An equal document of its own.
    #[cycle(copies)]
    pub fn copy(&self) -> Result<Document, NoMemory>
        ensures { IfOk result (λ d. d ≡ self.now) }
    {
        let mut pairs = Vec::with_capacity(*self.pairs.allocator(), self.pairs.len())?;
        'pairs: for pair in &self.pairs {
            let name = pair.name.copy()?;
            let value = pair.value.copy()?;
            pairs.push(Pair { name, value })?;
        }
        let levels = self.beside.levels();
        Ok(Document {
            pairs,
            beside: Beside::Plain { levels, edits: 0 },
        })
    }
}

impl Array {
    /// An equal array of its own.
    #[cycle(copies)]
    pub fn copy(&self) -> Result<Array, NoMemory>
        ensures { IfOk result (λ a. a ≡ self.now) }
    {
        let mut items = Vec::with_capacity(*self.items.allocator(), self.items.len())?;
        'items: for item in &self.items {
            let item = item.copy()?;
            items.push(item)?;
        }
        let levels = self.nesting.levels();
        Ok(Array {
            items,
            nesting: Nesting::Plain { levels, edits: 0 },
        })
    }
}

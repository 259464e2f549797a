//! What defines an index.

ghost use Rattle.std.specs.Prelude.{◌≡◌, IfOk, true};
ghost use Rattle.path.specs.Parts.{parts_of};
ghost use Rattle.outcome.specs.Outcome.{Gives};
ghost use Rattle.index.specs.Definition.{IsPath, IsDefinition};
ghost use Rattle.index.specs.Naming.{field_named};

use bson::{NoMemory, Text};
use path::{Path, PathFault};
use std::alloc::Global;
use std::marker::Model;
use value_order::Direction;

/// A path of an index, and the direction of the keys there.
#[derive(Debug, Drop)]
pub struct IndexField {
    text: Text,
    path: Path,
    direction: Direction,
}

impl Model for IndexField {
    ghost use Rattle.std.specs.Prelude.{◌≡◌, Ok};
    ghost use Rattle.path.specs.Parts.{path_of};
    ghost use Rattle.index.specs.Definition.{Field};
    ghost use Rattle.index.specs.DefinitionCode.{field_code};

    ghost Value = { Field };

    ghost coded = { field_code };

    ghost view = { λ a. record { path = a.text; direction = a.direction } };

    ghost invariant = { λ a. path_of a.text ≡ Ok a.path };
}

impl IndexField {
    /// The field of the path that a text writes, or the first of the text's faults.
    pub fn new(alloc: Global, text: &str, direction: Direction) -> Result<IndexField, PathFault>
        ensures { Gives PathFault.Memory (λ f. f) result (field_named text.now direction) }
    {
        let path = Path::parse(alloc, text)?;
        Ok(IndexField {
            text: Text::from_str(alloc, text)?,
            path,
            direction,
        })
    }

    /// The path as it was written.
    pub fn text(&self) -> &str
        ensures text { result.now ≡ self.now.path }
        ensures lawful { IsPath self.now.path }
    {
        self.text.as_str()
    }

    /// The path.
    pub fn path(&self) -> &Path
        ensures { result.now ≡ parts_of self.now.path }
    {
        &self.path
    }

    /// The direction of the keys.
    pub fn direction(&self) -> Direction
        ensures { result ≡ self.now.direction }
    {
        self.direction
    }

    /// An equal field of its own.
    pub fn copy(&self) -> Result<IndexField, NoMemory>
        ensures { IfOk result (λ f. f ≡ self.now) }
    {
        Ok(IndexField {
            text: self.text.copy()?,
            path: self.path.copy()?,
            direction: self.direction,
        })
    }
}

/// Equal fields of their own.
pub fn copy_fields(alloc: Global, fields: &[IndexField]) -> Result<Vec<IndexField>, NoMemory>
    ensures { IfOk result (λ v. v.items ≡ fields.now) }
{
    let mut copies = Vec::with_capacity(alloc, fields.len())?;
    'fields: for field in fields {
        copies.push(field.copy()?)?;
    }
    Ok(copies)
}

/// What defines an index. A collection's indexes have numbers from 1 on; that on `_id` isn't among them.
#[derive(Debug)]
pub struct IndexSpec {
    number: u32,
    name: Text,
    fields: Vec<IndexField>,
    is_unique: bool,
    is_multi: bool,
}

// (written out, so that no crate above proves again that its parts are let go)
impl Drop for IndexSpec {
    fn drop(self) {
        let IndexSpec {
            number: _,
            name: _,
            fields: _,
            is_unique: _,
            is_multi: _,
        } = self;
    }
}

impl Model for IndexSpec {
    ghost use Rattle.index.specs.Definition.{Definition, IsDefinition};
    ghost use Rattle.index.specs.DefinitionCode.{definition_code};

    ghost Value = { Definition };

    ghost coded = { definition_code };

    ghost view = { λ a. record {
      number = a.number;
      name = a.name;
      fields = a.fields.items;
      is_unique = a.is_unique;
      is_multi = a.is_multi;
    } };

    ghost invariant = { λ a. IsDefinition (record {
      number = a.number;
      name = a.name;
      fields = a.fields.items;
      is_unique = a.is_unique;
      is_multi = a.is_multi;
    }) };
}

impl IndexSpec {
    ghost use Rattle.index.specs.Naming.{definition_of, new_definition};

    /// The index of this number, name and fields, before any document with an array on one of its paths was stored.
    pub fn new(number: u32, name: Text, fields: Vec<IndexField>, is_unique: bool) -> IndexSpec
        requires { IsDefinition (new_definition number name fields.items is_unique) }
        ensures { result ≡ new_definition number name fields.items is_unique }
    {
        IndexSpec {
            number,
            name,
            fields,
            is_unique,
            is_multi: false,
        }
    }

    /// The definition of these parts.
    pub(crate) fn of_parts(
        number: u32,
        name: Text,
        fields: Vec<IndexField>,
        is_unique: bool,
        is_multi: bool,
    ) -> IndexSpec
        requires { IsDefinition (definition_of number name fields.items is_unique is_multi) }
        ensures { result ≡ definition_of number name fields.items is_unique is_multi }
    {
        IndexSpec {
            number,
            name,
            fields,
            is_unique,
            is_multi,
        }
    }

    /// Its number among its collection's indexes.
    pub fn number(&self) -> u32
        ensures number { result ≡ self.now.number }
        ensures lawful { IsDefinition self.now }
    {
        self.number
    }

    /// Its name.
    pub fn name(&self) -> &str
        ensures { result.now ≡ self.now.name }
    {
        self.name.as_str()
    }

    /// Its paths with their directions, in order.
    pub fn fields(&self) -> &[IndexField]
        ensures fields { result.now ≡ self.now.fields }
        ensures lawful { IsDefinition self.now }
    {
        &self.fields
    }

    /// Whether no two documents may have one key in it.
    pub fn is_unique(&self) -> bool
        ensures { result ≡ self.now.is_unique }
    {
        self.is_unique
    }

    /// Whether a document with an array on one of its paths was stored since it was made.
    pub fn is_multi(&self) -> bool
        ensures { result ≡ self.now.is_multi }
    {
        self.is_multi
    }

    /// Notes that a document with an array on one of its paths was stored.
    pub fn set_multi(&mut self)
        ensures { self.new ≡ record self.old { is_multi = true } }
    {
        self.is_multi = true;
    }

    /// An equal definition of its own.
    pub fn copy(&self) -> Result<IndexSpec, NoMemory>
        ensures { IfOk result (λ d. d ≡ self.now) }
    {
        Ok(IndexSpec {
            number: self.number,
            name: self.name.copy()?,
            fields: copy_fields(*self.fields.allocator(), &self.fields)?,
            is_unique: self.is_unique,
            is_multi: self.is_multi,
        })
    }
}

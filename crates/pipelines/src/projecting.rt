//! `$project` as it was read.

ghost use Rattle.std.specs.Prelude.{◌≡◌, IfOk, map, option_map};
ghost use Rattle.bson.specs.View.{tree};
ghost use Rattle.outcome.specs.Outcome.{Gives};
ghost use Rattle.aggregate_model.specs.Operands.{dollar_path};
ghost use Rattle.aggregate_model.specs.Project.{no_fields, is_dotted, source_in, add_computed, read_computed, add_taken};
ghost use Rattle.aggregate_model.specs.Project.{read_pair, read_pairs, projecting, read_projecting};
ghost use Rattle.pipelines.specs.View.{computed_of, fields_of, projecting_of};

use crate::operands::{dollar_path, source_path};
use bson::{Document, NoMemory, Value};
use filter::path_in;
use path::{Path, Refusal};
use projection::{Projection, ProjectionFields};
use std::alloc::Global;

/// A field that is computed: its path and that of what it is to be.
#[derive(Drop)]
pub struct Computed {
    pub name: Path,
    pub source: Path,
}

/// A projection with fields that are computed.
#[derive(Drop)]
pub struct Projecting {
    pub alloc: Global,
    pub taken: Projection,
    pub computed: Vec<Computed>,
}

/// What was read so far.
#[derive(Drop)]
struct Fields {
    seen: ProjectionFields,
    computed: Vec<Computed>,
}

fn is_dotted(path: &Path) -> bool
    ensures { result ≡ is_dotted path.now }
{
    match path.parts() {
        [_] => false,
        _ => true,
    }
}

/// The path that a text writes for a field that is computed. `TypeMismatch` where it has no `$` in front, `FailedToParse`
/// where what follows is no path.
fn source_in(alloc: Global, text: &str) -> Result<Path, Refusal>
    ensures { Gives Refusal.OutOfMemory (λ p. p) result (source_in (dollar_path text.now)) }
{
    match dollar_path(text) {
        Some(name) => source_path(alloc, name),
        None => Err(Refusal::TypeMismatch),
    }
}

impl Fields {
    fn with_computed(self, name: Path, source: Path) -> Result<Fields, Refusal>
        ensures { Gives Refusal.OutOfMemory fields_of result
            (add_computed name source (fields_of self)) }
    {
        let Fields { seen, computed } = self;
        let seen = seen.with_computed(name.copy()?)?;
        let mut computed = computed;
        computed.push(Computed { name, source })?;
        Ok(Fields { seen, computed })
    }

    /// One field more, which is computed.
    fn read_computed(self, alloc: Global, name: &str, text: &str) -> Result<Fields, Refusal>
        ensures { Gives Refusal.OutOfMemory fields_of result
            (read_computed name.now text.now (fields_of self)) }
    {
        let path = path_in(alloc, name)?;
        if is_dotted(&path) {
            return Err(Refusal::TypeMismatch);
        }
        let source = source_in(alloc, text)?;
        self.with_computed(path, source)
    }

    /// One field more, which is taken from the document or left out.
    fn add_taken(self, alloc: Global, name: &str, value: &Value) -> Result<Fields, Refusal>
        ensures { Gives Refusal.OutOfMemory fields_of result
            (add_taken name.now (tree value.now) (fields_of self)) }
    {
        let Fields { seen, computed } = self;
        let seen = seen.with_pair(alloc, name, value)?;
        Ok(Fields { seen, computed })
    }

    fn read_pair(self, alloc: Global, name: &str, value: &Value) -> Result<Fields, Refusal>
        ensures { Gives Refusal.OutOfMemory fields_of result
            (read_pair name.now (tree value.now) (fields_of self)) }
    {
        match value {
            Value::String(text) => self.read_computed(alloc, name, text.as_str()),
            _ => self.add_taken(alloc, name, value),
        }
    }
}

fn read_pairs(alloc: Global, document: &Document) -> Result<Fields, Refusal>
    ensures { Gives Refusal.OutOfMemory fields_of result (read_pairs document.now no_fields) }
{
    let mut fields = Fields {
        seen: ProjectionFields::new(alloc),
        computed: Vec::new(alloc),
    };
    'pairs: for pair in document.pairs() {
        fields = fields.read_pair(alloc, pair.name.as_str(), &pair.value)?;
    }
    Ok(fields)
}

impl Computed {
    fn copy(&self) -> Result<Computed, NoMemory>
        ensures { IfOk result (λ c. computed_of c ≡ computed_of self.now) }
    {
        Ok(Computed {
            name: self.name.copy()?,
            source: self.source.copy()?,
        })
    }
}

impl Projecting {
    /// The projection that a document spells, or the first misuse from the left.
    ///
    /// At one field these are looked for in order: a fault of its name; `TypeMismatch` for a value that is no flag and no
    /// `"$path"`, or a `"$path"` at a dotted name; `FailedToParse` for one that is malformed; `BadValue` where it meets an
    /// earlier field or mixes taking and leaving.
    pub(crate) fn read(alloc: Global, document: &Document) -> Result<Projecting, Refusal>
        ensures { Gives Refusal.OutOfMemory projecting_of result (read_projecting document.now) }
    {
        let Fields { seen, computed } = read_pairs(alloc, document)?;
        let taken = seen.projection(alloc)?;
        Ok(Projecting {
            alloc,
            taken,
            computed,
        })
    }

    /// An equal one of its own.
    pub(crate) fn copy(&self) -> Result<Projecting, NoMemory>
        ensures { IfOk result (λ p. projecting_of p ≡ projecting_of self.now) }
    {
        let taken = self.taken.copy()?;
        let mut computed = Vec::with_capacity(self.alloc, self.computed.len())?;
        'computed: for field in &self.computed {
            computed.push(field.copy()?)?;
        }
        Ok(Projecting {
            alloc: self.alloc,
            taken,
            computed,
        })
    }
}

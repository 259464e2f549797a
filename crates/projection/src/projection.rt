//! Projections and their reading.

ghost use Rattle.std.specs.Prelude.{◌≡◌, ◌++◌, [], ◌∷◌, Ok, Some, IfOk, false};
ghost use Rattle.std.specs.List.{list_any};
ghost use Rattle.bson.specs.View.{tree};
ghost use Rattle.path.specs.Parts.{meets};
ghost use Rattle.outcome.specs.Outcome.{Gives};
ghost use Rattle.filter.specs.IdPaths.{is_id, begins_with_id};
ghost use Rattle.projection.specs.ProjectionReading.{flag_of, flag_in, id_path, nothing_seen};
ghost use Rattle.projection.specs.ProjectionReading.{agrees, with_field, read_field, read_flags, mode, names_id};
ghost use Rattle.projection.specs.Projection.{keeps_all};
ghost use Rattle.projection.specs.ProjectionReading.{with_computed, projection_of, projection_seen, read_projection};
ghost use Rattle.projection.specs.Seen.{seen_of};

use crate::path_list::PathList;
use bson::{Document, NoMemory, Value};
use filter::path_in;
use path::{Path, Refusal};
use std::alloc::Global;
use std::marker::Model;

/// The paths that are kept, or those that are taken away.
#[derive(Debug)]
pub struct Projection {
    pub(crate) includes: bool,
    pub(crate) paths: Vec<Path>,
}

// (written out, so that no crate above proves again that its parts are let go)
impl Drop for Projection {
    fn drop(self) {
        let Projection {
            includes: _,
            paths: _,
        } = self;
    }
}

impl Model for Projection {
    ghost use Rattle.std.specs.Prelude.{ℕ, Bool, List};

    ghost Value = { Bool × List (List (List ℕ)) };

    ghost view = { λ a. (a.includes, a.paths.items) };
}

/// What was read of a projection so far: what the fields but `_id` say, what `_id` says, and the paths of these fields.
#[derive(Drop)]
pub struct ProjectionFields {
    fields: Option<bool>,
    id: Option<bool>,
    paths: PathList,
}

fn flag_of(number: i64) -> Result<bool, Refusal>
    ensures { Gives Refusal.OutOfMemory (λ b. b) result (flag_of number) }
{
    if number == 0 {
        return Ok(false);
    }
    if number == 1 {
        return Ok(true);
    }
    Err(Refusal::BadValue)
}

/// Whether a field is asked for: 1 or true, and not 0 or false.
fn flag_in(value: &Value) -> Result<bool, Refusal>
    ensures { Gives Refusal.OutOfMemory (λ b. b) result (flag_in (tree value.now)) }
{
    match value {
        Value::Bool(flag) => Ok(*flag),
        Value::Int32(number) => flag_of(i64::from(*number)),
        Value::Int64(number) => flag_of(*number),
        _ => Err(Refusal::TypeMismatch),
    }
}

fn is_id(path: &Path) -> bool
    ensures { result ≡ is_id path.now }
{
    match path.parts() {
        [only] => only.as_str() == "_id",
        _ => false,
    }
}

fn begins_with_id(path: &Path) -> bool
    ensures { result ≡ begins_with_id path.now }
{
    match path.parts() {
        [first, ..] => first.as_str() == "_id",
        [] => false,
    }
}

fn any_begins_with_id(paths: &[Path]) -> bool
    ensures { result ≡ list_any begins_with_id paths.now }
{
    paths.iter().any(|path| begins_with_id(path))
}

fn agrees(fields: Option<bool>, flag: bool) -> bool
    ensures { result ≡ agrees fields flag }
{
    match fields {
        Some(true) => flag,
        Some(false) => !flag,
        None => true,
    }
}

/// Takes one more path in, which meets none of those before.
fn with_path(seen: ProjectionFields, path: Path, flag: bool) -> Result<ProjectionFields, Refusal>
    requires { list_any (meets path) seen.paths ≡ false }
    ensures { Gives Refusal.OutOfMemory seen_of result (Ok (record {
      fields = Some flag;
      id = seen.id;
      paths = seen.paths ++ path ∷ [];
    })) }
{
    let ProjectionFields {
        fields: _,
        id,
        paths,
    } = seen;
    Ok(ProjectionFields {
        fields: Some(flag),
        id,
        paths: paths.with(path)?,
    })
}

/// Takes one more field in.
fn with_field(seen: ProjectionFields, path: Path, flag: bool) -> Result<ProjectionFields, Refusal>
    ensures { Gives Refusal.OutOfMemory seen_of result (with_field path flag (seen_of seen)) }
{
    let mut seen = seen;
    if seen.id.is_some() && begins_with_id(&path) {
        return Err(Refusal::BadValue);
    }
    if seen.paths.meets(&path) {
        return Err(Refusal::BadValue);
    }
    if is_id(&path) {
        seen.id = Some(flag);
        return Ok(seen);
    }
    if !agrees(seen.fields, flag) {
        return Err(Refusal::BadValue);
    }
    with_path(seen, path, flag)
}

fn read_fields(alloc: Global, document: &Document) -> Result<ProjectionFields, Refusal>
    ensures { Gives Refusal.OutOfMemory seen_of result (read_flags nothing_seen document.now) }
{
    let mut seen = ProjectionFields::new(alloc);
    'pairs: for pair in document.pairs() {
        seen = seen.with_pair(alloc, pair.name.as_str(), &pair.value)?;
    }
    Ok(seen)
}

fn mode(fields: Option<bool>, id: Option<bool>) -> bool
    ensures { result ≡ mode fields id }
{
    match (fields, id) {
        (Some(flag), _) => flag,
        (None, Some(flag)) => flag,
        (None, None) => false,
    }
}

fn names_id(includes: bool, id: Option<bool>, paths: &[Path]) -> bool
    ensures { result ≡ names_id includes id paths.now }
{
    match (includes, id) {
        (true, Some(flag)) => flag,
        (true, None) => !any_begins_with_id(paths),
        (false, Some(flag)) => !flag,
        (false, None) => false,
    }
}

/// The path `_id`.
fn id_path(alloc: Global) -> Result<Path, Refusal>
    ensures { Gives Refusal.OutOfMemory (λ p. p) result (Ok id_path) }
{
    path_in(alloc, "_id")
}

fn projection_of(
    alloc: Global,
    includes: bool,
    seen: ProjectionFields,
) -> Result<Projection, Refusal>
    ensures { Gives Refusal.OutOfMemory (λ p. p) result
        (Ok (projection_of includes (seen_of seen))) }
{
    let ProjectionFields {
        fields: _,
        id,
        paths,
    } = seen;
    let mut paths = paths.into_paths();
    if names_id(includes, id, &paths) {
        paths.push(id_path(alloc)?)?;
    }
    Ok(Projection { includes, paths })
}

impl ProjectionFields {
    ghost use Rattle.projection.specs.Seen.{seen_of};

    /// Those of a projection of which nothing was read.
    pub fn new(alloc: Global) -> ProjectionFields
        ensures { seen_of result ≡ nothing_seen }
    {
        ProjectionFields {
            fields: None,
            id: None,
            paths: PathList::new(alloc),
        }
    }

    /// One field more, or the refusal of what is wrong with it: of its path, of its value, `BadValue` where it meets an
    /// earlier one or mixes taking and leaving.
    pub fn with_pair(
        self,
        alloc: Global,
        name: &str,
        value: &Value,
    ) -> Result<ProjectionFields, Refusal>
        ensures { Gives Refusal.OutOfMemory seen_of result
            (read_field name.now (tree value.now) (seen_of self)) }
    {
        let path = path_in(alloc, name)?;
        let flag = flag_in(value)?;
        with_field(self, path, flag)
    }

    /// One field more that is computed and not taken from the document. It is an inclusion, `_id` too. `BadValue` where
    /// it meets an earlier one or where others are left out.
    pub fn with_computed(self, path: Path) -> Result<ProjectionFields, Refusal>
        ensures { Gives Refusal.OutOfMemory seen_of result (with_computed path (seen_of self)) }
    {
        let mut seen = with_field(self, path, true)?;
        if !agrees(seen.fields, true) {
            return Err(Refusal::BadValue);
        }
        seen.fields = Some(true);
        Ok(seen)
    }

    /// The projection of these fields.
    pub fn projection(self, alloc: Global) -> Result<Projection, Refusal>
        ensures { Gives Refusal.OutOfMemory (λ p. p) result (Ok (projection_seen (seen_of self))) }
    {
        projection_of(alloc, mode(self.fields, self.id), self)
    }
}

impl Projection {
    /// The projection that leaves all.
    pub fn new(alloc: Global) -> Projection
        ensures { result ≡ (false, []) }
    {
        Projection {
            includes: false,
            paths: Vec::new(alloc),
        }
    }

    /// Whether it leaves every document as it is, since it says nothing of any field.
    pub fn keeps_all(&self) -> bool
        ensures { result ≡ keeps_all self.now }
    {
        !self.includes && self.paths.is_empty()
    }

    /// The projection that a document spells, or the first misuse from the left.
    pub fn read(alloc: Global, document: &Document) -> Result<Projection, Refusal>
        ensures { Gives Refusal.OutOfMemory (λ p. p) result (read_projection document.now) }
    {
        read_fields(alloc, document)?.projection(alloc)
    }

    /// An equal projection of its own.
    pub fn copy(&self) -> Result<Projection, NoMemory>
        ensures { IfOk result (λ p. p ≡ self.now) }
    {
        let mut paths = Vec::with_capacity(*self.paths.allocator(), self.paths.len())?;
        'paths: for path in &self.paths {
            paths.push(path.copy()?)?;
        }
        Ok(Projection {
            includes: self.includes,
            paths,
        })
    }
}

//! Documents: look-up and building.

ghost use Rattle.std.specs.Prelude.{◌≡◌, ◌==◌, ◌+◌, ◌<◌, Some, None, OnOk, OnErr, IfOk, IfErr, option_map, max, ◌≤◌};
ghost use Rattle.bson.specs.Tree.{pair, no_pairs, append};
ghost use Rattle.bson.specs.Lookup.{lookup};
ghost use Rattle.bson.specs.Edits.{pairs_len, place, pair_at, with_value, without_pair, put, cut, PushFault, SetFault, ReplaceFault, Refused};
ghost use Rattle.bson.specs.View.{tree, pairs_of};
ghost use Rattle.bson.specs.Lawful.{IsDocument, HoldsDocument, pairs_levels};

use crate::MOST_LEVELS;
use crate::beside::{Beside, deepest, deepest_after};
use crate::fault::BuildFault;
use crate::names::{Names, first_zero};
use crate::text::Text;
use crate::value::{Document, Pair, Value};
use std::alloc::Global;
use std::mem;

/// How many pairs are many: among fewer a name is found soon enough by looking through them.
const MANY: usize = 64;

/// How deep the values of these pairs nest, where they make a document.
fn check_all(alloc: Global, pairs: &[Pair]) -> Result<u32, BuildFault>
    ensures ok { IfOk result (λ levels. HoldsDocument levels (pairs_of pairs.now)) }
    ensures fault { IfErr result (λ e. Refused (pairs_of pairs.now) e) }
{
    let mut names = Names::new(alloc);
    let mut levels = 0u32;
    'pairs: for pair in pairs {
        let name = pair.name.as_str();
        if first_zero(name.as_bytes()).is_some() {
            return Err(BuildFault::Name);
        }
        let value_levels = pair.value.levels();
        if MOST_LEVELS <= value_levels {
            if names.contains(name) {
                return Err(BuildFault::Repeated);
            }
            return Err(BuildFault::Deep);
        }
        if !names.insert(name)? {
            return Err(BuildFault::Repeated);
        }
        levels = levels.max(value_levels);
    }
    Ok(levels)
}

/// The place of a name among these pairs.
fn place_among(pairs: &[Pair], name: &str) -> Option<usize>
    ensures { result ≡ place (pairs_of pairs.now) name.now }
{
    'pairs: for (at, pair) in pairs.iter().enumerate() {
        if name == pair.name.as_str() {
            return Some(at);
        }
    }
    None
}

/// The value of a name among these pairs.
fn value_among<'a>(pairs: &'a [Pair], name: &str) -> Option<&'a Value>
    ensures { option_map (λ v. tree v.now) result ≡ lookup (pairs_of pairs.now) name.now }
{
    'pairs: for pair in pairs {
        if name == pair.name.as_str() {
            return Some(&pair.value);
        }
    }
    None
}

impl Document {
    /// The empty document. It takes no memory yet.
    pub fn new(alloc: Global) -> Document
        ensures { result ≡ no_pairs }
    {
        Document {
            pairs: Vec::new(alloc),
            beside: Beside::Plain {
                levels: 0,
                edits: 0,
            },
        }
    }

    /// How deep the document nests: 1 where it holds no document and no array.
    pub fn levels(&self) -> u32
        ensures levels { result ≡ pairs_levels self.now + 1 }
        ensures lawful { IsDocument self.now }
    {
        self.beside.levels() + 1
    }

    /// The names with their values, in order.
    pub fn pairs(&self) -> &[Pair]
        ensures pairs { pairs_of result.now ≡ self.now }
        ensures lawful { IsDocument self.now }
    {
        &self.pairs
    }

    /// How many pairs there are.
    pub fn len(&self) -> usize
        ensures { result ≡ pairs_len self.now }
    {
        self.pairs.len()
    }

    /// Whether there is no pair.
    pub fn is_empty(&self) -> bool
        ensures { result ≡ (pairs_len self.now == 0) }
    {
        self.pairs.is_empty()
    }

    /// The value of a name.
    pub fn get(&self, name: &str) -> Option<&Value>
        ensures { option_map (λ v. tree v.now) result ≡ lookup self.now name.now }
    {
        match &self.beside {
            Beside::Plain { .. } => value_among(&self.pairs, name),
            Beside::Many { .. } => match self.position(name) {
                Some(at) => Some(&self.pairs[at].value),
                None => None,
            },
        }
    }

    /// The place of a name. It takes time in proportion to the number of pairs, or to its logarithm where the
    /// document has many and was changed often.
    pub fn position(&self, name: &str) -> Option<usize>
        ensures { result ≡ place self.now name.now }
    {
        match &self.beside {
            Beside::Plain { .. } => place_among(&self.pairs, name),
            Beside::Many { overview, .. } => overview.place(name),
        }
    }

    /// The document of these pairs. It compares no names, so it takes time in proportion to their number.
    pub fn from_pairs(pairs: Vec<Pair>) -> Document
        requires { IsDocument (pairs_of pairs.items) }
        ensures { result ≡ pairs_of pairs.items }
    {
        let levels = deepest(&pairs);
        Document::from_counted(pairs, levels)
    }

    /// The document of these pairs, whose values nest as deep as is said: for who has counted it.
    pub fn from_counted(pairs: Vec<Pair>, levels: u32) -> Document
        requires { HoldsDocument levels (pairs_of pairs.items) }
        ensures { result ≡ pairs_of pairs.items }
    {
        Document {
            pairs,
            beside: Beside::Plain { levels, edits: 0 },
        }
    }

    /// The document of these pairs, where they make one: the way to build a document of many fields, since
    /// it takes about as many comparisons of names as their number times its logarithm. The fault is that
    /// of `push` at the first pair that cannot be added to those before it; the pairs are then let go.
    pub fn try_from_pairs(alloc: Global, pairs: Vec<Pair>) -> Result<Document, BuildFault>
        ensures ok { IfOk result (λ d. d ≡ pairs_of pairs.items) }
        ensures fault { IfErr result (λ e. Refused (pairs_of pairs.items) e) }
    {
        let levels = check_all(alloc, &pairs)?;
        Ok(Document::from_counted(pairs, levels))
    }

    /// Adds a pair at the end, in the time of `position`. An error leaves the document as it was; it is the
    /// first of these that fits: `Name` where the name has a zero byte, `Repeated` where it stands in the
    /// document, `Deep` where the value nests more than 99 levels, `Memory` where memory ran out.
    pub fn push(&mut self, name: &str, value: Value) -> Result<(), BuildFault>
        ensures ok { OnOk result
            (self.new ≡ append self.old (pair name.now (tree value) no_pairs)) }
        ensures err { OnErr result (self.new ≡ self.old) }
        ensures fault { IfErr result (λ e. PushFault self.old name.now (tree value) e) }
    {
        let _lawful = self.levels();
        if self.position(name).is_some() {
            return Err(BuildFault::Repeated);
        }
        self.add(name, value)
    }

    // Adds a pair under a new name at the end.
    fn add(&mut self, name: &str, value: Value) -> Result<(), BuildFault>
        requires { place self.old name.now ≡ None }
        ensures ok { OnOk result
            (self.new ≡ append self.old (pair name.now (tree value) no_pairs)) }
        ensures err { OnErr result (self.new ≡ self.old) }
        ensures fault { IfErr result (λ e. PushFault self.old name.now (tree value) e) }
    {
        if first_zero(name.as_bytes()).is_some() {
            return Err(BuildFault::Name);
        }
        let levels = value.levels();
        if MOST_LEVELS <= levels {
            return Err(BuildFault::Deep);
        }
        let alloc = *self.pairs.allocator();
        let text = Text::from_str(alloc, name)?;
        let at = self.pairs.len();
        self.pairs.push(Pair { name: text, value })?;
        let beside = self.beside.take();
        self.beside = beside.with_pair(alloc, name, at, levels);
        self.count_edit();
        Ok(())
    }

    // Counts an edit where there are many pairs.
    #[inline(always)]
    fn count_edit(&mut self)
        ensures { self.new ≡ self.old }
    {
        if self.pairs.len() < MANY {
            return;
        }
        self.count_edit_of_many();
    }

    // Counts an edit of many pairs, after enough of which they get an overview.
    #[inline(never)]
    fn count_edit_of_many(&mut self)
        ensures { self.new ≡ self.old }
    {
        let alloc = *self.pairs.allocator();
        let beside = self.beside.take();
        self.beside = beside.counted(alloc, &self.pairs);
    }

    /// Puts another value in the place of the one there, which is handed back. It needs no memory: `Deep`,
    /// where the value nests more than 99 levels, is its only error, and leaves the document as it was.
    pub fn replace_at(&mut self, at: usize, value: Value) -> Result<Value, BuildFault>
        requires { at < pairs_len self.old }
        ensures ok { OnOk result (self.new ≡ with_value self.old at (tree value)) }
        ensures old { IfOk result
            (λ v. option_map (λ p. p.1) (pair_at self.old at) ≡ Some (tree v)) }
        ensures err { OnErr result (self.new ≡ self.old) }
        ensures fault { IfErr result (λ e. ReplaceFault 99 (tree value) e) }
    {
        let new_levels = value.levels();
        if MOST_LEVELS <= new_levels {
            return Err(BuildFault::Deep);
        }
        let old = mem::replace(&mut self.pairs[at].value, value);
        let beside = self.beside.take();
        self.beside = beside.with_value(&self.pairs, old.levels(), new_levels);
        self.count_edit();
        Ok(old)
    }

    /// Takes out the pair at a place. Those behind it move up.
    pub fn remove_at(&mut self, at: usize) -> Pair
        requires { at < pairs_len self.old }
        ensures pair { pair_at self.old at ≡ Some (result.name, tree result.value) }
        ensures rest { self.new ≡ without_pair self.old at }
    {
        let pair = self.pairs.remove(at);
        let levels = deepest_after(self.beside.levels(), pair.value.levels(), 0, &self.pairs);
        self.beside = Beside::Plain { levels, edits: 0 };
        pair
    }

    /// Gives a name a value: in the name's place where it stands in the document, else at the end. An
    /// error, those of `push` but for `Repeated`, leaves the document as it was.
    pub fn set(&mut self, name: &str, value: Value) -> Result<(), BuildFault>
        ensures ok { OnOk result (self.new ≡ put self.old name.now (tree value)) }
        ensures err { OnErr result (self.new ≡ self.old) }
        ensures fault { IfErr result (λ e. SetFault self.old name.now (tree value) e) }
    {
        match self.position(name) {
            Some(at) => {
                let _ = self.replace_at(at, value)?;
                Ok(())
            }
            None => self.add(name, value),
        }
    }

    /// Takes out a name, and hands back its value.
    pub fn remove(&mut self, name: &str) -> Option<Value>
        ensures value { option_map tree result ≡ lookup self.old name.now }
        ensures rest { self.new ≡ cut self.old name.now }
    {
        match self.position(name) {
            Some(at) => {
                let Pair { name: _, value } = self.remove_at(at);
                Some(value)
            }
            None => None,
        }
    }
}

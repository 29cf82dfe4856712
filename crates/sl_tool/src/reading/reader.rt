//! Reads statements, one behind the other.
ghost use Rattle.std.specs.Prelude.{◌≡◌, ◌↔◌, Contains, IsTrue, IfOk};
ghost use Rattle.std.specs.List.{list_any};
ghost use Rattle.sl_syntax.specs.SubsetView.{is_vector};
ghost use Rattle.sl_tool.specs.Subset.{begin_item, dereference_item, push_back_item, vector_item};

use crate::reading::items::{
    BEGIN_TOKENS, DEREFERENCE_TOKENS, PUSH_BACK_TOKENS, VECTOR_TOKENS, begin_at, dereference_at,
    push_back_at, vector_at,
};
use crate::reading::names::{copy_of, number_of};
use crate::reading::tokens::place_in;
use sl_base::limits::{CONTAINERS, ITERATORS, SCALARS, SITES};
use sl_base::{Items, Name, Place, Site, Token};
use sl_syntax::subset::{Stmt, Text};
use std::alloc::{AllocError, Global};

/// What is read so far: the names of vectors, of iterators, of numbers, and of all of them, each in the order in which
/// they are declared, the statements, and the places of the calls of `push_back`.
#[derive(Drop)]
pub struct Reader {
    pub vectors: Items<Name>,
    pub iterators: Items<Name>,
    pub numbers: Items<Name>,
    pub names: Items<Name>,
    pub stmts: Items<Stmt>,
    pub sites: Items<Place>,
}

impl Reader {
    ghost use Rattle.sl_tool.specs.Means.Reading.{IsSmall, IsTaken, TakesItem, no_reader, scope_of, text_of};

    /// Nothing is read.
    pub fn new(alloc: Global) -> Reader
        ensures { result ≡ no_reader }
    {
        Reader {
            vectors: Items::new(alloc),
            iterators: Items::new(alloc),
            numbers: Items::new(alloc),
            names: Items::new(alloc),
            stmts: Items::new(alloc),
            sites: Items::new(alloc),
        }
    }

    /// Reads the statement whose tokens begin these, and says how many they are. None where no statement begins them
    /// that may stand here. Where memory runs out, the reader is of no more use.
    pub fn take_item(&mut self, tokens: &[Token]) -> Result<Option<usize>, AllocError>
        requires { IsSmall (scope_of self.old) }
        ensures { IfOk result (TakesItem self.old self.new tokens.now) }
    {
        if let Some(name) = vector_at(tokens) {
            return self.add_vector(tokens, name);
        }
        if let Some((vector, number)) = push_back_at(tokens) {
            return self.add_push_back(tokens, vector, number);
        }
        if let Some((name, vector)) = begin_at(tokens) {
            return self.add_begin(tokens, name, vector);
        }
        if let Some((name, iterator)) = dereference_at(tokens) {
            return self.add_dereference(tokens, name, iterator);
        }
        Ok(None)
    }

    /// The text that is read, which ends at this brace: a site, where it ends a vector.
    pub fn finish(self, close: Place) -> Result<Text, AllocError>
        ensures { IfOk result (λ p. p ≡ text_of self close) }
    {
        let Reader {
            stmts,
            mut sites,
            names,
            vectors: _,
            iterators: _,
            numbers: _,
        } = self;
        if has_vector(stmts.as_slice()) {
            sites.push(close)?;
        }
        Ok(Text {
            stmts,
            close,
            sites,
            names,
        })
    }

    // Adds `std::vector<int> name;`, where it may stand here.
    fn add_vector(&mut self, tokens: &[Token], name: &Name) -> Result<Option<usize>, AllocError>
        ensures { IfOk result (IsTaken self.old self.new tokens.now (vector_item name.now)) }
    {
        if self.is_known(name) || self.vectors.len() >= CONTAINERS {
            return Ok(None);
        }
        self.vectors.push(copy_of(name))?;
        self.names.push(copy_of(name))?;
        self.stmts.push(Stmt::Vector {
            place: place_in(tokens, 0),
            named: place_in(tokens, 4),
        })?;
        Ok(Some(VECTOR_TOKENS))
    }

    // Adds `vector.push_back(number);`, where it may stand here.
    fn add_push_back(
        &mut self,
        tokens: &[Token],
        vector: &Name,
        number: u32,
    ) -> Result<Option<usize>, AllocError>
        requires { IsSmall (scope_of self.old) }
        ensures { IfOk result (IsTaken self.old self.new tokens.now (push_back_item vector.now number)) }
    {
        let k = number_of(self.vectors.as_slice(), vector);
        let site = self.sites.len();
        if k == self.vectors.len() || site + 1 >= SITES {
            return Ok(None);
        }
        let place = place_in(tokens, 2);
        self.stmts.push(Stmt::PushBack {
            place,
            vector: k as u8,
            name: number_of(self.names.as_slice(), vector) as u16,
            site: Site::new(site as u16),
            number,
        })?;
        self.sites.push(place)?;
        Ok(Some(PUSH_BACK_TOKENS))
    }

    // Adds `auto name = vector.begin();`, where it may stand here.
    fn add_begin(
        &mut self,
        tokens: &[Token],
        name: &Name,
        vector: &Name,
    ) -> Result<Option<usize>, AllocError>
        requires { IsSmall (scope_of self.old) }
        ensures { IfOk result (IsTaken self.old self.new tokens.now (begin_item name.now vector.now)) }
    {
        let k = number_of(self.vectors.as_slice(), vector);
        if self.is_known(name) || k == self.vectors.len() || self.iterators.len() >= ITERATORS {
            return Ok(None);
        }
        self.stmts.push(Stmt::Begin {
            place: place_in(tokens, 5),
            vector: k as u8,
            name: number_of(self.names.as_slice(), vector) as u16,
            named: place_in(tokens, 1),
        })?;
        self.iterators.push(copy_of(name))?;
        self.names.push(copy_of(name))?;
        Ok(Some(BEGIN_TOKENS))
    }

    // Adds `int name = *iterator;`, where it may stand here.
    fn add_dereference(
        &mut self,
        tokens: &[Token],
        name: &Name,
        iterator: &Name,
    ) -> Result<Option<usize>, AllocError>
        requires { IsSmall (scope_of self.old) }
        ensures { IfOk result (IsTaken self.old self.new tokens.now (dereference_item name.now iterator.now)) }
    {
        let k = number_of(self.iterators.as_slice(), iterator);
        if self.is_known(name) || k == self.iterators.len() || self.numbers.len() >= SCALARS {
            return Ok(None);
        }
        self.stmts.push(Stmt::Dereference {
            place: place_in(tokens, 3),
            iterator: k as u8,
            name: number_of(self.names.as_slice(), iterator) as u16,
            named: place_in(tokens, 1),
        })?;
        self.numbers.push(copy_of(name))?;
        self.names.push(copy_of(name))?;
        Ok(Some(DEREFERENCE_TOKENS))
    }

    // Whether the name is declared.
    fn is_known(&self, name: &Name) -> bool
        ensures { IsTrue result ↔ Contains self.now.names name.now }
    {
        number_of(self.names.as_slice(), name) < self.names.len()
    }
}

// Whether one of the statements declares a vector.
fn has_vector(stmts: &[Stmt]) -> bool
    ensures { result ≡ list_any is_vector stmts.now }
{
    stmts.iter().any(|stmt| matches!(stmt, Stmt::Vector { .. }))
}

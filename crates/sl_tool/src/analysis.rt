//! The analysis of a text of the subset that is checked so far.
ghost use Rattle.std.specs.Prelude.{◌≡◌, ◌++◌, [], List, ℕ, length, take, drop, slice_set, slice_index_or, IfOk, OnOk};
ghost use Rattle.sl_tool.specs.Means.Analysis.{
  nothing_known,
  sites_on,
  fault_in,
  told_at,
  dereferenced,
  goes_on,
  warned,
  known_after,
  warnings_of,
};

use sl_base::{Items, Place, Site};
use sl_syntax::subset::Stmt;
use std::alloc::{AllocError, Global};

/// What may be wrong with an iterator that is dereferenced.
#[derive(Drop)]
pub enum Fault {
    /// A call at one of these sites may have invalidated it.
    InvalidIterator(Items<Site>),
    /// It stands at the end.
    EndIterator,
}

/// A warning at a `*`: its place, the number of the iterator's name, and the fault.
#[derive(Drop)]
pub struct Warning {
    pub place: Place,
    pub name: u16,
    pub fault: Fault,
}

/// Where an iterator stands, if it is valid: at the begin of a vector, which had elements when it was made, or hadn't.
/// It was valid behind the first `since` calls of `push_back`.
#[derive(Clone, Copy)]
pub struct Standing {
    pub vector: u8,
    pub at_element: bool,
    pub since: usize,
}

/// A call of `push_back`.
#[derive(Clone, Copy)]
pub struct Push {
    pub vector: u8,
    pub site: Site,
}

/// What is known before a statement, in the runs that come there: whether each vector has elements, where each iterator
/// stands, and the calls of `push_back` so far.
#[derive(Drop)]
struct Known {
    filled: Vec<bool>,
    iterators: Vec<Standing>,
    pushes: Vec<Push>,
}

/// Warns of each `*` in these statements of `main` that can fail in a run, up to the first that fails in every run.
pub fn warnings_in(alloc: Global, stmts: &[Stmt]) -> Result<Items<Warning>, AllocError>
    ensures { IfOk result (λ report. report ≡ warnings_of nothing_known stmts.now) }
{
    let mut known = Known::new(alloc);
    let mut report = Items::new(alloc);
    for stmt in stmts {
        known.warn(alloc, stmt, &mut report)?;
        if !known.goes_on(stmt) {
            return Ok(report);
        }
        known.walk(stmt)?;
    }
    Ok(report)
}

// The sites of the calls on a vector.
fn sites_of(alloc: Global, pushes: &[Push], vector: u8) -> Result<Items<Site>, AllocError>
    ensures { IfOk result (λ sites. sites ≡ sites_on vector pushes.now) }
{
    let mut sites = Items::new(alloc);
    for push in pushes {
        if push.vector == vector {
            sites.push(push.site)?;
        }
    }
    Ok(sites)
}

// The calls behind the first `since`.
fn behind(pushes: &[Push], since: usize) -> &[Push]
    ensures { result.now ≡ drop since pushes.now }
{
    &pushes[since.min(pushes.len())..]
}

// What may be wrong with an iterator that calls at these sites may have invalidated.
fn fault_in(killers: Items<Site>, at_element: bool) -> Option<Fault>
    ensures { result ≡ fault_in killers at_element }
{
    if killers.len() > 0 {
        return Some(Fault::InvalidIterator(killers));
    }
    if at_element {
        None
    } else {
        Some(Fault::EndIterator)
    }
}

// Warns of a fault, if there is one.
fn tell(
    report: &mut Items<Warning>,
    place: Place,
    name: u16,
    fault: Option<Fault>,
) -> Result<(), AllocError>
    ensures { OnOk result (report.new ≡ report.old ++ told_at place name fault) }
{
    match fault {
        Some(fault) => report.push(Warning { place, name, fault }),
        None => Ok(()),
    }
}

impl Known {
    ghost use Rattle.sl_tool.specs.Means.KnownView.{known_of};
    ghost use Rattle.sl_tool.specs.Means.Analysis.{
      standing_at,
      is_filled,
      with_vector,
      with_push,
      with_iterator,
      found_valid,
    };

    fn new(alloc: Global) -> Known
        ensures { known_of result ≡ nothing_known }
    {
        Known {
            filled: Vec::new(alloc),
            iterators: Vec::new(alloc),
            pushes: Vec::new(alloc),
        }
    }

    fn standing_at(&self, iterator: usize) -> Standing
        ensures { result ≡ standing_at (known_of self.now) iterator }
    {
        let nowhere = Standing {
            vector: 0,
            at_element: true,
            since: 0,
        };
        self.iterators.get(iterator).copied().unwrap_or(nowhere)
    }

    fn is_filled(&self, vector: usize) -> bool
        ensures { result ≡ is_filled (known_of self.now) vector }
    {
        self.filled.get(vector).copied().unwrap_or(false)
    }

    fn add_vector(&mut self) -> Result<(), AllocError>
        ensures { OnOk result (known_of self.new ≡ with_vector (known_of self.old)) }
    {
        self.filled.push(false)?;
        Ok(())
    }

    fn push_back(&mut self, vector: u8, site: Site) -> Result<(), AllocError>
        ensures { OnOk result (known_of self.new ≡ with_push (known_of self.old) vector site) }
    {
        self.pushes.push(Push { vector, site })?;
        if let Some(filled) = self.filled.get_mut(usize::from(vector)) {
            *filled = true;
        }
        Ok(())
    }

    fn begin(&mut self, vector: u8) -> Result<(), AllocError>
        ensures { OnOk result (known_of self.new ≡ with_iterator (known_of self.old) vector) }
    {
        let standing = Standing {
            vector,
            at_element: self.is_filled(usize::from(vector)),
            since: self.pushes.len(),
        };
        self.iterators.push(standing)?;
        Ok(())
    }

    // An iterator that was dereferenced is valid in the runs that go on.
    fn find_valid(&mut self, iterator: usize)
        ensures { known_of self.new ≡
            found_valid (known_of self.old) iterator (standing_at (known_of self.old) iterator) }
    {
        let there = self.standing_at(iterator);
        let valid = Standing {
            vector: there.vector,
            at_element: there.at_element,
            since: self.pushes.len(),
        };
        if let Some(standing) = self.iterators.get_mut(iterator) {
            *standing = valid;
        }
    }

    // Whether a run may go on behind a statement.
    fn goes_on(&self, stmt: &Stmt) -> bool
        ensures { result ≡ goes_on (known_of self.now) stmt.now }
    {
        match stmt {
            Stmt::Dereference { iterator, .. } => self
                .standing_at(usize::from(*iterator))
                .at_element,
            _ => true,
        }
    }

    // What a statement does to what is known.
    fn walk(&mut self, stmt: &Stmt) -> Result<(), AllocError>
        ensures { OnOk result (known_of self.new ≡ known_after (known_of self.old) stmt.now) }
    {
        match stmt {
            Stmt::Vector { .. } => self.add_vector(),
            Stmt::PushBack { vector, site, .. } => self.push_back(*vector, *site),
            Stmt::Begin { vector, .. } => self.begin(*vector),
            Stmt::Dereference { iterator, .. } => {
                self.find_valid(usize::from(*iterator));
                Ok(())
            }
        }
    }

    // Warns of what can fail in a statement.
    fn warn(
        &self,
        alloc: Global,
        stmt: &Stmt,
        report: &mut Items<Warning>,
    ) -> Result<(), AllocError>
        ensures { OnOk result (report.new ≡ report.old ++ warned (known_of self.now) stmt.now) }
    {
        match stmt {
            Stmt::Dereference {
                place,
                iterator,
                name,
                ..
            } => self.warn_at(alloc, *place, *name, usize::from(*iterator), report),
            _ => Ok(()),
        }
    }

    // Warns of what can fail in a `*`.
    fn warn_at(
        &self,
        alloc: Global,
        place: Place,
        name: u16,
        iterator: usize,
        report: &mut Items<Warning>,
    ) -> Result<(), AllocError>
        ensures { OnOk result (report.new ≡
            report.old ++ dereferenced (known_of self.now) place name (standing_at (known_of self.now) iterator)) }
    {
        let standing = self.standing_at(iterator);
        let killers = sites_of(alloc, behind(&self.pushes, standing.since), standing.vector)?;
        tell(report, place, name, fault_in(killers, standing.at_element))
    }
}

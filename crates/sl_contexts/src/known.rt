use crate::names::{copy_of, number_among};
use crate::outside::Outside;
use crate::own_variable::{DeclaredVariable, typed_variables};
use crate::parameters::head_of;
use crate::variables::{bring_in, same_variables, variable_kind};
use sl_base::{Items, Name, Place};
use sl_scopes::parameters::result_kind;
use sl_syntax::typed::Variable;
use sl_syntax::{Function, Identifier};
use sl_typing::{ExprType, Scope, is_const};
use std::alloc::{AllocError, Global};
use std::marker::Model;

/// What is known at a place of a text: what names mean there, and what stands before it. A contract sees the context of the place.
#[derive(Drop)]
pub struct Known {
    scope: Scope,
    sites: Items<Place>,
    loops: Items<Place>,
    statements: usize,
    names: Items<Name>,
    variables: Items<DeclaredVariable>,
}

impl Model for Known {
    ghost use Rattle.sl_typing.specs.Contexts.{Context};
    ghost use Rattle.sl_contexts.specs.VariableView.{variables_seen};

    ghost Value = { Context };

    ghost view = { λ k. record {
      scope = k.scope;
      sites = k.sites;
      loops = k.loops;
      statements = k.statements;
      names = k.names;
      variables = variables_seen k.variables;
    } };
}

impl Known {
    ghost use Rattle.std.specs.Prelude.{◌≡◌, [], ◌∷◌, ◌^◌, ◌<◌, length, All, IfOk, OnErr, OnOk};
    ghost use Rattle.sl_syntax.specs.TreeView.{function_of};
    ghost use Rattle.sl_typing.specs.Contexts as contexts;
    ghost use Rattle.sl_typing.specs.Flow as flow;
    ghost use Rattle.sl_typing.specs.ProgramFaults as programs;
    ghost use Rattle.sl_contexts.specs.Scoping.{outside_of};

    /// What is known at the start of a text. It takes no memory.
    pub fn new(alloc: Global) -> Known
        ensures { result ≡ programs.start }
    {
        Known {
            scope: Scope {
                variables: Items::new(alloc),
                outer: 0,
                functions: Items::new(alloc),
                result: None,
                in_loop: false,
            },
            sites: Items::new(alloc),
            loops: Items::new(alloc),
            statements: 0,
            names: Items::new(alloc),
            variables: Items::new(alloc),
        }
    }

    /// What names mean here.
    pub fn scope(&self) -> &Scope
        ensures { result.now ≡ self.now.scope }
    {
        &self.scope
    }

    /// The number of sites before this place.
    pub fn sites(&self) -> usize
        ensures { result ≡ length self.now.sites }
    {
        self.sites.len()
    }

    /// The number of loops that began before this place.
    pub fn loops(&self) -> usize
        ensures { result ≡ length self.now.loops }
    {
        self.loops.len()
    }

    /// The number of statements that began before this place.
    pub fn statements(&self) -> usize
        ensures { result ≡ self.now.statements }
    {
        self.statements
    }

    /// Declares a variable of this type. Where memory runs out, what is known is no longer that of a place, and is to be let go.
    pub fn declare(
        &mut self,
        declared: &Identifier,
        variable_type: ExprType,
    ) -> Result<(), AllocError>
        ensures { OnOk result (self.new ≡ contexts.declare declared.now variable_type self.old) }
    {
        let label = number_among(&mut self.names, &declared.name)?;
        let name = copy_of(&declared.name);
        bring_in(&mut self.scope, Some(name), label, variable_type)?;
        self.variables.push(DeclaredVariable {
            kind: variable_kind(variable_type),
            name: label,
            place: declared.place,
        })?;
        Ok(())
    }

    /// Brings the two hidden iterators of a range-for over what is of this type into scope, where that is a container. Where memory runs out, what is
    /// known is no longer that of a place, and is to be let go.
    pub fn with_hidden(&mut self, over: ExprType) -> Result<(), AllocError>
        ensures { OnOk result (self.new ≡ contexts.with_hidden over self.old) }
    {
        match over {
            ExprType::Container(access, form) => {
                let hidden = ExprType::Iterator(is_const(access), form);
                bring_in(&mut self.scope, None, 0, hidden)?;
                bring_in(&mut self.scope, None, 0, hidden)?;
                Ok(())
            }
            _ => Ok(()),
        }
    }

    /// Begins a scope; what it gives back is what stands around the scope, for `leave`. Where memory runs out, nothing changes.
    pub fn enter(&mut self, alloc: Global) -> Result<Outside, AllocError>
        ensures entered { OnOk result (self.new ≡ contexts.enter self.old) }
        ensures outside { IfOk result (λ outside. outside ≡ outside_of self.old.scope) }
        ensures kept { OnErr result (self.new ≡ self.old) }
    {
        let variables = same_variables(alloc, self.scope.variables.as_slice())?;
        let outside = Outside {
            variables,
            outer: self.scope.outer,
            in_loop: self.scope.in_loop,
        };
        self.scope.outer = self.scope.variables.len();
        Ok(outside)
    }

    /// Ends the scope around which this stands: what was declared in it goes, and what stood in it stays counted. It takes no memory.
    pub fn leave(&mut self, outside: Outside)
        ensures { (g : contexts.Context) → outside ≡ outside_of g.scope → g.scope.functions ≡ self.old.scope.functions →
            g.scope.result ≡ self.old.scope.result → self.new ≡ contexts.leave g self.old }
    {
        self.scope.variables = outside.variables;
        self.scope.outer = outside.outer;
        self.scope.in_loop = outside.in_loop;
    }

    /// Begins a loop's body; what it gives back is whether that stands in another loop, for `leave_loop`. It takes no memory.
    pub fn looping(&mut self) -> bool
        ensures looping { self.new ≡ contexts.looping self.old }
        ensures before { result ≡ self.old.scope.in_loop }
    {
        let before = self.scope.in_loop;
        self.scope.in_loop = true;
        before
    }

    /// Ends a loop's body that began no scope. It takes no memory.
    pub fn leave_loop(&mut self, in_loop: bool)
        ensures { (g : contexts.Context) → self.old.scope ≡ record g.scope { in_loop = self.old.scope.in_loop } → in_loop ≡ g.scope.in_loop →
            self.new ≡ contexts.leave g self.old }
    {
        self.scope.in_loop = in_loop;
    }

    /// Begins a statement. It fails where more statements began than a number of 64 bits counts, which no memory holds.
    pub fn started(&mut self) -> Result<(), AllocError>
        ensures started { OnOk result (self.new ≡ contexts.started self.old) }
        ensures kept { OnErr result (self.new ≡ self.old) }
    {
        match self.statements.checked_add(1) {
            None => Err(AllocError),
            Some(statements) => {
                self.statements = statements;
                Ok(())
            }
        }
    }

    /// Begins a loop whose word stands here. Where memory runs out, the statement has begun and the loop hasn't.
    pub fn started_loop(&mut self, at: Place) -> Result<(), AllocError>
        ensures { OnOk result (self.new ≡ contexts.started_loop at self.old) }
    {
        self.started()?;
        self.loops.push(at)?;
        Ok(())
    }

    /// Counts a site that stands here. Where memory runs out, nothing changes.
    pub fn with_site(&mut self, at: Place) -> Result<(), AllocError>
        ensures counted { OnOk result (self.new ≡ contexts.with_sites (at ∷ []) self.old) }
        ensures kept { OnErr result (self.new ≡ self.old) }
    {
        self.sites.push(at)?;
        Ok(())
    }

    /// Counts the sites that stand here. Where memory runs out, nothing changes.
    pub fn with_sites(&mut self, places: &[Place]) -> Result<(), AllocError>
        ensures counted { OnOk result (self.new ≡ contexts.with_sites places.now self.old) }
        ensures kept { OnErr result (self.new ≡ self.old) }
    {
        self.sites.extend_from_slice(places)?;
        Ok(())
    }

    /// Comes before the parameters of the next function, which is known itself there. Where memory runs out, what is known is no longer that of a place,
    /// and is to be let go.
    pub fn before_parameters(
        &mut self,
        alloc: Global,
        function: &Function,
    ) -> Result<(), AllocError>
        ensures { OnOk result (self.new ≡ flow.before_parameters self.old (function_of function.now)) }
    {
        let head = head_of(alloc, self.scope.functions.len(), function)?;
        self.scope.functions.push(head)?;
        self.scope.variables = Items::new(alloc);
        self.scope.outer = 0;
        self.scope.result = result_kind(&function.result);
        self.scope.in_loop = false;
        self.variables = Items::new(alloc);
        Ok(())
    }

    /// The variables that the present function declares before this place, whose names' numbers are known to fit.
    pub fn variables(&self, alloc: Global) -> Result<Items<Variable>, AllocError>
        requires { All (λ v. v.name < 2 ^ 16) self.now.variables }
        ensures { IfOk result (λ variables. variables ≡ self.now.variables) }
    {
        typed_variables(alloc, self.variables.as_slice())
    }

    /// The places of the sites and of the loops, and the names. It takes no memory.
    pub fn into_parts(self) -> (Items<Place>, Items<Place>, Items<Name>)
        ensures sites { result.0 ≡ self.sites }
        ensures loops { result.1 ≡ self.loops }
        ensures names { result.2 ≡ self.names }
    {
        (self.sites, self.loops, self.names)
    }
}

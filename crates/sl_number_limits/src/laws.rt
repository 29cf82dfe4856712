//! Numbers that fit.
ghost use Rattle.std.specs.Prelude.{◌≡◌, ◌<◌, ◌≤◌, All, [], length};
ghost use Rattle.sl_base.specs.declared.limits.TheConstants.{FUNCTIONS, SITES, STATEMENTS};
ghost use Rattle.sl_syntax.specs.Tree.{Expr, Function, Items, Program, Stmt};
ghost use Rattle.sl_syntax.specs.Typed as texts;
ghost use Rattle.sl_typing.specs.Contexts.{Context};
ghost use Rattle.sl_typing.specs.Flow.{after, after_function, after_functions, after_items, at_brace, in_function};
ghost use Rattle.sl_typing.specs.ProgramFaults.{function_faults, program_faults, start};
ghost use Rattle.sl_typing.specs.Sites.{behind};
ghost use Rattle.sl_typing.specs.StatementFaults.{expr_faults, items_faults, stmt_faults};
ghost use Rattle.sl_typing.specs.Typing.{Typed};
ghost use Rattle.sl_number_limits.specs.Fits.{Fits, FitsTypedFunction, most_names};

/// A typed text has at most 64 functions, of which `main` is one, 4,096 sites, 20,000 loops and 20,512 names, so 16 bits hold each number.
/// Each function has at most 8 parameters and 20,512 variables, whose names are among those of the text.
pub fn typed_programs_fit()
    ensures functions { (p : Program) (u : texts.Typed) → Typed p u → length u.functions ≤ FUNCTIONS }
    ensures main { (p : Program) (u : texts.Typed) → Typed p u → u.main < length u.functions }
    ensures sites { (p : Program) (u : texts.Typed) → Typed p u → length u.sites ≤ SITES }
    ensures loops { (p : Program) (u : texts.Typed) → Typed p u → length u.loops ≤ STATEMENTS }
    ensures names { (p : Program) (u : texts.Typed) → Typed p u → length u.names ≤ most_names }
    ensures each { (p : Program) (u : texts.Typed) → Typed p u → All (FitsTypedFunction (length u.names)) u.functions }
    ensures narrow { most_names < 65536 }
{}

/// Where all is within the limits, it is so behind each part that breaks no rule: an expression, a statement, items, a function. A text
/// starts so, and ends so if it breaks no rule.
pub fn places_fit()
    ensures starts { Fits start }
    ensures expression { (g : Context) (e : Expr) → Fits g → expr_faults g e ≡ [] → Fits (behind g e) }
    ensures statement { (g : Context) (a : Stmt) → Fits g → stmt_faults g a ≡ [] → Fits (after g a) }
    ensures items { (g : Context) (xs : Items) → Fits g → items_faults g xs ≡ [] → Fits (after_items g xs) }
    ensures body { (g : Context) (f : Function) → Fits g → function_faults g f ≡ [] → Fits (in_function g f) }
    ensures brace { (g : Context) (f : Function) → Fits g → function_faults g f ≡ [] → Fits (at_brace g f) }
    ensures function { (g : Context) (f : Function) → Fits g → function_faults g f ≡ [] → Fits (after_function g f) }
    ensures ends { (p : Program) → program_faults p ≡ [] → Fits (after_functions start p) }
{}

//! Laws of the grammar that a reviewer would ask for.
ghost use Rattle.std.specs.Prelude.{◌≡◌, List};
ghost use Rattle.sl_base.specs.declared.token.Token.{Token};
ghost use Rattle.sl_syntax.specs.Blank.{blank};
ghost use Rattle.sl_syntax.specs.Placed.{Placed};
ghost use Rattle.sl_syntax.specs.Shaped.{Shaped};
ghost use Rattle.sl_syntax.specs.Tree.{Program};
ghost use Rattle.sl_syntax.specs.Written.{words};

/// Tokens write one program alone.
pub fn one_program()
    ensures { (tokens : List Token) (p q : Program) → Shaped p → Shaped q → Placed p tokens → Placed q tokens → p ≡ q }
{}

/// Programs of the same words are the same but for their places.
pub fn one_shape()
    ensures { (p q : Program) → Shaped p → Shaped q → words p ≡ words q → blank p ≡ blank q }
{}

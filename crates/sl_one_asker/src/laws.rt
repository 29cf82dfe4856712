//! One asker at a place, small literals, and what the tokens of a text give for both.
ghost use Rattle.std.specs.Prelude.{◌≡◌, true, ℕ, List};
ghost use Rattle.sl_base.specs.Tokens.{Tokens, TokensAscend};
ghost use Rattle.sl_base.specs.declared.token.Token.{Token as TokenValue};
ghost use Rattle.sl_model.specs.Typing.WellTyped.{has_one_asker};
ghost use Rattle.sl_one_asker.specs.OwnPlaces.{HaveOwnPlaces};
ghost use Rattle.sl_one_asker.specs.SmallNumbers.{HaveSmallNumbers};
ghost use Rattle.sl_syntax.specs.Placed.{Placed};
ghost use Rattle.sl_syntax.specs.Tree.{Program};
ghost use Rattle.sl_syntax.specs.Typed as texts;
ghost use Rattle.sl_typing.specs.Typing.{Typed};
ghost use Rattle.sl_well_typed.specs.Small.{has_small_literals};

/// In the typed text of a program that is placed by tokens of which no two stand at one place, nodes with needs that
/// stand at one place are calls of one name, with the same names of arguments. This is one of the eleven parts of
/// `WellTyped`.
pub fn one_asker()
    ensures { (p : Program) (u : texts.Typed) (tokens : List TokenValue) →
        Placed p tokens → HaveOwnPlaces tokens → Typed p u → has_one_asker u ≡ true }
{}

/// No two stand at one place of tokens that come in the order of their places, as those of a text do.
pub fn own_places()
    ensures { (tokens : List TokenValue) → TokensAscend tokens → HaveOwnPlaces tokens }
{}

/// No literal is greater than a token may be in a program that is placed by tokens of which no number is.
pub fn small_literals()
    ensures { (p : Program) (tokens : List TokenValue) →
        Placed p tokens → HaveSmallNumbers tokens → has_small_literals p ≡ true }
{}

/// No number among the tokens of a text is greater than a token may be.
pub fn small_numbers()
    ensures { (text : List ℕ) (tokens : List TokenValue) → Tokens text tokens → HaveSmallNumbers tokens }
{}

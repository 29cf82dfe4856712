//! The rules of typing, by the numbers in whose order they are tried at one node of a program.
ghost use Rattle.std.specs.Prelude.{◌≡◌};
ghost use Rattle.sl_typing.specs.declared.rules.TheConstants.{
  UNKNOWN_NAME,
  DECLARED_TWICE,
  NO_SUCH_CALL,
  WRONG_TYPE,
  WRITE_TO_CONST,
  ALIAS,
  ORDER_OF_EFFECTS,
  OUTSIDE_A_LOOP,
  NO_MAIN,
  LIBRARY_NAME,
  WRONG_RETURN,
  WEAKER_ITERATOR,
  APPENDER,
  AUTO,
  TOO_MANY_FUNCTIONS,
  TOO_MANY_VARIABLES,
  TOO_MANY_SITES,
  TOO_MANY_PARAMETERS,
  TOO_MANY_ELEMENTS,
  TOO_MANY_STATEMENTS,
};

/// A variable or a function that isn't declared.
pub const UNKNOWN_NAME: u8 = 1;

/// A name that is declared twice in one scope.
pub const DECLARED_TWICE: u8 = 2;

/// A call that isn't there, or not with so many arguments.
pub const NO_SUCH_CALL: u8 = 3;

/// A part whose type doesn't fit.
pub const WRONG_TYPE: u8 = 4;

/// A write to what is const.
pub const WRITE_TO_CONST: u8 = 5;

/// One variable that is bound to two references of a call.
pub const ALIAS: u8 = 6;

/// Effects whose order is open and could matter.
pub const ORDER_OF_EFFECTS: u8 = 7;

/// A `break` or `continue` that no loop holds.
pub const OUTSIDE_A_LOOP: u8 = 8;

/// A text without `int main()`, or with another one, or one that calls it.
pub const NO_MAIN: u8 = 9;

/// A function with a name of the library.
pub const LIBRARY_NAME: u8 = 10;

/// A `return` with a value where none is due, or without one where one is.
pub const WRONG_RETURN: u8 = 11;

/// An iterator that can't do what is asked of it.
pub const WEAKER_ITERATOR: u8 = 12;

/// A `std::back_inserter` that isn't an output.
pub const APPENDER: u8 = 13;

/// `auto` of what is neither a number nor an iterator.
pub const AUTO: u8 = 14;

/// A function past the limit.
pub const TOO_MANY_FUNCTIONS: u8 = 15;

/// A variable past the limit of those in scope.
pub const TOO_MANY_VARIABLES: u8 = 16;

/// A place past the limit of those that can invalidate.
pub const TOO_MANY_SITES: u8 = 17;

/// A parameter past the limit.
pub const TOO_MANY_PARAMETERS: u8 = 18;

/// An element in braces past the limit.
pub const TOO_MANY_ELEMENTS: u8 = 19;

/// A statement past the limit.
pub const TOO_MANY_STATEMENTS: u8 = 20;

/// The number of each rule.
pub fn the_rules()
    ensures unknown_name { UNKNOWN_NAME ≡ 1 }
    ensures declared_twice { DECLARED_TWICE ≡ 2 }
    ensures no_such_call { NO_SUCH_CALL ≡ 3 }
    ensures wrong_type { WRONG_TYPE ≡ 4 }
    ensures write_to_const { WRITE_TO_CONST ≡ 5 }
    ensures alias { ALIAS ≡ 6 }
    ensures order_of_effects { ORDER_OF_EFFECTS ≡ 7 }
    ensures outside_a_loop { OUTSIDE_A_LOOP ≡ 8 }
    ensures no_main { NO_MAIN ≡ 9 }
    ensures library_name { LIBRARY_NAME ≡ 10 }
    ensures wrong_return { WRONG_RETURN ≡ 11 }
    ensures weaker_iterator { WEAKER_ITERATOR ≡ 12 }
    ensures appender { APPENDER ≡ 13 }
    ensures auto { AUTO ≡ 14 }
    ensures too_many_functions { TOO_MANY_FUNCTIONS ≡ 15 }
    ensures too_many_variables { TOO_MANY_VARIABLES ≡ 16 }
    ensures too_many_sites { TOO_MANY_SITES ≡ 17 }
    ensures too_many_parameters { TOO_MANY_PARAMETERS ≡ 18 }
    ensures too_many_elements { TOO_MANY_ELEMENTS ≡ 19 }
    ensures too_many_statements { TOO_MANY_STATEMENTS ≡ 20 }
{}

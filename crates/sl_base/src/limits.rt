//! The limits on a text and on a run. What goes past one is refused, or ends the run, as its user says.
ghost use Rattle.std.specs.Prelude.{◌≡◌};
ghost use Rattle.sl_base.specs.declared.limits.TheConstants.{
  TEXT_BYTES,
  NAME_BYTES,
  LARGEST_NUMBER,
  TREE_DEPTH,
  FUNCTIONS,
  CONTAINERS,
  ITERATORS,
  SCALARS,
  SITES,
  PARAMETERS,
  LIST_ELEMENTS,
  STATEMENTS,
  WINDOW,
  ELEMENTS,
  CALLS,
  OUTPUT_BYTES,
};

/// Bytes of a text.
pub const TEXT_BYTES: usize = 1_048_576;

/// Bytes of a name.
pub const NAME_BYTES: usize = 64;

/// The largest number that a text may hold: that of an `int` of 32 bits.
pub const LARGEST_NUMBER: u32 = 2_147_483_647;

/// The depth of a tree.
pub const TREE_DEPTH: usize = 64;

/// Functions of a text.
pub const FUNCTIONS: usize = 64;

/// Containers in scope at one place.
pub const CONTAINERS: usize = 16;

/// Iterators in scope at one place.
pub const ITERATORS: usize = 32;

/// Numbers in scope at one place.
pub const SCALARS: usize = 48;

/// Sites of a text: what can invalidate an iterator.
pub const SITES: usize = 4_096;

/// Parameters of a function.
pub const PARAMETERS: usize = 8;

/// Elements of an initialiser list.
pub const LIST_ELEMENTS: usize = 64;

/// Statements of a text.
pub const STATEMENTS: usize = 20_000;

/// Elements of a container that the checker knows one by one.
pub const WINDOW: usize = 64;

/// Elements of a container in a run.
pub const ELEMENTS: usize = 1_000_000;

/// Calls in progress in a run.
pub const CALLS: usize = 256;

/// Bytes of a run's output that are kept.
pub const OUTPUT_BYTES: usize = 65_536;

/// What the limits are.
pub fn the_limits()
    ensures text { TEXT_BYTES ≡ 1048576 }
    ensures name { NAME_BYTES ≡ 64 }
    ensures number { LARGEST_NUMBER ≡ 2147483647 }
    ensures depth { TREE_DEPTH ≡ 64 }
    ensures functions { FUNCTIONS ≡ 64 }
    ensures containers { CONTAINERS ≡ 16 }
    ensures iterators { ITERATORS ≡ 32 }
    ensures scalars { SCALARS ≡ 48 }
    ensures sites { SITES ≡ 4096 }
    ensures parameters { PARAMETERS ≡ 8 }
    ensures list { LIST_ELEMENTS ≡ 64 }
    ensures statements { STATEMENTS ≡ 20000 }
    ensures window { WINDOW ≡ 64 }
    ensures elements { ELEMENTS ≡ 1000000 }
    ensures calls { CALLS ≡ 256 }
    ensures output { OUTPUT_BYTES ≡ 65536 }
{}

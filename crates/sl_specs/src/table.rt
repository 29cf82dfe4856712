//! The table of the library's calls.
//!
//! Restates ISO/IEC 14882:2017, [container.requirements], [sequence.reqmts], [associative.reqmts], [unord.req],
//! [containers] for each form, [algorithms], [numeric.ops], [iterator.operations] and [back.inserter].

ghost use Rattle.std.specs.Prelude.{◌≡◌, map, length, IsTrue};
ghost use Rattle.std.specs.List.{list_all};
ghost use Rattle.sl_specs.specs.Table.{table, lib_rows};
ghost use Rattle.sl_specs.specs.Entries.{entry_row, entries_from, has_few_needs};

use crate::call::Call;
use crate::class::Class;
use crate::entry::{Entry, Signature};
use crate::letter::Letter;
use crate::need::Need;
use crate::return_type::ReturnType;
use sl_base::{Form, Scalar};

macro_rules! form {
    (std) => {
        None
    };
    ($form:ident) => {
        Some(Form::$form)
    };
}

macro_rules! gives {
    (Number $scalar:ident) => {
        ReturnType::Number(Scalar::$scalar)
    };
    ($gives:ident) => {
        ReturnType::$gives
    };
}

macro_rules! changes {
    (changes) => {
        true
    };
    (keeps) => {
        false
    };
}

/// An entry a line: the form, the call, the place of its arguments among those of this call of this form, the arguments,
/// what it gives, whether it changes its object, what it needs and invalidates.
macro_rules! entries {
    ($($form:ident $call:ident $shape:literal ($($letter:ident),*) -> $gives:ident $(($scalar:ident))?, $changes:ident;
        needs ($($need:ident),*); kills $kills:ident,)*) => {
        [$(Entry {
            form: form!($form),
            call: Call::$call,
            shape: $shape,
            signature: Signature {
                letters: &[$(Letter::$letter),*],
                gives: gives!($gives $($scalar)?),
                changes: changes!($changes),
            },
            needs: &[$(Need::$need),*],
            kills: Class::$kills,
        }),*]
    };
}

// The table.
static TABLE: [Entry; 231] = entries! {
    // `std::vector`
    Vector Constructor 0 () -> Nothing, keeps; needs (); kills Nothing,
    Vector Constructor 1 (InitializerList) -> Nothing, keeps; needs (); kills Nothing,
    Vector Constructor 2 (Container) -> Nothing, keeps; needs (); kills Nothing,
    Vector Constructor 3 (Count) -> Nothing, keeps; needs (); kills Nothing,
    Vector Constructor 4 (Count, Element) -> Nothing, keeps; needs (); kills Nothing,
    Vector Constructor 5 (IntRange) -> Nothing, keeps; needs (OneRange); kills Nothing,
    Vector Assignment 0 (Container) -> Nothing, changes; needs (); kills AllAndEnd,
    Vector Begin 0 () -> Iterator, keeps; needs (); kills Nothing,
    Vector End 0 () -> Iterator, keeps; needs (); kills Nothing,
    Vector Size 0 () -> Number(Size), keeps; needs (); kills Nothing,
    Vector Empty 0 () -> Number(Bool), keeps; needs (); kills Nothing,
    Vector Front 0 () -> Element, keeps; needs (NotEmpty); kills Nothing,
    Vector Back 0 () -> Element, keeps; needs (NotEmpty); kills Nothing,
    Vector At 0 (Count) -> Element, keeps; needs (); kills Nothing,
    Vector Subscript 0 (Count) -> Element, keeps; needs (IndexInSize); kills Nothing,
    Vector PushBack 0 (Element) -> Nothing, changes; needs (); kills VectorInsert,
    Vector PopBack 0 () -> Nothing, changes; needs (NotEmpty); kills VectorErase,
    Vector Insert 0 (Position, Element) -> Iterator, changes; needs (PositionInObject); kills VectorInsert,
    Vector Insert 1 (Position, Count, Element) -> Iterator, changes; needs (PositionInObject); kills VectorInsert,
    Vector Insert 2 (Position, IntRange) -> Iterator, changes;
        needs (PositionInObject, ForeignRange); kills VectorInsert,
    Vector Erase 0 (Position) -> Iterator, changes; needs (ErasablePosition); kills VectorErase,
    Vector Erase 1 (OwnRange) -> Iterator, changes; needs (RangeInObject); kills VectorErase,
    Vector Clear 0 () -> Nothing, changes; needs (); kills AllAndEnd,
    Vector Resize 0 (Count) -> Nothing, changes; needs (); kills VectorResize,
    Vector Resize 1 (Count, Element) -> Nothing, changes; needs (); kills VectorResize,
    Vector Assign 0 (Count, Element) -> Nothing, changes; needs (); kills AllAndEnd,
    Vector Reserve 0 (Count) -> Nothing, changes; needs (); kills VectorReserve,
    Vector Swap 0 (ChangedContainer) -> Nothing, changes; needs (); kills Swap,
    // `std::deque`
    Deque Constructor 0 () -> Nothing, keeps; needs (); kills Nothing,
    Deque Constructor 1 (InitializerList) -> Nothing, keeps; needs (); kills Nothing,
    Deque Constructor 2 (Container) -> Nothing, keeps; needs (); kills Nothing,
    Deque Constructor 3 (Count) -> Nothing, keeps; needs (); kills Nothing,
    Deque Constructor 4 (Count, Element) -> Nothing, keeps; needs (); kills Nothing,
    Deque Constructor 5 (IntRange) -> Nothing, keeps; needs (OneRange); kills Nothing,
    Deque Assignment 0 (Container) -> Nothing, changes; needs (); kills AllAndEnd,
    Deque Begin 0 () -> Iterator, keeps; needs (); kills Nothing,
    Deque End 0 () -> Iterator, keeps; needs (); kills Nothing,
    Deque Size 0 () -> Number(Size), keeps; needs (); kills Nothing,
    Deque Empty 0 () -> Number(Bool), keeps; needs (); kills Nothing,
    Deque Front 0 () -> Element, keeps; needs (NotEmpty); kills Nothing,
    Deque Back 0 () -> Element, keeps; needs (NotEmpty); kills Nothing,
    Deque At 0 (Count) -> Element, keeps; needs (); kills Nothing,
    Deque Subscript 0 (Count) -> Element, keeps; needs (IndexInSize); kills Nothing,
    Deque PushBack 0 (Element) -> Nothing, changes; needs (); kills DequeInsert,
    Deque PushFront 0 (Element) -> Nothing, changes; needs (); kills DequeInsert,
    Deque PopBack 0 () -> Nothing, changes; needs (NotEmpty); kills DequeErase,
    Deque PopFront 0 () -> Nothing, changes; needs (NotEmpty); kills DequeErase,
    Deque Insert 0 (Position, Element) -> Iterator, changes; needs (PositionInObject); kills DequeInsert,
    Deque Insert 1 (Position, Count, Element) -> Iterator, changes; needs (PositionInObject); kills DequeInsert,
    Deque Insert 2 (Position, IntRange) -> Iterator, changes; needs (PositionInObject, ForeignRange); kills DequeInsert,
    Deque Erase 0 (Position) -> Iterator, changes; needs (ErasablePosition); kills DequeErase,
    Deque Erase 1 (OwnRange) -> Iterator, changes; needs (RangeInObject); kills DequeErase,
    Deque Clear 0 () -> Nothing, changes; needs (); kills AllAndEnd,
    Deque Resize 0 (Count) -> Nothing, changes; needs (); kills DequeResize,
    Deque Resize 1 (Count, Element) -> Nothing, changes; needs (); kills DequeResize,
    Deque Assign 0 (Count, Element) -> Nothing, changes; needs (); kills AllAndEnd,
    Deque Swap 0 (ChangedContainer) -> Nothing, changes; needs (); kills Swap,
    // `std::list`
    List Constructor 0 () -> Nothing, keeps; needs (); kills Nothing,
    List Constructor 1 (InitializerList) -> Nothing, keeps; needs (); kills Nothing,
    List Constructor 2 (Container) -> Nothing, keeps; needs (); kills Nothing,
    List Constructor 3 (Count) -> Nothing, keeps; needs (); kills Nothing,
    List Constructor 4 (Count, Element) -> Nothing, keeps; needs (); kills Nothing,
    List Constructor 5 (IntRange) -> Nothing, keeps; needs (OneRange); kills Nothing,
    List Assignment 0 (Container) -> Nothing, changes; needs (); kills AllAndEnd,
    List Begin 0 () -> Iterator, keeps; needs (); kills Nothing,
    List End 0 () -> Iterator, keeps; needs (); kills Nothing,
    List Size 0 () -> Number(Size), keeps; needs (); kills Nothing,
    List Empty 0 () -> Number(Bool), keeps; needs (); kills Nothing,
    List Front 0 () -> Element, keeps; needs (NotEmpty); kills Nothing,
    List Back 0 () -> Element, keeps; needs (NotEmpty); kills Nothing,
    List PushBack 0 (Element) -> Nothing, changes; needs (); kills Nothing,
    List PushFront 0 (Element) -> Nothing, changes; needs (); kills Nothing,
    List PopBack 0 () -> Nothing, changes; needs (NotEmpty); kills ErasedOnly,
    List PopFront 0 () -> Nothing, changes; needs (NotEmpty); kills ErasedOnly,
    List Insert 0 (Position, Element) -> Iterator, changes; needs (PositionInObject); kills Nothing,
    List Insert 1 (Position, Count, Element) -> Iterator, changes; needs (PositionInObject); kills Nothing,
    List Insert 2 (Position, IntRange) -> Iterator, changes; needs (PositionInObject, ForeignRange); kills Nothing,
    List Erase 0 (Position) -> Iterator, changes; needs (ErasablePosition); kills ErasedOnly,
    List Erase 1 (OwnRange) -> Iterator, changes; needs (RangeInObject); kills ErasedOnly,
    List Clear 0 () -> Nothing, changes; needs (); kills ErasedOnly,
    List Resize 0 (Count) -> Nothing, changes; needs (); kills ErasedOnly,
    List Resize 1 (Count, Element) -> Nothing, changes; needs (); kills ErasedOnly,
    List Assign 0 (Count, Element) -> Nothing, changes; needs (); kills AllAndEnd,
    List Swap 0 (ChangedContainer) -> Nothing, changes; needs (); kills Swap,
    List Sort 0 () -> Nothing, changes; needs (); kills Nothing,
    List Reverse 0 () -> Nothing, changes; needs (); kills Nothing,
    List Unique 0 () -> Nothing, changes; needs (); kills ErasedOnly,
    List Remove 0 (Element) -> Nothing, changes; needs (); kills ErasedOnly,
    List Merge 0 (ChangedContainer) -> Nothing, changes; needs (BothSorted); kills Nothing,
    List Splice 0 (Position, ChangedContainer) -> Nothing, changes;
        needs (PositionInObject, OtherContainer); kills Nothing,
    List Splice 1 (Position, ChangedContainer, SplicedPosition) -> Nothing, changes;
        needs (PositionInObject, SplicedElement); kills Nothing,
    List Splice 2 (Position, ChangedContainer, OwnRange) -> Nothing, changes;
        needs (PositionInObject, SplicedRange); kills Nothing,
    // `std::set`
    Set Constructor 0 () -> Nothing, keeps; needs (); kills Nothing,
    Set Constructor 1 (InitializerList) -> Nothing, keeps; needs (); kills Nothing,
    Set Constructor 2 (Container) -> Nothing, keeps; needs (); kills Nothing,
    Set Constructor 3 (IntRange) -> Nothing, keeps; needs (OneRange); kills Nothing,
    Set Assignment 0 (Container) -> Nothing, changes; needs (); kills AllAndEnd,
    Set Begin 0 () -> Iterator, keeps; needs (); kills Nothing,
    Set End 0 () -> Iterator, keeps; needs (); kills Nothing,
    Set Size 0 () -> Number(Size), keeps; needs (); kills Nothing,
    Set Empty 0 () -> Number(Bool), keeps; needs (); kills Nothing,
    Set Insert 0 (Element) -> IteratorAndBool, changes; needs (); kills Nothing,
    Set Insert 1 (IntRange) -> Nothing, changes; needs (ForeignRange); kills Nothing,
    Set Erase 0 (Position) -> Iterator, changes; needs (ErasablePosition); kills ErasedOnly,
    Set Erase 1 (OwnRange) -> Iterator, changes; needs (RangeInObject); kills ErasedOnly,
    Set Erase 2 (Key) -> Number(Size), changes; needs (); kills ErasedOnly,
    Set Clear 0 () -> Nothing, changes; needs (); kills ErasedOnly,
    Set Swap 0 (ChangedContainer) -> Nothing, changes; needs (); kills Swap,
    Set Find 0 (Key) -> Iterator, keeps; needs (); kills Nothing,
    Set Count 0 (Key) -> Number(Size), keeps; needs (); kills Nothing,
    Set LowerBound 0 (Key) -> Iterator, keeps; needs (); kills Nothing,
    Set UpperBound 0 (Key) -> Iterator, keeps; needs (); kills Nothing,
    // `std::map`
    Map Constructor 0 () -> Nothing, keeps; needs (); kills Nothing,
    Map Constructor 1 (Container) -> Nothing, keeps; needs (); kills Nothing,
    Map Assignment 0 (Container) -> Nothing, changes; needs (); kills AllAndEnd,
    Map Begin 0 () -> Iterator, keeps; needs (); kills Nothing,
    Map End 0 () -> Iterator, keeps; needs (); kills Nothing,
    Map Size 0 () -> Number(Size), keeps; needs (); kills Nothing,
    Map Empty 0 () -> Number(Bool), keeps; needs (); kills Nothing,
    Map At 0 (Key) -> Element, keeps; needs (); kills Nothing,
    Map Subscript 0 (Key) -> Element, changes; needs (); kills Nothing,
    Map Emplace 0 (Key, Element) -> IteratorAndBool, changes; needs (); kills Nothing,
    Map Erase 0 (Position) -> Iterator, changes; needs (ErasablePosition); kills ErasedOnly,
    Map Erase 1 (OwnRange) -> Iterator, changes; needs (RangeInObject); kills ErasedOnly,
    Map Erase 2 (Key) -> Number(Size), changes; needs (); kills ErasedOnly,
    Map Clear 0 () -> Nothing, changes; needs (); kills ErasedOnly,
    Map Swap 0 (ChangedContainer) -> Nothing, changes; needs (); kills Swap,
    Map Find 0 (Key) -> Iterator, keeps; needs (); kills Nothing,
    Map Count 0 (Key) -> Number(Size), keeps; needs (); kills Nothing,
    Map LowerBound 0 (Key) -> Iterator, keeps; needs (); kills Nothing,
    Map UpperBound 0 (Key) -> Iterator, keeps; needs (); kills Nothing,
    // `std::unordered_set`
    HashSet Constructor 0 () -> Nothing, keeps; needs (); kills Nothing,
    HashSet Constructor 1 (InitializerList) -> Nothing, keeps; needs (); kills Nothing,
    HashSet Constructor 2 (Container) -> Nothing, keeps; needs (); kills Nothing,
    HashSet Constructor 3 (IntRange) -> Nothing, keeps; needs (OneRange); kills Nothing,
    HashSet Assignment 0 (Container) -> Nothing, changes; needs (); kills AllAndEnd,
    HashSet Begin 0 () -> Iterator, keeps; needs (); kills Nothing,
    HashSet End 0 () -> Iterator, keeps; needs (); kills Nothing,
    HashSet Size 0 () -> Number(Size), keeps; needs (); kills Nothing,
    HashSet Empty 0 () -> Number(Bool), keeps; needs (); kills Nothing,
    HashSet Insert 0 (Element) -> IteratorAndBool, changes; needs (); kills HashInsert,
    HashSet Insert 1 (IntRange) -> Nothing, changes; needs (ForeignRange); kills HashInsert,
    HashSet Erase 0 (Position) -> Iterator, changes; needs (ErasablePosition); kills ErasedOnly,
    HashSet Erase 1 (OwnRange) -> Iterator, changes; needs (RangeInObject); kills ErasedOnly,
    HashSet Erase 2 (Key) -> Number(Size), changes; needs (); kills ErasedOnly,
    HashSet Clear 0 () -> Nothing, changes; needs (); kills AllAndEnd,
    HashSet Reserve 0 (Count) -> Nothing, changes; needs (); kills HashReserve,
    HashSet Swap 0 (ChangedContainer) -> Nothing, changes; needs (); kills Swap,
    HashSet Find 0 (Key) -> Iterator, keeps; needs (); kills Nothing,
    HashSet Count 0 (Key) -> Number(Size), keeps; needs (); kills Nothing,
    // `std::unordered_map`
    HashMap Constructor 0 () -> Nothing, keeps; needs (); kills Nothing,
    HashMap Constructor 1 (Container) -> Nothing, keeps; needs (); kills Nothing,
    HashMap Assignment 0 (Container) -> Nothing, changes; needs (); kills AllAndEnd,
    HashMap Begin 0 () -> Iterator, keeps; needs (); kills Nothing,
    HashMap End 0 () -> Iterator, keeps; needs (); kills Nothing,
    HashMap Size 0 () -> Number(Size), keeps; needs (); kills Nothing,
    HashMap Empty 0 () -> Number(Bool), keeps; needs (); kills Nothing,
    HashMap At 0 (Key) -> Element, keeps; needs (); kills Nothing,
    HashMap Subscript 0 (Key) -> Element, changes; needs (); kills HashInsert,
    HashMap Emplace 0 (Key, Element) -> IteratorAndBool, changes; needs (); kills HashInsert,
    HashMap Erase 0 (Position) -> Iterator, changes; needs (ErasablePosition); kills ErasedOnly,
    HashMap Erase 1 (OwnRange) -> Iterator, changes; needs (RangeInObject); kills ErasedOnly,
    HashMap Erase 2 (Key) -> Number(Size), changes; needs (); kills ErasedOnly,
    HashMap Clear 0 () -> Nothing, changes; needs (); kills AllAndEnd,
    HashMap Reserve 0 (Count) -> Nothing, changes; needs (); kills HashReserve,
    HashMap Swap 0 (ChangedContainer) -> Nothing, changes; needs (); kills Swap,
    HashMap Find 0 (Key) -> Iterator, keeps; needs (); kills Nothing,
    HashMap Count 0 (Key) -> Number(Size), keeps; needs (); kills Nothing,
    // `std::multiset`
    MultiSet Constructor 0 () -> Nothing, keeps; needs (); kills Nothing,
    MultiSet Constructor 1 (Container) -> Nothing, keeps; needs (); kills Nothing,
    MultiSet Constructor 2 (InitializerList) -> Nothing, keeps; needs (); kills Nothing,
    MultiSet Constructor 3 (IntRange) -> Nothing, keeps; needs (OneRange); kills Nothing,
    MultiSet Assignment 0 (Container) -> Nothing, changes; needs (); kills AllAndEnd,
    MultiSet Begin 0 () -> Iterator, keeps; needs (); kills Nothing,
    MultiSet End 0 () -> Iterator, keeps; needs (); kills Nothing,
    MultiSet Size 0 () -> Number(Size), keeps; needs (); kills Nothing,
    MultiSet Empty 0 () -> Number(Bool), keeps; needs (); kills Nothing,
    MultiSet Insert 0 (Element) -> Iterator, changes; needs (); kills Nothing,
    MultiSet Insert 1 (IntRange) -> Nothing, changes; needs (ForeignRange); kills Nothing,
    MultiSet Erase 0 (Position) -> Iterator, changes; needs (ErasablePosition); kills ErasedOnly,
    MultiSet Erase 1 (OwnRange) -> Iterator, changes; needs (RangeInObject); kills ErasedOnly,
    MultiSet Erase 2 (Key) -> Number(Size), changes; needs (); kills ErasedOnly,
    MultiSet Clear 0 () -> Nothing, changes; needs (); kills ErasedOnly,
    MultiSet Swap 0 (ChangedContainer) -> Nothing, changes; needs (); kills Swap,
    MultiSet Find 0 (Key) -> Iterator, keeps; needs (); kills Nothing,
    MultiSet Count 0 (Key) -> Number(Size), keeps; needs (); kills Nothing,
    MultiSet LowerBound 0 (Key) -> Iterator, keeps; needs (); kills Nothing,
    MultiSet UpperBound 0 (Key) -> Iterator, keeps; needs (); kills Nothing,
    MultiSet EqualRange 0 (Key) -> IteratorPair, keeps; needs (); kills Nothing,
    // `std::multimap`
    MultiMap Constructor 0 () -> Nothing, keeps; needs (); kills Nothing,
    MultiMap Constructor 1 (Container) -> Nothing, keeps; needs (); kills Nothing,
    MultiMap Assignment 0 (Container) -> Nothing, changes; needs (); kills AllAndEnd,
    MultiMap Begin 0 () -> Iterator, keeps; needs (); kills Nothing,
    MultiMap End 0 () -> Iterator, keeps; needs (); kills Nothing,
    MultiMap Size 0 () -> Number(Size), keeps; needs (); kills Nothing,
    MultiMap Empty 0 () -> Number(Bool), keeps; needs (); kills Nothing,
    MultiMap Emplace 0 (Key, Element) -> Iterator, changes; needs (); kills Nothing,
    MultiMap Erase 0 (Position) -> Iterator, changes; needs (ErasablePosition); kills ErasedOnly,
    MultiMap Erase 1 (OwnRange) -> Iterator, changes; needs (RangeInObject); kills ErasedOnly,
    MultiMap Erase 2 (Key) -> Number(Size), changes; needs (); kills ErasedOnly,
    MultiMap Clear 0 () -> Nothing, changes; needs (); kills ErasedOnly,
    MultiMap Swap 0 (ChangedContainer) -> Nothing, changes; needs (); kills Swap,
    MultiMap Find 0 (Key) -> Iterator, keeps; needs (); kills Nothing,
    MultiMap Count 0 (Key) -> Number(Size), keeps; needs (); kills Nothing,
    MultiMap LowerBound 0 (Key) -> Iterator, keeps; needs (); kills Nothing,
    MultiMap UpperBound 0 (Key) -> Iterator, keeps; needs (); kills Nothing,
    MultiMap EqualRange 0 (Key) -> IteratorPair, keeps; needs (); kills Nothing,
    // the algorithms
    std Find 0 (IntRange, Int) -> FirstArgument, keeps; needs (OneRange); kills Nothing,
    std Count 0 (IntRange, Int) -> Number(Diff), keeps; needs (OneRange); kills Nothing,
    std Sort 0 (RandomAccessRange) -> Nothing, keeps; needs (OneRange); kills Nothing,
    std LowerBound 0 (IntRange, Int) -> FirstArgument, keeps; needs (OneRange, PartitionedBelow); kills Nothing,
    std UpperBound 0 (IntRange, Int) -> FirstArgument, keeps; needs (OneRange, PartitionedAbove); kills Nothing,
    std BinarySearch 0 (IntRange, Int) -> Number(Bool), keeps;
        needs (OneRange, PartitionedBelow, PartitionedAbove); kills Nothing,
    std Merge 0 (IntRange, SecondIntRange, Output) -> Output, keeps;
        needs (OneRange, RangesSorted, OutputFits); kills Nothing,
    std Includes 0 (IntRange, SecondIntRange) -> Number(Bool), keeps; needs (OneRange, RangesSorted); kills Nothing,
    std SetUnion 0 (IntRange, SecondIntRange, Output) -> Output, keeps;
        needs (OneRange, RangesSorted, OutputFits); kills Nothing,
    std SetIntersection 0 (IntRange, SecondIntRange, Output) -> Output, keeps;
        needs (OneRange, RangesSorted, OutputFits); kills Nothing,
    std SetDifference 0 (IntRange, SecondIntRange, Output) -> Output, keeps;
        needs (OneRange, RangesSorted, OutputFits); kills Nothing,
    std Copy 0 (IntRange, Output) -> Output, keeps; needs (OneRange, OutputFits); kills Nothing,
    std Fill 0 (WrittenRange, Int) -> Nothing, keeps; needs (OneRange); kills Nothing,
    std Reverse 0 (WrittenRange) -> Nothing, keeps; needs (OneRange); kills Nothing,
    std Unique 0 (WrittenRange) -> FirstArgument, keeps; needs (OneRange); kills Nothing,
    std Remove 0 (WrittenRange, Int) -> FirstArgument, keeps; needs (OneRange); kills Nothing,
    std Accumulate 0 (IntRange, Int) -> Number(Int), keeps; needs (OneRange); kills Nothing,
    std Distance 0 (AnyRange) -> Number(Diff), keeps; needs (OneRange); kills Nothing,
    std Advance 0 (IteratorVariable, Distance) -> Nothing, keeps; needs (Movable); kills Nothing,
    std Next 0 (Iterator, OptionalDistance) -> FirstArgument, keeps; needs (Movable); kills Nothing,
    std Prev 0 (BidirectionalIterator, OptionalDistance) -> FirstArgument, keeps; needs (Movable); kills Nothing,
    std MinElement 0 (IntRange) -> FirstArgument, keeps; needs (OneRange); kills Nothing,
    std MaxElement 0 (IntRange) -> FirstArgument, keeps; needs (OneRange); kills Nothing,
    std BackInserter 0 (AppendedContainer) -> Appender, keeps; needs (); kills Nothing,
};

/// The entries of the table in order, 231 of them. It takes no memory.
pub fn entries() -> &'static [Entry]
    ensures rows { map entry_row result.now ≡ table }
    ensures listed { entries_from 0 result.now ≡ lib_rows }
    ensures few { IsTrue (list_all has_few_needs result.now) }
    ensures count { length result.now ≡ 231 }
{
    &TABLE
}

/// Walks the table: `each_row!(entry => { .. })` runs the block for each entry in order.
#[macro_export]
macro_rules! each_row {
    ($entry:pat => $body:block) => {
        for $entry in $crate::entries() $body
    };
}

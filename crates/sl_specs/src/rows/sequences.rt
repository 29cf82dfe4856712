//! The numbers of the rows of vector, deque and list.

/// `vector.constructor()`
pub const VECTOR_CONSTRUCTOR: u16 = 0;

/// `vector.constructor(list)`
pub const VECTOR_CONSTRUCTOR_LIST: u16 = 1;

/// `vector.constructor(c)`
pub const VECTOR_CONSTRUCTOR_COPY: u16 = 2;

/// `vector.constructor(n)`
pub const VECTOR_CONSTRUCTOR_COUNT: u16 = 3;

/// `vector.constructor(n, x)`
pub const VECTOR_CONSTRUCTOR_FILL: u16 = 4;

/// `vector.constructor(f, l)`
pub const VECTOR_CONSTRUCTOR_RANGE: u16 = 5;

/// `vector.=(c)`
pub const VECTOR_ASSIGNMENT: u16 = 6;

/// `vector.begin()`
pub const VECTOR_BEGIN: u16 = 7;

/// `vector.end()`
pub const VECTOR_END: u16 = 8;

/// `vector.size()`
pub const VECTOR_SIZE: u16 = 9;

/// `vector.empty()`
pub const VECTOR_EMPTY: u16 = 10;

/// `vector.front()`
pub const VECTOR_FRONT: u16 = 11;

/// `vector.back()`
pub const VECTOR_BACK: u16 = 12;

/// `vector.at(n)`
pub const VECTOR_AT: u16 = 13;

/// `vector.[](n)`
pub const VECTOR_SUBSCRIPT: u16 = 14;

/// `vector.push_back(x)`
pub const VECTOR_PUSH_BACK: u16 = 15;

/// `vector.pop_back()`
pub const VECTOR_POP_BACK: u16 = 16;

/// `vector.insert(p, x)`
pub const VECTOR_INSERT: u16 = 17;

/// `vector.insert(p, n, x)`
pub const VECTOR_INSERT_FILL: u16 = 18;

/// `vector.insert(p, f, l)`
pub const VECTOR_INSERT_RANGE: u16 = 19;

/// `vector.erase(p)`
pub const VECTOR_ERASE: u16 = 20;

/// `vector.erase(f, l)`
pub const VECTOR_ERASE_RANGE: u16 = 21;

/// `vector.clear()`
pub const VECTOR_CLEAR: u16 = 22;

/// `vector.resize(n)`
pub const VECTOR_RESIZE: u16 = 23;

/// `vector.resize(n, x)`
pub const VECTOR_RESIZE_FILL: u16 = 24;

/// `vector.assign(n, x)`
pub const VECTOR_ASSIGN: u16 = 25;

/// `vector.reserve(n)`
pub const VECTOR_RESERVE: u16 = 26;

/// `vector.swap(c)`
pub const VECTOR_SWAP: u16 = 27;

/// `deque.constructor()`
pub const DEQUE_CONSTRUCTOR: u16 = 28;

/// `deque.constructor(list)`
pub const DEQUE_CONSTRUCTOR_LIST: u16 = 29;

/// `deque.constructor(c)`
pub const DEQUE_CONSTRUCTOR_COPY: u16 = 30;

/// `deque.constructor(n)`
pub const DEQUE_CONSTRUCTOR_COUNT: u16 = 31;

/// `deque.constructor(n, x)`
pub const DEQUE_CONSTRUCTOR_FILL: u16 = 32;

/// `deque.constructor(f, l)`
pub const DEQUE_CONSTRUCTOR_RANGE: u16 = 33;

/// `deque.=(c)`
pub const DEQUE_ASSIGNMENT: u16 = 34;

/// `deque.begin()`
pub const DEQUE_BEGIN: u16 = 35;

/// `deque.end()`
pub const DEQUE_END: u16 = 36;

/// `deque.size()`
pub const DEQUE_SIZE: u16 = 37;

/// `deque.empty()`
pub const DEQUE_EMPTY: u16 = 38;

/// `deque.front()`
pub const DEQUE_FRONT: u16 = 39;

/// `deque.back()`
pub const DEQUE_BACK: u16 = 40;

/// `deque.at(n)`
pub const DEQUE_AT: u16 = 41;

/// `deque.[](n)`
pub const DEQUE_SUBSCRIPT: u16 = 42;

/// `deque.push_back(x)`
pub const DEQUE_PUSH_BACK: u16 = 43;

/// `deque.push_front(x)`
pub const DEQUE_PUSH_FRONT: u16 = 44;

/// `deque.pop_back()`
pub const DEQUE_POP_BACK: u16 = 45;

/// `deque.pop_front()`
pub const DEQUE_POP_FRONT: u16 = 46;

/// `deque.insert(p, x)`
pub const DEQUE_INSERT: u16 = 47;

/// `deque.insert(p, n, x)`
pub const DEQUE_INSERT_FILL: u16 = 48;

/// `deque.insert(p, f, l)`
pub const DEQUE_INSERT_RANGE: u16 = 49;

/// `deque.erase(p)`
pub const DEQUE_ERASE: u16 = 50;

/// `deque.erase(f, l)`
pub const DEQUE_ERASE_RANGE: u16 = 51;

/// `deque.clear()`
pub const DEQUE_CLEAR: u16 = 52;

/// `deque.resize(n)`
pub const DEQUE_RESIZE: u16 = 53;

/// `deque.resize(n, x)`
pub const DEQUE_RESIZE_FILL: u16 = 54;

/// `deque.assign(n, x)`
pub const DEQUE_ASSIGN: u16 = 55;

/// `deque.swap(c)`
pub const DEQUE_SWAP: u16 = 56;

/// `list.constructor()`
pub const LIST_CONSTRUCTOR: u16 = 57;

/// `list.constructor(list)`
pub const LIST_CONSTRUCTOR_LIST: u16 = 58;

/// `list.constructor(c)`
pub const LIST_CONSTRUCTOR_COPY: u16 = 59;

/// `list.constructor(n)`
pub const LIST_CONSTRUCTOR_COUNT: u16 = 60;

/// `list.constructor(n, x)`
pub const LIST_CONSTRUCTOR_FILL: u16 = 61;

/// `list.constructor(f, l)`
pub const LIST_CONSTRUCTOR_RANGE: u16 = 62;

/// `list.=(c)`
pub const LIST_ASSIGNMENT: u16 = 63;

/// `list.begin()`
pub const LIST_BEGIN: u16 = 64;

/// `list.end()`
pub const LIST_END: u16 = 65;

/// `list.size()`
pub const LIST_SIZE: u16 = 66;

/// `list.empty()`
pub const LIST_EMPTY: u16 = 67;

/// `list.front()`
pub const LIST_FRONT: u16 = 68;

/// `list.back()`
pub const LIST_BACK: u16 = 69;

/// `list.push_back(x)`
pub const LIST_PUSH_BACK: u16 = 70;

/// `list.push_front(x)`
pub const LIST_PUSH_FRONT: u16 = 71;

/// `list.pop_back()`
pub const LIST_POP_BACK: u16 = 72;

/// `list.pop_front()`
pub const LIST_POP_FRONT: u16 = 73;

/// `list.insert(p, x)`
pub const LIST_INSERT: u16 = 74;

/// `list.insert(p, n, x)`
pub const LIST_INSERT_FILL: u16 = 75;

/// `list.insert(p, f, l)`
pub const LIST_INSERT_RANGE: u16 = 76;

/// `list.erase(p)`
pub const LIST_ERASE: u16 = 77;

/// `list.erase(f, l)`
pub const LIST_ERASE_RANGE: u16 = 78;

/// `list.clear()`
pub const LIST_CLEAR: u16 = 79;

/// `list.resize(n)`
pub const LIST_RESIZE: u16 = 80;

/// `list.resize(n, x)`
pub const LIST_RESIZE_FILL: u16 = 81;

/// `list.assign(n, x)`
pub const LIST_ASSIGN: u16 = 82;

/// `list.swap(c)`
pub const LIST_SWAP: u16 = 83;

/// `list.sort()`
pub const LIST_SORT: u16 = 84;

/// `list.reverse()`
pub const LIST_REVERSE: u16 = 85;

/// `list.unique()`
pub const LIST_UNIQUE: u16 = 86;

/// `list.remove(x)`
pub const LIST_REMOVE: u16 = 87;

/// `list.merge(c)`
pub const LIST_MERGE: u16 = 88;

/// `list.splice(p, c)`
pub const LIST_SPLICE: u16 = 89;

/// `list.splice(p, c, i)`
pub const LIST_SPLICE_ONE: u16 = 90;

/// `list.splice(p, c, f, l)`
pub const LIST_SPLICE_RANGE: u16 = 91;

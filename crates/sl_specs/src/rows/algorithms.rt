//! The numbers of the rows of the algorithms.

/// `std::find(f, l, x)`
pub const STD_FIND: u16 = 207;

/// `std::count(f, l, x)`
pub const STD_COUNT: u16 = 208;

/// `std::sort(f, l)`
pub const STD_SORT: u16 = 209;

/// `std::lower_bound(f, l, x)`
pub const STD_LOWER_BOUND: u16 = 210;

/// `std::upper_bound(f, l, x)`
pub const STD_UPPER_BOUND: u16 = 211;

/// `std::binary_search(f, l, x)`
pub const STD_BINARY_SEARCH: u16 = 212;

/// `std::merge(f, l, f2, l2, o)`
pub const STD_MERGE: u16 = 213;

/// `std::includes(f, l, f2, l2)`
pub const STD_INCLUDES: u16 = 214;

/// `std::set_union(f, l, f2, l2, o)`
pub const STD_SET_UNION: u16 = 215;

/// `std::set_intersection(f, l, f2, l2, o)`
pub const STD_SET_INTERSECTION: u16 = 216;

/// `std::set_difference(f, l, f2, l2, o)`
pub const STD_SET_DIFFERENCE: u16 = 217;

/// `std::copy(f, l, o)`
pub const STD_COPY: u16 = 218;

/// `std::fill(f, l, x)`
pub const STD_FILL: u16 = 219;

/// `std::reverse(f, l)`
pub const STD_REVERSE: u16 = 220;

/// `std::unique(f, l)`
pub const STD_UNIQUE: u16 = 221;

/// `std::remove(f, l, x)`
pub const STD_REMOVE: u16 = 222;

/// `std::accumulate(f, l, x)`
pub const STD_ACCUMULATE: u16 = 223;

/// `std::distance(f, l)`
pub const STD_DISTANCE: u16 = 224;

/// `std::advance(it, n)`
pub const STD_ADVANCE: u16 = 225;

/// `std::next(it, n)`
pub const STD_NEXT: u16 = 226;

/// `std::prev(it, n)`
pub const STD_PREV: u16 = 227;

/// `std::min_element(f, l)`
pub const STD_MIN_ELEMENT: u16 = 228;

/// `std::max_element(f, l)`
pub const STD_MAX_ELEMENT: u16 = 229;

/// `std::back_inserter(c)`
pub const STD_BACK_INSERTER: u16 = 230;

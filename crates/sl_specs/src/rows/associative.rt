//! The numbers of the rows of the forms with keys.

/// `set.constructor()`
pub const SET_CONSTRUCTOR: u16 = 92;

/// `set.constructor(list)`
pub const SET_CONSTRUCTOR_LIST: u16 = 93;

/// `set.constructor(c)`
pub const SET_CONSTRUCTOR_COPY: u16 = 94;

/// `set.constructor(f, l)`
pub const SET_CONSTRUCTOR_RANGE: u16 = 95;

/// `set.=(c)`
pub const SET_ASSIGNMENT: u16 = 96;

/// `set.begin()`
pub const SET_BEGIN: u16 = 97;

/// `set.end()`
pub const SET_END: u16 = 98;

/// `set.size()`
pub const SET_SIZE: u16 = 99;

/// `set.empty()`
pub const SET_EMPTY: u16 = 100;

/// `set.insert(x)`
pub const SET_INSERT: u16 = 101;

/// `set.insert(f, l)`
pub const SET_INSERT_RANGE: u16 = 102;

/// `set.erase(p)`
pub const SET_ERASE: u16 = 103;

/// `set.erase(f, l)`
pub const SET_ERASE_RANGE: u16 = 104;

/// `set.erase(k)`
pub const SET_ERASE_KEY: u16 = 105;

/// `set.clear()`
pub const SET_CLEAR: u16 = 106;

/// `set.swap(c)`
pub const SET_SWAP: u16 = 107;

/// `set.find(k)`
pub const SET_FIND: u16 = 108;

/// `set.count(k)`
pub const SET_COUNT: u16 = 109;

/// `set.lower_bound(k)`
pub const SET_LOWER_BOUND: u16 = 110;

/// `set.upper_bound(k)`
pub const SET_UPPER_BOUND: u16 = 111;

/// `map.constructor()`
pub const MAP_CONSTRUCTOR: u16 = 112;

/// `map.constructor(c)`
pub const MAP_CONSTRUCTOR_COPY: u16 = 113;

/// `map.=(c)`
pub const MAP_ASSIGNMENT: u16 = 114;

/// `map.begin()`
pub const MAP_BEGIN: u16 = 115;

/// `map.end()`
pub const MAP_END: u16 = 116;

/// `map.size()`
pub const MAP_SIZE: u16 = 117;

/// `map.empty()`
pub const MAP_EMPTY: u16 = 118;

/// `map.at(k)`
pub const MAP_AT: u16 = 119;

/// `map.[](k)`
pub const MAP_SUBSCRIPT: u16 = 120;

/// `map.emplace(k, x)`
pub const MAP_EMPLACE: u16 = 121;

/// `map.erase(p)`
pub const MAP_ERASE: u16 = 122;

/// `map.erase(f, l)`
pub const MAP_ERASE_RANGE: u16 = 123;

/// `map.erase(k)`
pub const MAP_ERASE_KEY: u16 = 124;

/// `map.clear()`
pub const MAP_CLEAR: u16 = 125;

/// `map.swap(c)`
pub const MAP_SWAP: u16 = 126;

/// `map.find(k)`
pub const MAP_FIND: u16 = 127;

/// `map.count(k)`
pub const MAP_COUNT: u16 = 128;

/// `map.lower_bound(k)`
pub const MAP_LOWER_BOUND: u16 = 129;

/// `map.upper_bound(k)`
pub const MAP_UPPER_BOUND: u16 = 130;

/// `unordered_set.constructor()`
pub const HASH_SET_CONSTRUCTOR: u16 = 131;

/// `unordered_set.constructor(list)`
pub const HASH_SET_CONSTRUCTOR_LIST: u16 = 132;

/// `unordered_set.constructor(c)`
pub const HASH_SET_CONSTRUCTOR_COPY: u16 = 133;

/// `unordered_set.constructor(f, l)`
pub const HASH_SET_CONSTRUCTOR_RANGE: u16 = 134;

/// `unordered_set.=(c)`
pub const HASH_SET_ASSIGNMENT: u16 = 135;

/// `unordered_set.begin()`
pub const HASH_SET_BEGIN: u16 = 136;

/// `unordered_set.end()`
pub const HASH_SET_END: u16 = 137;

/// `unordered_set.size()`
pub const HASH_SET_SIZE: u16 = 138;

/// `unordered_set.empty()`
pub const HASH_SET_EMPTY: u16 = 139;

/// `unordered_set.insert(x)`
pub const HASH_SET_INSERT: u16 = 140;

/// `unordered_set.insert(f, l)`
pub const HASH_SET_INSERT_RANGE: u16 = 141;

/// `unordered_set.erase(p)`
pub const HASH_SET_ERASE: u16 = 142;

/// `unordered_set.erase(f, l)`
pub const HASH_SET_ERASE_RANGE: u16 = 143;

/// `unordered_set.erase(k)`
pub const HASH_SET_ERASE_KEY: u16 = 144;

/// `unordered_set.clear()`
pub const HASH_SET_CLEAR: u16 = 145;

/// `unordered_set.reserve(n)`
pub const HASH_SET_RESERVE: u16 = 146;

/// `unordered_set.swap(c)`
pub const HASH_SET_SWAP: u16 = 147;

/// `unordered_set.find(k)`
pub const HASH_SET_FIND: u16 = 148;

/// `unordered_set.count(k)`
pub const HASH_SET_COUNT: u16 = 149;

/// `unordered_map.constructor()`
pub const HASH_MAP_CONSTRUCTOR: u16 = 150;

/// `unordered_map.constructor(c)`
pub const HASH_MAP_CONSTRUCTOR_COPY: u16 = 151;

/// `unordered_map.=(c)`
pub const HASH_MAP_ASSIGNMENT: u16 = 152;

/// `unordered_map.begin()`
pub const HASH_MAP_BEGIN: u16 = 153;

/// `unordered_map.end()`
pub const HASH_MAP_END: u16 = 154;

/// `unordered_map.size()`
pub const HASH_MAP_SIZE: u16 = 155;

/// `unordered_map.empty()`
pub const HASH_MAP_EMPTY: u16 = 156;

/// `unordered_map.at(k)`
pub const HASH_MAP_AT: u16 = 157;

/// `unordered_map.[](k)`
pub const HASH_MAP_SUBSCRIPT: u16 = 158;

/// `unordered_map.emplace(k, x)`
pub const HASH_MAP_EMPLACE: u16 = 159;

/// `unordered_map.erase(p)`
pub const HASH_MAP_ERASE: u16 = 160;

/// `unordered_map.erase(f, l)`
pub const HASH_MAP_ERASE_RANGE: u16 = 161;

/// `unordered_map.erase(k)`
pub const HASH_MAP_ERASE_KEY: u16 = 162;

/// `unordered_map.clear()`
pub const HASH_MAP_CLEAR: u16 = 163;

/// `unordered_map.reserve(n)`
pub const HASH_MAP_RESERVE: u16 = 164;

/// `unordered_map.swap(c)`
pub const HASH_MAP_SWAP: u16 = 165;

/// `unordered_map.find(k)`
pub const HASH_MAP_FIND: u16 = 166;

/// `unordered_map.count(k)`
pub const HASH_MAP_COUNT: u16 = 167;

/// `multiset.constructor()`
pub const MULTI_SET_CONSTRUCTOR: u16 = 168;

/// `multiset.constructor(c)`
pub const MULTI_SET_CONSTRUCTOR_COPY: u16 = 169;

/// `multiset.constructor(list)`
pub const MULTI_SET_CONSTRUCTOR_LIST: u16 = 170;

/// `multiset.constructor(f, l)`
pub const MULTI_SET_CONSTRUCTOR_RANGE: u16 = 171;

/// `multiset.=(c)`
pub const MULTI_SET_ASSIGNMENT: u16 = 172;

/// `multiset.begin()`
pub const MULTI_SET_BEGIN: u16 = 173;

/// `multiset.end()`
pub const MULTI_SET_END: u16 = 174;

/// `multiset.size()`
pub const MULTI_SET_SIZE: u16 = 175;

/// `multiset.empty()`
pub const MULTI_SET_EMPTY: u16 = 176;

/// `multiset.insert(x)`
pub const MULTI_SET_INSERT: u16 = 177;

/// `multiset.insert(f, l)`
pub const MULTI_SET_INSERT_RANGE: u16 = 178;

/// `multiset.erase(p)`
pub const MULTI_SET_ERASE: u16 = 179;

/// `multiset.erase(f, l)`
pub const MULTI_SET_ERASE_RANGE: u16 = 180;

/// `multiset.erase(k)`
pub const MULTI_SET_ERASE_KEY: u16 = 181;

/// `multiset.clear()`
pub const MULTI_SET_CLEAR: u16 = 182;

/// `multiset.swap(c)`
pub const MULTI_SET_SWAP: u16 = 183;

/// `multiset.find(k)`
pub const MULTI_SET_FIND: u16 = 184;

/// `multiset.count(k)`
pub const MULTI_SET_COUNT: u16 = 185;

/// `multiset.lower_bound(k)`
pub const MULTI_SET_LOWER_BOUND: u16 = 186;

/// `multiset.upper_bound(k)`
pub const MULTI_SET_UPPER_BOUND: u16 = 187;

/// `multiset.equal_range(k)`
pub const MULTI_SET_EQUAL_RANGE: u16 = 188;

/// `multimap.constructor()`
pub const MULTI_MAP_CONSTRUCTOR: u16 = 189;

/// `multimap.constructor(c)`
pub const MULTI_MAP_CONSTRUCTOR_COPY: u16 = 190;

/// `multimap.=(c)`
pub const MULTI_MAP_ASSIGNMENT: u16 = 191;

/// `multimap.begin()`
pub const MULTI_MAP_BEGIN: u16 = 192;

/// `multimap.end()`
pub const MULTI_MAP_END: u16 = 193;

/// `multimap.size()`
pub const MULTI_MAP_SIZE: u16 = 194;

/// `multimap.empty()`
pub const MULTI_MAP_EMPTY: u16 = 195;

/// `multimap.emplace(k, x)`
pub const MULTI_MAP_EMPLACE: u16 = 196;

/// `multimap.erase(p)`
pub const MULTI_MAP_ERASE: u16 = 197;

/// `multimap.erase(f, l)`
pub const MULTI_MAP_ERASE_RANGE: u16 = 198;

/// `multimap.erase(k)`
pub const MULTI_MAP_ERASE_KEY: u16 = 199;

/// `multimap.clear()`
pub const MULTI_MAP_CLEAR: u16 = 200;

/// `multimap.swap(c)`
pub const MULTI_MAP_SWAP: u16 = 201;

/// `multimap.find(k)`
pub const MULTI_MAP_FIND: u16 = 202;

/// `multimap.count(k)`
pub const MULTI_MAP_COUNT: u16 = 203;

/// `multimap.lower_bound(k)`
pub const MULTI_MAP_LOWER_BOUND: u16 = 204;

/// `multimap.upper_bound(k)`
pub const MULTI_MAP_UPPER_BOUND: u16 = 205;

/// `multimap.equal_range(k)`
pub const MULTI_MAP_EQUAL_RANGE: u16 = 206;

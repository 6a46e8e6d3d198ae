// The words of document 01 by name: kinds of types, heads of declarations, fixed names, roots of paths, and the limits. `specs/Words.antt` has those that definitions name, `specs/Forms.antt` the heads.
// Kept: numbers and no enums, since they are what the words of a call of the C interface hold.

// Kinds of types. Those below `PLAIN_KINDS` are the plain types, one word each.
pub const U8: u32 = 0;

pub const U16: u32 = 1;

pub const U32: u32 = 2;

pub const U64: u32 = 3;

pub const U128: u32 = 4;

pub const I8: u32 = 5;

pub const I16: u32 = 6;

pub const I32: u32 = 7;

pub const I64: u32 = 8;

pub const I128: u32 = 9;

pub const USIZE: u32 = 10;

pub const BOOL: u32 = 11;

pub const PLAIN_KINDS: u32 = 12;

pub const T_IDENTIFIER: u32 = 12;

pub const TYPE_FROM_PATH: u32 = 13;

// The kinds below have no types in them.
pub const LEAF_KINDS: u32 = 14;

pub const TYPE_APP: u32 = 14;

pub const BORROWED: u32 = 15;

pub const BORROWED_MUT: u32 = 16;

pub const IMPL_TYPE: u32 = 17;

pub const DYN_TYPE: u32 = 18;

pub const TUPLE_TYPE: u32 = 19;

pub const FN_TYPE: u32 = 20;

pub const INTERSECTION_TYPE: u32 = 21;

pub const ARRAY: u32 = 22;

pub const T_SYNONYM: u32 = 23;

pub const T_META_DATA: u32 = 24;

// How many flags a metadata may have: 1 is copySemantics, 2 overflow.
pub const FLAGS: usize = 4;

pub const COPY_SEMANTICS: u32 = 1;

// Heads of declarations.
pub const STRUCT: u32 = 25;

pub const ENUM: u32 = 26;

pub const TYPE_SYNONYM: u32 = 27;

pub const USE: u32 = 28;

// Roots of paths.
pub const GLOBAL: u32 = 0;

pub const CRATE: u32 = 1;

pub const SELF_ROOT: u32 = 2;

pub const ROOTS: usize = 3;

// Visibilities, and kinds of field lists.
pub const PUB: u32 = 0;

pub const PRIV: u32 = 1;

pub const VISIBILITIES: usize = 2;

pub const NAMED: u32 = 0;

pub const NAMELESS: u32 = 1;

pub const FIELD_KINDS: usize = 2;

// Fixed names; names from `FIRST_PAIR` on are pairs.
pub const EMPTY: u32 = 0;

pub const STD: u32 = 1;

pub const RC_MODULE: u32 = 2;

pub const RC: u32 = 3;

pub const SYNC: u32 = 4;

pub const ARC: u32 = 5;

pub const BOXED: u32 = 6;

pub const BOX: u32 = 7;

pub const MEM: u32 = 8;

pub const MAYBE_UNINIT: u32 = 9;

pub const DAFNY_RUNTIME: u32 = 10;

pub const OBJECT: u32 = 11;

pub const PTR: u32 = 12;

pub const MAYBE_PLACEBO: u32 = 13;

pub const UNDERSCORE: u32 = 14;

pub const SELF_NAME: u32 = 15;

pub const FIRST_PAIR: u32 = 16;

pub const FIXED_NAMES: usize = 16;

// Limits.
pub const MAX_WORDS: usize = 8192;

pub const MAX_PAIRS: usize = 1024;

pub const MAX_TEXT: usize = 16384;

pub const MAX_LEVEL: u32 = 16;

pub const MAX_DEPTH: usize = 64;

pub const MAX_RULES: u32 = 32;

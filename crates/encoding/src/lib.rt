// An encoding: words, pairs and a text. Its limits and names, the refusals, and reading the heads of types.
#![tactic(auto)]

ghost use Rattle.std.specs.Prelude.{◌≡◌, true, [], ◌+◌, ◌*◌, ◌-◌, ◌^◌, ◌≤◌, ◌<◌, length, get_or, take, drop};
ghost use Rattle.rast.specs.Bytes.{same};
ghost use Rattle.rast.specs.Tree.{U8};
ghost use Rattle.rast.specs.ToString.{Primitive-to_string};
ghost use Rattle.buffer.specs.Wrote.{Wrote};
ghost use Rattle.encoding.specs.Refusals.{number};
ghost use Rattle.encoding.specs.Words.{plain_kinds, first_pair};
ghost use Rattle.encoding.specs.Tables.{check_level, check_tables, good_pairs, fixed_names, name_bytes, name_count};
ghost use Rattle.encoding.specs.Tested.{check_call, HoldsNames, digit_at, name_length, Good};
ghost use Rattle.encoding.specs.Reading.{read_word, read_below, read_names};
ghost use Rattle.encoding.specs.Types.{primitives};
ghost use Rattle.encoding.specs.Heads.{read_path, path_head, head_after, read_head};
ghost use Rattle.encoding.specs.HeadWords.{HeadHere, types_below, own_end};
ghost use Rattle.encoding.specs.Scans.{scan_of, ended, head_of, own_word};

use crate::words::{
    ARRAY, BORROWED, BORROWED_MUT, DYN_TYPE, FIRST_PAIR, FIXED_NAMES, FLAGS, FN_TYPE, IMPL_TYPE,
    INTERSECTION_TYPE, MAX_LEVEL, MAX_PAIRS, MAX_TEXT, MAX_WORDS, PLAIN_KINDS, ROOTS, T_IDENTIFIER,
    T_META_DATA, T_SYNONYM, TUPLE_TYPE, TYPE_APP, TYPE_FROM_PATH,
};

pub mod words;

// Document 01's refusals. `Refusals.number` gives the number of each.
#[derive(Clone, Copy, Debug, PartialEq, Eq, Hash)]
pub enum Refusal {
    Overlong,
    BadPair,
    EndsEarly,
    UnknownWord,
    TooDeep,
    LeftOver,
    NoSuchPart,
    BufferTooShort,
    BadFileLength,
    RepeatedRule,
    BadLevel,
}

// A refusal's number.
impl From<Refusal> for u32 {
    ghost from_gives = { λ r n. n ≡ number r };

    fn from(r: Refusal) -> u32 {
        match r {
            Refusal::Overlong => 1,
            Refusal::BadPair => 2,
            Refusal::EndsEarly => 3,
            Refusal::UnknownWord => 4,
            Refusal::TooDeep => 5,
            Refusal::LeftOver => 6,
            Refusal::NoSuchPart => 7,
            Refusal::BufferTooShort => 8,
            Refusal::BadFileLength => 9,
            Refusal::RepeatedRule => 10,
            Refusal::BadLevel => 11,
        }
    }
}

fn check_level(level: u32) -> Result<(), Refusal>
    ensures { result ≡ check_level level }
{
    if MAX_LEVEL < level {
        return Err(Refusal::BadLevel);
    }
    Ok(())
}

// The pairs, whole, each at or behind the end of the one before, end within a text of `size` bytes.
fn pairs_hold(pairs: &[u32], size: usize) -> bool
    ensures { result ≡ good_pairs pairs.now 0 size }
{
    if pairs.len() % 2 != 0 {
        return false;
    }
    let mut end = 0;
    for pair in pairs.chunks_exact(2) {
        let start = pair[0] as usize;
        let count = pair[1] as usize;
        if start < end {
            return false;
        }
        if size < start + count {
            return false;
        }
        end = start + count;
    }
    true
}

// The limits, then the pairs.
pub fn check_tables(words: &[u32], pairs: &[u32], text: &[u8]) -> Result<(), Refusal>
    ensures { result ≡ check_tables words.now pairs.now text.now }
{
    if MAX_WORDS < words.len() {
        return Err(Refusal::Overlong);
    }
    if MAX_PAIRS < pairs.len() / 2 {
        return Err(Refusal::Overlong);
    }
    if MAX_TEXT < text.len() {
        return Err(Refusal::Overlong);
    }
    if pairs_hold(pairs, text.len()) {
        return Ok(());
    }
    Err(Refusal::BadPair)
}

// What is tested before anything is printed: the level, then the tables.
pub fn check_call(words: &[u32], pairs: &[u32], text: &[u8], level: u32) -> Result<(), Refusal>
    ensures { result ≡ check_call words.now pairs.now text.now level }
{
    check_level(level)?;
    check_tables(words, pairs, text)
}

// The sixteen fixed names stand one behind the other in `fixed_names`: where each starts. The string is laid out in pieces of 16, 8, 2 and 1
// bytes, and their order is such that each name lies in one piece: a load over two pieces that were just stored would wait for both.
const STARTS: [u8; FIXED_NAMES] = [0, 48, 72, 70, 12, 51, 43, 54, 57, 32, 16, 64, 29, 0, 74, 60];

// How long each fixed name is, a hexadecimal digit for each from the right. An array would be laid out at each use, and what is read from it would wait for that;
// the branches by a name's length would wait with it.
const LENGTHS: u64 = 0x41c36db335342230;

// The digit at `place` from the right of a table of hexadecimal digits.
pub fn digit(table: u64, place: u32) -> usize
    requires { place < 16 }
    ensures { result ≡ digit_at table place }
{
    ((table >> (4 * place)) % 16) as usize
}

// How long a fixed name is.
fn fixed_length(name: u32) -> usize
    requires { name < first_pair }
    ensures { result ≡ length (get_or fixed_names name []) }
{
    digit(LENGTHS, name)
}

// How many names there are: the fixed ones, and one for each pair.
pub fn name_count(pairs: &[u32]) -> usize
    ensures { result ≡ name_count pairs.now }
{
    pairs.len() / 2 + FIXED_NAMES
}

// A word of the pair of a name that stands in the text: 0 for its start there, 1 for its length.
pub fn pair_word(pairs: &[u32], name: u32, k: usize) -> usize
    requires { (first_pair ≤ name) × (name < name_count pairs.now) × (k < 2) }
    ensures { (result ≡ get_or pairs.now (2 * (name - first_pair) + k) 0) × (result < 2 ^ 32) }
{
    let i = (name - FIRST_PAIR) as usize;
    pairs[2 * i + k] as usize
}

// How long a name is.
pub fn name_length(pairs: &[u32], name: u32) -> usize
    requires { name < name_count pairs.now }
    ensures { result ≡ name_length pairs.now name }
{
    if name < FIRST_PAIR {
        return fixed_length(name);
    }
    pair_word(pairs, name, 1)
}

// The fixed names, where they can be lent: a path lays them out once for all its names.
#[derive(Drop)]
pub struct FixedNames {
    pub letters: [u8; 75],
    pub starts: [u8; FIXED_NAMES],
}

pub fn fixed_names() -> FixedNames
    ensures { HoldsNames result.letters result.starts }
{
    FixedNames {
        letters: *b"MaybePlacebosyncdafny_runtimePtrMaybeUninitboxedstdArcBoxmemselfObjectRcrc_",
        starts: STARTS,
    }
}

// The bytes of a fixed name.
pub fn put_fixed(
    letters: &[u8; 75],
    starts: &[u8; FIXED_NAMES],
    name: u32,
    out: &mut [u8],
    pos: usize,
) -> usize
    requires { HoldsNames letters.now starts.now × (name < first_pair) × (pos + length (get_or fixed_names name []) ≤ length out.old) }
    ensures { Wrote out.old pos (get_or fixed_names name []) out.new result }
{
    let start = starts[name as usize] as usize;
    buffer::put_part(letters, start, fixed_length(name), out, pos)
}

// The same, from tables of its own.
fn put_one_fixed(name: u32, out: &mut [u8], pos: usize) -> usize
    requires { (name < first_pair) × (pos + length (get_or fixed_names name []) ≤ length out.old) }
    ensures { Wrote out.old pos (get_or fixed_names name []) out.new result }
{
    let FixedNames { letters, starts } = fixed_names();
    put_fixed(&letters, &starts, name, out, pos)
}

// The bytes of a name that stands in the text.
pub fn put_pair(pairs: &[u32], text: &[u8], name: u32, out: &mut [u8], pos: usize) -> usize
    requires { (first_pair ≤ name) × (name < name_count pairs.now) × Good pairs.now text.now
        × (pos + length (name_bytes pairs.now text.now name) ≤ length out.old) }
    ensures { Wrote out.old pos (name_bytes pairs.now text.now name) out.new result }
{
    let start = pair_word(pairs, name, 0);
    buffer::put_part(text, start, pair_word(pairs, name, 1), out, pos)
}

// The bytes of a name.
pub fn put_name(pairs: &[u32], text: &[u8], name: u32, out: &mut [u8], pos: usize) -> usize
    requires { (name < name_count pairs.now) × Good pairs.now text.now
        × (pos + length (name_bytes pairs.now text.now name) ≤ length out.old) }
    ensures { Wrote out.old pos (name_bytes pairs.now text.now name) out.new result }
{
    if name < FIRST_PAIR {
        return put_one_fixed(name, out, pos);
    }
    put_pair(pairs, text, name, out, pos)
}

// How long the plain types' texts are, a digit for each kind from the right.
const PRIMITIVE_LENGTHS: u64 = 0x454333243332;

// How long a plain type's text is.
pub fn primitive_length(kind: u32) -> usize
    requires { kind < plain_kinds }
    ensures { (result ≡ length (Primitive-to_string (get_or primitives kind U8))) × (result ≤ 5) }
{
    digit(PRIMITIVE_LENGTHS, kind)
}

pub fn same_bytes(a: &[u8], b: &[u8]) -> bool
    ensures { result ≡ same a.now b.now }
{
    a == b
}

// A byte string's part is taken here, since one is not taken where the string is made.
pub fn part(bytes: &[u8], start: usize, end: usize) -> &[u8]
    requires { (start ≤ end) × (end ≤ length bytes.now) }
    ensures { result.now ≡ take (end - start) (drop start bytes.now) }
{
    &bytes[start..end]
}

// The same slice, made again from its start and length. A slice that is only handed on is copied as a whole, and waits
// for the two stores that made it.
pub fn all<T>(s: &[T]) -> &[T]
    ensures { result.now ≡ s.now }
{
    let n = s.len();
    &s[..n]
}

// The bytes of a name that stands in the text.
pub fn pair_bytes<'a>(pairs: &[u32], text: &'a [u8], name: u32) -> &'a [u8]
    requires { (first_pair ≤ name) × (name < name_count pairs.now) × Good pairs.now text.now }
    ensures { result.now ≡ name_bytes pairs.now text.now name }
{
    let start = pair_word(pairs, name, 0);
    part(text, start, start + pair_word(pairs, name, 1))
}

// Whether a name is the fixed name `k`, whose bytes are `bytes`.
pub fn is_name(pairs: &[u32], text: &[u8], name: u32, k: u32, bytes: &[u8]) -> bool
    requires { (name < name_count pairs.now) × Good pairs.now text.now × (k < first_pair) × (bytes.now ≡ get_or fixed_names k []) }
    ensures { result ≡ same (name_bytes pairs.now text.now name) (get_or fixed_names k []) }
{
    if name < FIRST_PAIR {
        return name == k;
    }
    same_bytes(pair_bytes(pairs, text, name), bytes)
}

// A path: its root, and where how many names stand.
#[derive(Clone, Copy, Debug, PartialEq, Eq)]
pub struct PathAt {
    pub root: u32,
    pub start: usize,
    pub count: u32,
}

// A type's head: its kind, with the words of its own.
#[derive(Clone, Copy, Debug, PartialEq, Eq)]
pub enum Head {
    Plain(u32),
    Name(u32),
    FromPath(PathAt),
    Apply(u32),
    Ref,
    RefMut,
    Impl,
    Dyn,
    Tuple(u32),
    Function(u32),
    Both,
    ArrayOf(u32),
    Synonym,
    Meta(u32),
}

// One word, whichever it is.
pub fn scan_word(words: &[u32], at: usize) -> Result<(u32, usize), Refusal>
    ensures { result ≡ scan_of (read_word words.now at) }
{
    if words.len() <= at {
        return Err(Refusal::EndsEarly);
    }
    Ok((words[at], at + 1))
}

// One word below `bound`.
pub fn scan_below(words: &[u32], bound: usize, at: usize) -> Result<(u32, usize), Refusal>
    ensures { result ≡ scan_of (read_below bound words.now at) }
{
    if words.len() <= at {
        return Err(Refusal::EndsEarly);
    }
    let w = words[at];
    if bound <= w as usize {
        return Err(Refusal::UnknownWord);
    }
    Ok((w, at + 1))
}

// `count` names.
pub fn scan_names(words: &[u32], bound: usize, at: usize, count: u32) -> Result<usize, Refusal>
    ensures { result ≡ ended (read_names bound words.now count at) }
{
    let mut pos = at;
    for _ in 0..count {
        let (_, next) = scan_below(words, bound, pos)?;
        pos = next;
    }
    Ok(pos)
}

// A path at `at`.
pub fn scan_path(words: &[u32], bound: usize, at: usize) -> Result<(PathAt, usize), Refusal>
    ensures { result ≡ scan_of (read_path bound words.now at) }
{
    let (root, p) = scan_below(words, ROOTS, at)?;
    let (count, start) = scan_word(words, p)?;
    let next = scan_names(words, bound, start, count)?;
    let path = PathAt { root, start, count };
    Ok((path, next))
}

// The head of kind `w` whose one own word is `x`.
fn head_of(w: u32, x: u32) -> Head
    ensures { result ≡ head_of w x }
{
    match w {
        T_IDENTIFIER => Head::Name(x),
        TYPE_APP => Head::Apply(x),
        TUPLE_TYPE => Head::Tuple(x),
        FN_TYPE => Head::Function(x),
        ARRAY => Head::ArrayOf(x),
        _ => Head::Meta(x),
    }
}

// The head of kind `w`, from the scan of its one own word.
fn own_word(w: u32, own: Result<(u32, usize), Refusal>) -> Result<(Head, usize), Refusal>
    ensures { result ≡ own_word w own }
{
    let (value, next) = own?;
    let head = head_of(w, value);
    Ok((head, next))
}

// The head of a path's type.
fn scan_path_head(words: &[u32], bound: usize, at: usize) -> Result<(Head, usize), Refusal>
    ensures { result ≡ scan_of (path_head bound words.now at) }
{
    let (path, next) = scan_path(words, bound, at)?;
    let head = Head::FromPath(path);
    Ok((head, next))
}

// The head of kind `w`, no plain type, whose further words begin at `at`.
fn scan_after(words: &[u32], bound: usize, w: u32, at: usize) -> Result<(Head, usize), Refusal>
    requires { (plain_kinds ≤ w) × (bound < 2 ^ 63) }
    ensures { result ≡ scan_of (head_after bound words.now w at) }
{
    match w {
        T_IDENTIFIER => own_word(w, scan_below(words, bound, at)),
        TYPE_FROM_PATH => scan_path_head(words, bound, at),
        TYPE_APP => own_word(w, scan_word(words, at)),
        BORROWED => Ok((Head::Ref, at)),
        BORROWED_MUT => Ok((Head::RefMut, at)),
        IMPL_TYPE => Ok((Head::Impl, at)),
        DYN_TYPE => Ok((Head::Dyn, at)),
        TUPLE_TYPE => own_word(w, scan_word(words, at)),
        FN_TYPE => own_word(w, scan_word(words, at)),
        INTERSECTION_TYPE => Ok((Head::Both, at)),
        ARRAY => own_word(w, scan_below(words, bound + 1, at)),
        T_SYNONYM => Ok((Head::Synonym, at)),
        T_META_DATA => own_word(w, scan_below(words, FLAGS, at)),
        _ => Err(Refusal::UnknownWord),
    }
}

// A type's head at `at`.
pub fn scan_head(words: &[u32], bound: usize, at: usize) -> Result<(Head, usize), Refusal>
    requires { bound < 2 ^ 63 }
    ensures { result ≡ scan_of (read_head bound words.now at) }
{
    if words.len() <= at {
        return Err(Refusal::EndsEarly);
    }
    let w = words[at];
    if w < PLAIN_KINDS {
        return Ok((Head::Plain(w), at + 1));
    }
    scan_after(words, bound, w, at + 1)
}

// ---- heads that were read before: their words alone say what follows, and nothing is tested again

// The kind of the head at `at`.
fn kind_at(words: &[u32], at: usize) -> u32
    requires { HeadHere words.now at }
    ensures { (result ≡ get_or words.now at 0) × (at < length words.now) }
{
    words[at]
}

// The word behind the kind of the head at `at`, where it has one such word: for some kinds the number of types.
fn second_word(words: &[u32], at: usize) -> usize
    requires { HeadHere words.now at × (own_end words.now at ≡ at + 2) }
    ensures { (result ≡ get_or words.now (at + 1) 0) × (result < 2 ^ 32) }
{
    words[at + 1] as usize
}

// Where the path whose head is at `at` ends.
fn path_end(words: &[u32], at: usize) -> usize
    requires { HeadHere words.now at × (own_end words.now at ≡ at + 3 + get_or words.now (at + 2) 0) }
    ensures { result ≡ at + 3 + get_or words.now (at + 2) 0 }
{
    at + 3 + words[at + 2] as usize
}

// Behind a head: where its own words end, and how many types are due there.
#[derive(Clone, Copy, Debug, PartialEq, Eq)]
pub struct Onward {
    pub next: usize,
    pub due: usize,
}

fn go_on(next: usize, due: usize) -> Onward
    ensures { (result.next ≡ next) × (result.due ≡ due) }
{
    Onward { next, due }
}

// The first of `due` types has its head, of kind `w`, at `at`. Where its own words end, and how many types are then due.
pub fn pass_kind(words: &[u32], w: u32, at: usize, due: usize) -> Onward
    requires { (w ≡ get_or words.now at 0) × (at < length words.now) × HeadHere words.now at × (0 < due) × (due - 1 + types_below words.now at < 2 ^ 63) }
    ensures { (result.next ≡ own_end words.now at) × (result.due ≡ due - 1 + types_below words.now at) }
{
    if w < PLAIN_KINDS {
        return go_on(at + 1, due - 1);
    }
    match w {
        T_IDENTIFIER => go_on(at + 2, due - 1),
        TYPE_FROM_PATH => go_on(path_end(words, at), due - 1),
        TYPE_APP => go_on(at + 2, due + second_word(words, at)),
        TUPLE_TYPE => go_on(at + 2, due - 1 + second_word(words, at)),
        FN_TYPE => go_on(at + 2, due + second_word(words, at)),
        INTERSECTION_TYPE => go_on(at + 1, due + 1),
        ARRAY => go_on(at + 2, due),
        T_SYNONYM => go_on(at + 1, due + 1),
        T_META_DATA => go_on(at + 2, due),
        _ => go_on(at + 1, due),
    }
}

// The same, where the kind was not read yet.
pub fn pass_head(words: &[u32], at: usize, due: usize) -> Onward
    requires { HeadHere words.now at × (0 < due) × (due - 1 + types_below words.now at < 2 ^ 63) }
    ensures { (result.next ≡ own_end words.now at) × (result.due ≡ due - 1 + types_below words.now at) }
{
    let w = kind_at(words, at);
    pass_kind(words, w, at, due)
}

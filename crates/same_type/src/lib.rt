// Comparing two types by their words: no tree is built, and nothing recurses.
#![tactic(auto)]

ghost use Rattle.std.specs.Prelude.{◌≡◌, true, false, [], ◌+◌, ◌≤◌, ◌<◌, length, take, drop};
ghost use Rattle.rast.specs.Bytes.{same};
ghost use Rattle.encoding.specs.Words.{first_pair};
ghost use Rattle.encoding.specs.Tables.{name_bytes};
ghost use Rattle.encoding.specs.Tested.{Good};
ghost use Rattle.same_type.specs.Runs.{after, after_kind, agrees, same_runs};
ghost use Rattle.same_type.specs.Looks.{apart, alike, looks, told_apart, may_agree};

use encoding::words::{
    ARRAY, FIRST_PAIR, FN_TYPE, T_IDENTIFIER, T_META_DATA, TUPLE_TYPE, TYPE_APP, TYPE_FROM_PATH,
};

// What the next word of a type is: a kind, a word compared as it is, an array's size, a path's root, its count, or the first of some names.
#[derive(Clone, Copy)]
pub enum Due {
    Kind,
    Exact,
    Sized,
    Root,
    Count,
    Names(u32),
}

fn after_kind(w: u32) -> Due
    ensures { result ≡ after_kind w }
{
    match w {
        T_IDENTIFIER => Due::Names(1),
        TYPE_FROM_PATH => Due::Root,
        TYPE_APP => Due::Exact,
        TUPLE_TYPE => Due::Exact,
        FN_TYPE => Due::Exact,
        ARRAY => Due::Sized,
        T_META_DATA => Due::Exact,
        _ => Due::Kind,
    }
}

// What follows the word `x`.
fn due_after(due: Due, x: u32) -> Due
    ensures { result ≡ after due x }
{
    match due {
        Due::Kind => after_kind(x),
        Due::Exact => Due::Kind,
        Due::Sized => Due::Kind,
        Due::Root => Due::Count,
        Due::Count => {
            if 0 < x {
                return Due::Names(x);
            }
            Due::Kind
        }
        Due::Names(n) => {
            if 1 < n {
                return Due::Names(n - 1);
            }
            Due::Kind
        }
    }
}

// The bytes of a name that is not fixed; a number past the table stands for no bytes.
fn other_bytes<'a>(pairs: &[u32], text: &'a [u8], name: u32) -> &'a [u8]
    requires { (first_pair ≤ name) × Good pairs.now text.now }
    ensures { result.now ≡ name_bytes pairs.now text.now name }
{
    if encoding::name_count(pairs) <= name as usize {
        return encoding::part(text, 0, 0);
    }
    encoding::pair_bytes(pairs, text, name)
}

// Whether some bytes are those of the fixed name `k`. Lengths are compared first.
fn are_fixed(pairs: &[u32], text: &[u8], k: u32, bytes: &[u8]) -> bool
    requires { (k < first_pair) × Good pairs.now text.now }
    ensures { result ≡ same (name_bytes pairs.now text.now k) bytes.now }
{
    if encoding::name_length(pairs, k) != bytes.len() {
        return false;
    }
    let mut name = [0u8; 13];
    let n = encoding::put_name(pairs, text, k, &mut name, 0);
    encoding::same_bytes(encoding::part(&name, 0, n), bytes)
}

// Whether two names have the same bytes. No two fixed names do.
fn same_name(pairs: &[u32], text: &[u8], x: u32, y: u32) -> bool
    requires { Good pairs.now text.now }
    ensures { result ≡ same (name_bytes pairs.now text.now x) (name_bytes pairs.now text.now y) }
{
    if x == y {
        return true;
    }
    if x < FIRST_PAIR {
        if y < FIRST_PAIR {
            return false;
        }
        return are_fixed(pairs, text, x, other_bytes(pairs, text, y));
    }
    let bytes = other_bytes(pairs, text, x);
    if y < FIRST_PAIR {
        return are_fixed(pairs, text, y, bytes);
    }
    encoding::same_bytes(bytes, other_bytes(pairs, text, y))
}

// Whether two sizes of arrays are the same: none, or names with the same bytes.
fn same_size(pairs: &[u32], text: &[u8], x: u32, y: u32) -> bool
    requires { Good pairs.now text.now }
    ensures { result ≡ agrees (name_bytes pairs.now text.now) Due.Sized x y }
{
    if x == 0 {
        return y == 0;
    }
    if y == 0 {
        return false;
    }
    same_name(pairs, text, x - 1, y - 1)
}

// Whether two words agree where `due` is due.
fn words_agree(pairs: &[u32], text: &[u8], due: Due, x: u32, y: u32) -> bool
    requires { Good pairs.now text.now }
    ensures { result ≡ agrees (name_bytes pairs.now text.now) due x y }
{
    match due {
        Due::Kind => x == y,
        Due::Exact => x == y,
        Due::Sized => same_size(pairs, text, x, y),
        Due::Root => x == y,
        Due::Count => x == y,
        Due::Names(_) => same_name(pairs, text, x, y),
    }
}

// What the words as they are tell of two types: they are the same, they are not, or names must be compared.
#[derive(Clone, Copy, PartialEq, Eq)]
pub enum Look {
    Same,
    Apart,
    Unclear,
}

// Whether two words never agree, whatever is due: below `FIRST_PAIR` there are fixed names, of which no two have the same bytes.
fn never_agree(x: u32, y: u32) -> bool
    ensures { result ≡ apart x y }
{
    if x == y {
        return false;
    }
    if x < FIRST_PAIR {
        return y < FIRST_PAIR;
    }
    false
}

// Whether all words so far are equal, and these two.
fn still_equal(equal: bool, x: u32, y: u32) -> bool
    ensures { result ≡ alike equal x y }
{
    if x == y {
        return equal;
    }
    false
}

// What a run of equal or of differing words tells.
fn look_of(equal: bool) -> Look
    ensures { result ≡ looks equal [] [] }
{
    if equal {
        return Look::Same;
    }
    Look::Unclear
}

// A look at `count` words of `a` and of `b`: most types that differ are told apart by it.
fn look_at_words(a: &[u32], start: usize, b: &[u32], from: usize, count: usize) -> Look
    requires { (start + count ≤ length a.now) × (from + count ≤ length b.now) }
    ensures { result ≡ looks true (take count (drop start a.now)) (take count (drop from b.now)) }
{
    let mut equal = true;
    for k in 0..count {
        let x = a[start + k];
        let y = b[from + k];
        if never_agree(x, y) {
            return Look::Apart;
        }
        equal = still_equal(equal, x, y);
    }
    look_of(equal)
}

// Whether a look tells them apart.
fn numbers_apart(a: &[u32], start: usize, b: &[u32], from: usize, count: usize) -> bool
    requires { (start + count ≤ length a.now) × (from + count ≤ length b.now) }
    ensures { result ≡ told_apart (looks true (take count (drop start a.now)) (take count (drop from b.now))) }
{
    look_at_words(a, start, b, from, count) == Look::Apart
}

// How many words in front are equal.
fn equal_front(a: &[u32], start: usize, b: &[u32], from: usize, count: usize) -> usize
    requires { (start + count ≤ length a.now) × (from + count ≤ length b.now) }
    ensures { result ≤ count }
{
    for k in 0..count {
        if a[start + k] != b[from + k] {
            return k;
        }
    }
    count
}

// How many bytes a name has; a number past the table stands for none.
fn name_size(pairs: &[u32], text: &[u8], name: u32) -> usize
    requires { Good pairs.now text.now }
    ensures { result ≡ length (name_bytes pairs.now text.now name) }
{
    if encoding::name_count(pairs) <= name as usize {
        return 0;
    }
    encoding::name_length(pairs, name)
}

// Whether two words behind the word `before` may agree: as they are or as names, whose lengths are compared first. A size stands behind `ARRAY` only, and what stands
// there is left open.
fn may_agree(pairs: &[u32], text: &[u8], before: u32, x: u32, y: u32) -> bool
    requires { Good pairs.now text.now }
    ensures { result ≡ may_agree (name_bytes pairs.now text.now) before x y }
{
    if before == ARRAY {
        return true;
    }
    if name_size(pairs, text, x) != name_size(pairs, text, y) {
        return false;
    }
    same_name(pairs, text, x, y)
}

// Whether two types are told apart without knowing what is due: by a look at the words behind those that are equal, and by the first that differ. The search for
// froms asks this of whatever stands there. It has one caller, so that the compiler puts it in place.
pub fn are_apart(
    pairs: &[u32],
    text: &[u8],
    a: &[u32],
    start: usize,
    b: &[u32],
    from: usize,
    count: usize,
) -> bool
    requires { Good pairs.now text.now × (start + count ≤ length a.now) × (from + count ≤ length b.now) }
    ensures { result ≡ true → same_runs (name_bytes pairs.now text.now) Due.Kind
        (take count (drop start a.now)) (take count (drop from b.now)) ≡ false }
{
    let k = equal_front(a, start, b, from, count);
    if numbers_apart(a, start + k, b, from + k, count - k) {
        return true;
    }
    if k == count {
        return false;
    }
    if k == 0 {
        return false;
    }
    !may_agree(pairs, text, a[start + k - 1], a[start + k], b[from + k])
}

// Whether `count` words of `a` and of `b` are the same type's, by what is due.
fn same_types(
    pairs: &[u32],
    text: &[u8],
    a: &[u32],
    start: usize,
    b: &[u32],
    from: usize,
    count: usize,
) -> bool
    requires { Good pairs.now text.now × (start + count ≤ length a.now) × (from + count ≤ length b.now) }
    ensures { result ≡ same_runs (name_bytes pairs.now text.now) Due.Kind
        (take count (drop start a.now)) (take count (drop from b.now)) }
{
    let mut due = Due::Kind;
    for k in 0..count {
        let x = a[start + k];
        if !words_agree(pairs, text, due, x, b[from + k]) {
            return false;
        }
        due = due_after(due, x);
    }
    true
}

// Whether `count` words of `a` and of `b` are the same type's. A look comes first.
pub fn same_words(
    pairs: &[u32],
    text: &[u8],
    a: &[u32],
    start: usize,
    b: &[u32],
    from: usize,
    count: usize,
) -> bool
    requires { Good pairs.now text.now × (start + count ≤ length a.now) × (from + count ≤ length b.now) }
    ensures { result ≡ same_runs (name_bytes pairs.now text.now) Due.Kind
        (take count (drop start a.now)) (take count (drop from b.now)) }
{
    match look_at_words(a, start, b, from, count) {
        Look::Same => true,
        Look::Apart => false,
        Look::Unclear => same_types(pairs, text, a, start, b, from, count),
    }
}

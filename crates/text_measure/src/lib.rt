// One pass over the words of a type, with no recursion: it accepts or refuses the type, and finds how long its text is.
#![tactic(auto)]

ghost use Rattle.std.specs.Prelude.{Ok, ◌≡◌, ◌+◌, ◌*◌, ◌-◌, ◌^◌, ◌/◌, ◌≤◌, ◌<◌, eqb, length};
ghost use Rattle.rast.specs.ToString.{Path-to_string};
ghost use Rattle.encoding.specs.Words.{from_path_kind, flag_count, max_words, max_depth};
ghost use Rattle.encoding.specs.Refusals.{pick};
ghost use Rattle.encoding.specs.Reading.{read_word, read_below};
ghost use Rattle.encoding.specs.Tables.{name_bytes, name_count};
ghost use Rattle.encoding.specs.Tested.{Good, name_length};
ghost use Rattle.encoding.specs.Heads.{read_path, path_head, head_after, read_head};
ghost use Rattle.encoding.specs.Types.{root_of, type_at};
ghost use Rattle.encoding.specs.declared.Head.TheVariants.{Name, Apply, Tuple, Function, ArrayOf, Meta};
ghost use Rattle.text_measure.specs.Lengths.{measure_of, path_measure_of, array_length, names_path, worded, CutDown, PathScanned, Scanned};
ghost use Rattle.text_measure.specs.Levels.{leaving, beside, under, pushed, Outward, Kept, Stepped};

use encoding::words::{
    ARRAY, BORROWED, BORROWED_MUT, CRATE, DYN_TYPE, FLAGS, FN_TYPE, GLOBAL, IMPL_TYPE,
    INTERSECTION_TYPE, MAX_DEPTH, MAX_WORDS, PLAIN_KINDS, ROOTS, T_META_DATA, T_SYNONYM,
    TUPLE_TYPE, TYPE_APP, TYPE_FROM_PATH,
};
use encoding::{PathAt, Refusal};

// A head: where its own words end, how many bytes it adds to the texts of the types that follow, and if there are any, how many they are and which of them show
// where it shows itself.
#[derive(Clone, Copy, Debug, PartialEq, Eq)]
enum Own {
    Leaf {
        next: usize,
        bytes: usize,
    },
    Node {
        next: usize,
        kids: u64,
        bytes: usize,
        below: u64,
    },
}

// A pass that has come to `place` with `bytes` of text: `due` types are still to be read at the innermost of `depth` open levels, and `mode` says which of them show:
// 0 none, inside a synonym's base; 1 all; 2 the next one alone, a synonym's display. The accepting pass is described by it too.
// Kept: an enum for `mode` is no plainer, since a level holds it as the low bit of a number: it would be made a number and back at each level.
#[derive(Clone, Copy, Debug, PartialEq, Eq)]
pub struct Pass {
    pub place: usize,
    pub bytes: usize,
    pub depth: usize,
    pub due: u64,
    pub mode: u64,
}

// What a step comes to: a further pass, or the end.
#[derive(Clone, Copy, Debug, PartialEq, Eq)]
pub enum Step {
    On(Pass),
    Ended(Pass),
}

// How long a path's root is.
fn root_length(root: u32) -> usize
    ensures { (result ≡ length (Path-to_string (root_of root))) × (result ≤ 5) }
{
    match root {
        GLOBAL => 0,
        CRATE => 5,
        _ => 4,
    }
}

// The bytes between `count` types.
fn commas_length(count: u32) -> usize
    ensures { result ≡ 2 * (count - 1) }
{
    2 * count.saturating_sub(1) as usize
}

// The brackets of an array, and its size if it has one.
fn array_length(pairs: &[u32], size: u32) -> usize
    requires { size < name_count pairs.now + 1 }
    ensures { (result ≡ array_length (name_length pairs.now) size) × (result ≤ 2 ^ 46) }
{
    if size == 0 {
        return 2;
    }
    4 + encoding::name_length(pairs, size - 1)
}

// A path whose root and count were read, from its names: they are read and measured in one loop.
fn measure_names(
    words: &[u32],
    pairs: &[u32],
    bound: usize,
    path: PathAt,
) -> Result<(PathAt, usize, usize), Refusal>
    requires { (bound ≡ name_count pairs.now) × (length words.now ≤ max_words) × (path.start ≤ length words.now) }
    ensures { PathScanned words.now pairs.now (names_path bound words.now path) result }
{
    let end = path.start + path.count as usize;
    let mut bytes = root_length(path.root);
    for i in path.start..end {
        let (value, _) = encoding::scan_below(words, bound, i)?;
        bytes += 2 + encoding::name_length(pairs, value);
    }
    Ok((path, end, bytes))
}

// The path at `at`.
fn path_at(
    words: &[u32],
    pairs: &[u32],
    bound: usize,
    at: usize,
) -> Result<(PathAt, usize, usize), Refusal>
    requires { (bound ≡ name_count pairs.now) × (length words.now ≤ max_words) }
    ensures { PathScanned words.now pairs.now (read_path bound words.now at) result }
{
    let (root, p) = encoding::scan_below(words, ROOTS, at)?;
    let (count, start) = encoding::scan_word(words, p)?;
    let path = PathAt { root, start, count };
    measure_names(words, pairs, bound, path)
}

// Where the path at `at` ends and how long its text is, or the refusal that is met first.
pub fn measure_path(
    words: &[u32],
    pairs: &[u32],
    text: &[u8],
    at: usize,
) -> Result<(PathAt, usize, usize), Refusal>
    requires { Good pairs.now text.now × (length words.now ≤ max_words) }
    ensures { result ≡ path_measure_of words.now (name_bytes pairs.now text.now) (read_path (name_count pairs.now) words.now at) }
{
    path_at(words, pairs, encoding::name_count(pairs), at)
}

// A head with no type behind it.
fn own_leaf(next: usize, bytes: usize) -> Result<Own, Refusal>
    ensures { result ≡ Ok (Own.Leaf next bytes) }
{
    Ok(Own::Leaf { next, bytes })
}

// A head with types behind it.
fn own_node(next: usize, kids: u64, bytes: usize, below: u64) -> Result<Own, Refusal>
    ensures { result ≡ Ok (Own.Node next kids bytes below) }
{
    Ok(Own::Node {
        next,
        kids,
        bytes,
        below,
    })
}

// A name's head, from the words behind its kind; the heads below likewise.
fn own_name(words: &[u32], pairs: &[u32], bound: usize, at: usize) -> Result<Own, Refusal>
    requires { bound ≡ name_count pairs.now }
    ensures { Scanned words.now pairs.now (worded Name (read_below bound words.now at)) result }
{
    let (value, next) = encoding::scan_below(words, bound, at)?;
    let bytes = encoding::name_length(pairs, value);
    own_leaf(next, bytes)
}

// A path's head.
fn own_path(words: &[u32], pairs: &[u32], bound: usize, at: usize) -> Result<Own, Refusal>
    requires { (bound ≡ name_count pairs.now) × (length words.now ≤ max_words) }
    ensures { Scanned words.now pairs.now (path_head bound words.now at) result }
{
    let (_, next, bytes) = path_at(words, pairs, bound, at)?;
    own_leaf(next, bytes)
}

// The most types that find words.
const MOST_TYPES: u32 = MAX_WORDS as u32;

// A count of types, cut down: more than these find no words, so which number it is makes no difference, and a level fits 16 bits.
pub fn cut(count: u32) -> u64
    ensures { CutDown result count × (result ≤ max_words) }
{
    count.min(MOST_TYPES) as u64
}

// The head of a type with arguments.
fn own_apply(words: &[u32], pairs: &[u32], at: usize) -> Result<Own, Refusal>
    ensures { Scanned words.now pairs.now (worded Apply (read_word words.now at)) result }
{
    let (value, next) = encoding::scan_word(words, at)?;
    own_node(next, cut(value) + 1, 2 * value as usize, 1)
}

// A tuple's head.
fn own_tuple(words: &[u32], pairs: &[u32], at: usize) -> Result<Own, Refusal>
    ensures { Scanned words.now pairs.now (worded Tuple (read_word words.now at)) result }
{
    let (value, next) = encoding::scan_word(words, at)?;
    if value == 0 {
        return own_leaf(next, 2);
    }
    own_node(next, cut(value), 2 * value as usize, 1)
}

// A function's head.
fn own_function(words: &[u32], pairs: &[u32], at: usize) -> Result<Own, Refusal>
    ensures { Scanned words.now pairs.now (worded Function (read_word words.now at)) result }
{
    let (value, next) = encoding::scan_word(words, at)?;
    own_node(next, cut(value) + 1, 20 + commas_length(value), 1)
}

// An array's head.
fn own_array(words: &[u32], pairs: &[u32], bound: usize, at: usize) -> Result<Own, Refusal>
    requires { bound ≡ name_count pairs.now }
    ensures { Scanned words.now pairs.now (worded ArrayOf (read_below (bound + 1) words.now at)) result }
{
    let (value, next) = encoding::scan_below(words, bound + 1, at)?;
    let bytes = array_length(pairs, value);
    own_node(next, 1, bytes, 1)
}

// The head of metadata, which adds nothing.
fn own_meta(words: &[u32], pairs: &[u32], at: usize) -> Result<Own, Refusal>
    ensures { Scanned words.now pairs.now (worded Meta (read_below flag_count words.now at)) result }
{
    let (_, next) = encoding::scan_below(words, FLAGS, at)?;
    own_node(next, 1, 0, 1)
}

// The head of kind `w`, neither a plain type nor a name, whose further words begin at `at`.
fn own_after(words: &[u32], pairs: &[u32], bound: usize, w: u32, at: usize) -> Result<Own, Refusal>
    requires { (from_path_kind ≤ w) × (bound ≡ name_count pairs.now) × (length words.now ≤ max_words) }
    ensures { Scanned words.now pairs.now (head_after bound words.now w at) result }
{
    match w {
        TYPE_FROM_PATH => own_path(words, pairs, bound, at),
        TYPE_APP => own_apply(words, pairs, at),
        BORROWED => own_node(at, 1, 1, 1),
        BORROWED_MUT => own_node(at, 1, 5, 1),
        IMPL_TYPE => own_node(at, 1, 5, 1),
        DYN_TYPE => own_node(at, 1, 4, 1),
        TUPLE_TYPE => own_tuple(words, pairs, at),
        FN_TYPE => own_function(words, pairs, at),
        INTERSECTION_TYPE => own_node(at, 2, 3, 1),
        ARRAY => own_array(words, pairs, bound, at),
        T_SYNONYM => own_node(at, 2, 0, 2),
        T_META_DATA => own_meta(words, pairs, at),
        _ => Err(Refusal::UnknownWord),
    }
}

// The head at `at`. Plain types and names, the most frequent heads, need no jump by a table. They are told from the others by an order: a test for equality would
// become one more entry of the table.
fn scan_own(words: &[u32], pairs: &[u32], bound: usize, at: usize) -> Result<Own, Refusal>
    requires { (bound ≡ name_count pairs.now) × (length words.now ≤ max_words) }
    ensures { Scanned words.now pairs.now (read_head bound words.now at) result }
{
    if words.len() <= at {
        return Err(Refusal::EndsEarly);
    }
    let w = words[at];
    if w < TYPE_FROM_PATH {
        if w < PLAIN_KINDS {
            return own_leaf(at + 1, encoding::primitive_length(w));
        }
        return own_name(words, pairs, bound, at + 1);
    }
    own_after(words, pairs, bound, w, at + 1)
}

// What counts where a head shows, and what counts where it does not.
fn shown_or<T: Copy>(mode: u64, shown: T, hidden: T) -> T
    ensures { result ≡ pick (eqb mode 0) hidden shown }
{
    if mode == 0 { hidden } else { shown }
}

// How many types are due at a level. A parameter is known to fit its type, an element of a lent array is not.
pub fn level_due(level: u16) -> u64
    ensures { (result ≡ level / 2) × (result < 2 ^ 15) }
{
    (level / 2) as u64
}

// The pass behind the innermost level: the one around it is taken up.
fn leave(levels: &[u16; MAX_DEPTH], pass: Pass) -> Pass
    requires { (0 < pass.depth) × (pass.depth ≤ max_depth) }
    ensures { (result ≡ leaving levels.now pass) × (result.due < 2 ^ 15) }
{
    let above = pass.depth - 1;
    let level = levels[above];
    Pass {
        place: pass.place,
        bytes: pass.bytes,
        depth: above,
        due: level_due(level),
        mode: (level % 2) as u64,
    }
}

// The pass behind all levels that have ended.
fn settle(levels: &[u16; MAX_DEPTH], pass: Pass) -> Pass
    requires { (pass.depth ≤ max_depth) × (pass.due ≤ 2 ^ 15) }
    ensures { Outward levels.now pass result × (result.due ≡ 0 → result.depth ≡ 0) }
{
    let mut p = pass;
    // Kept: no plainer as a `for`, since no range is counted: a turn takes up a level, and how many have ended is not known before.
    while p.due == 0 {
        if p.depth == 0 {
            return p;
        }
        p = leave(levels, p);
    }
    p
}

// The pass behind a head that ends at `next` with no type behind it.
fn past_leaf(pass: Pass, next: usize, bytes: usize) -> Pass
    requires { (0 < pass.due) × (pass.bytes + pick (eqb pass.mode 0) 0 bytes < 2 ^ 64) }
    ensures { result ≡ beside pass next bytes }
{
    let mode = pass.mode;
    Pass {
        place: next,
        bytes: pass.bytes + shown_or(mode, bytes, 0),
        depth: pass.depth,
        due: pass.due - 1,
        mode: mode % 2,
    }
}

// The pass behind a head that ends at `next`, one level down.
fn enter(
    levels: &mut [u16; MAX_DEPTH],
    pass: Pass,
    next: usize,
    kids: u64,
    bytes: usize,
    below: u64,
) -> Pass
    requires { (0 < pass.due) × (pass.due ≤ 2 ^ 15) × (pass.depth < max_depth) × (pass.bytes + pick (eqb pass.mode 0) 0 bytes < 2 ^ 64) }
    ensures { (result ≡ under pass next kids bytes below) × (levels.new ≡ pushed levels.old pass) }
{
    let depth = pass.depth;
    let after = pass.due - 1;
    let mode = pass.mode;
    levels[depth] = (2 * after + mode % 2) as u16;
    Pass {
        place: next,
        bytes: pass.bytes + shown_or(mode, bytes, 0),
        depth: depth + 1,
        due: kids,
        mode: shown_or(mode, below, 0),
    }
}

// How many levels are open where the deepest types stand.
const DEEPEST: usize = MAX_DEPTH - 1;

// One step of the pass: a head, and the levels that end with it. The types behind a head may be too deep: this is tested where a level opens, and so not at each head.
fn advance(
    words: &[u32],
    pairs: &[u32],
    text: &[u8],
    bound: usize,
    levels: &mut [u16; MAX_DEPTH],
    pass: Pass,
) -> Result<Step, Refusal>
    requires { (bound ≡ name_count pairs.now) × Good pairs.now text.now × (length words.now ≤ max_words)
        × Kept words.now levels.old pass }
    ensures { Stepped words.now pairs.now text.now levels.old pass levels.new result }
{
    match scan_own(words, pairs, bound, pass.place)? {
        Own::Leaf { next, bytes } => {
            let p = settle(levels, past_leaf(pass, next, bytes));
            if p.due == 0 {
                return Ok(Step::Ended(p));
            }
            Ok(Step::On(p))
        }
        Own::Node {
            next,
            kids,
            bytes,
            below,
        } => {
            if pass.depth == DEEPEST {
                return Err(Refusal::TooDeep);
            }
            Ok(Step::On(enter(levels, pass, next, kids, bytes, below)))
        }
    }
}

// Where the type at `at` ends and how long its text is, or the refusal that is met first.
pub fn measure_type(
    words: &[u32],
    pairs: &[u32],
    text: &[u8],
    at: usize,
) -> Result<(usize, usize), Refusal>
    requires { Good pairs.now text.now × (length words.now ≤ max_words) }
    ensures { result ≡ measure_of (type_at words.now pairs.now text.now at) }
{
    if words.len() < at {
        return Err(Refusal::EndsEarly);
    }
    let bound = encoding::name_count(pairs);
    let mut levels = [0u16; MAX_DEPTH];
    let mut pass = Pass {
        place: at,
        bytes: 0,
        depth: 0,
        due: 1,
        mode: 1,
    };
    // Kept: no plainer as a `for`, since no range is counted: a turn reads a head, and `advance` says which is the last.
    loop {
        match advance(words, pairs, text, bound, &mut levels, pass)? {
            Step::On(p) => {
                pass = p;
            }
            Step::Ended(p) => {
                return Ok((p.place, p.bytes));
            }
        }
    }
}

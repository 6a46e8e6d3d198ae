// One flat pass over the words of a type that accepts or refuses it, for those who ask for no text: the measuring pass without lengths.
#![tactic(auto)]

ghost use Rattle.std.specs.Prelude.{◌≡◌, ◌-◌, ◌^◌, ◌≤◌, ◌<◌, length};
ghost use Rattle.encoding.specs.Words.{plain_kinds, max_words, max_depth};
ghost use Rattle.encoding.specs.Reading.{read_word, read_below};
ghost use Rattle.encoding.specs.Tables.{name_bytes, name_count};
ghost use Rattle.encoding.specs.Tested.{Good};
ghost use Rattle.encoding.specs.Heads.{path_head, head_after, read_head};
ghost use Rattle.encoding.specs.Scans.{ended};
ghost use Rattle.encoding.specs.Types.{read_type, type_at};
ghost use Rattle.encoding.specs.declared.Head.TheVariants.{Name, Apply, Tuple, Function, ArrayOf, Meta};
ghost use Rattle.text_measure.specs.Lengths.{worded, names_path, head_of_path};
ghost use Rattle.text_measure.specs.Levels.{leaving, beside, under, pushed, Outward, Kept, Stepped};
ghost use Rattle.accept_type.specs.Walks.{Scanned, pass_of, pass_levels, pass_step};

use encoding::words::{
    ARRAY, BORROWED, BORROWED_MUT, DYN_TYPE, FLAGS, FN_TYPE, IMPL_TYPE, INTERSECTION_TYPE,
    MAX_DEPTH, PLAIN_KINDS, ROOTS, T_IDENTIFIER, T_META_DATA, T_SYNONYM, TUPLE_TYPE, TYPE_APP,
    TYPE_FROM_PATH,
};
use encoding::{PathAt, Refusal};

// A head: where its own words end, and if types follow, how many.
#[derive(Clone, Copy, Debug, PartialEq, Eq)]
enum Own {
    Leaf(usize),
    Node { next: usize, kids: u64 },
}

// A pass that has come to `place`: `due` types are still to be read at the innermost of `depth` open levels. Levels are kept as `text_measure` keeps them.
#[derive(Clone, Copy, Debug, PartialEq, Eq)]
struct TypeWalk {
    place: usize,
    depth: usize,
    due: u64,
}

// What a step comes to: a further walk, or the end.
#[derive(Clone, Copy, Debug, PartialEq, Eq)]
enum Step {
    On(TypeWalk),
    Ended(usize),
}

// A name's head, from the words behind its kind; the heads below likewise.
fn own_name(words: &[u32], bound: usize, at: usize) -> Result<Own, Refusal>
    ensures { Scanned (worded Name (read_below bound words.now at)) result }
{
    let (_, next) = encoding::scan_below(words, bound, at)?;
    Ok(Own::Leaf(next))
}

// The head of a path, from its names.
fn own_names(words: &[u32], bound: usize, path: PathAt) -> Result<Own, Refusal>
    requires { (length words.now ≤ max_words) × (path.start ≤ length words.now) }
    ensures { Scanned (head_of_path (names_path bound words.now path)) result }
{
    let end = path.start + path.count as usize;
    for i in path.start..end {
        encoding::scan_below(words, bound, i)?;
    }
    Ok(Own::Leaf(end))
}

// A path's head.
// Kept: `encoding::scan_path` has more call sites, and docs/SPEED.md measured what such calls cost in a pass over heads (not tried here).
fn own_path(words: &[u32], bound: usize, at: usize) -> Result<Own, Refusal>
    requires { length words.now ≤ max_words }
    ensures { Scanned (path_head bound words.now at) result }
{
    let (root, p) = encoding::scan_below(words, ROOTS, at)?;
    let (count, start) = encoding::scan_word(words, p)?;
    own_names(words, bound, PathAt { root, start, count })
}

// A head whose own word says how many types follow, beside one more: a type's arguments, a function's parameters.
fn own_more(words: &[u32], at: usize) -> Result<Own, Refusal>
    ensures { Scanned (worded Apply (read_word words.now at)) result × Scanned (worded Function (read_word words.now at)) result }
{
    let (value, next) = encoding::scan_word(words, at)?;
    let kids = text_measure::cut(value) + 1;
    Ok(Own::Node { next, kids })
}

// A tuple's head.
fn own_tuple(words: &[u32], at: usize) -> Result<Own, Refusal>
    ensures { Scanned (worded Tuple (read_word words.now at)) result }
{
    let (value, next) = encoding::scan_word(words, at)?;
    if value == 0 {
        return Ok(Own::Leaf(next));
    }
    let kids = text_measure::cut(value);
    Ok(Own::Node { next, kids })
}

// A head with one own word and one type: an array's, by its size, and that of metadata, by its flags.
fn own_one(words: &[u32], bound: usize, at: usize) -> Result<Own, Refusal>
    ensures { Scanned (worded ArrayOf (read_below bound words.now at)) result × Scanned (worded Meta (read_below bound words.now at)) result }
{
    let (_, next) = encoding::scan_below(words, bound, at)?;
    Ok(Own::Node { next, kids: 1 })
}

// The head of kind `w`, no plain type, whose further words begin at `at`.
fn own_after(words: &[u32], bound: usize, w: u32, at: usize) -> Result<Own, Refusal>
    requires { (plain_kinds ≤ w) × (bound < 2 ^ 63) × (length words.now ≤ max_words) }
    ensures { Scanned (head_after bound words.now w at) result }
{
    match w {
        T_IDENTIFIER => own_name(words, bound, at),
        TYPE_FROM_PATH => own_path(words, bound, at),
        TYPE_APP => own_more(words, at),
        BORROWED => Ok(Own::Node { next: at, kids: 1 }),
        BORROWED_MUT => Ok(Own::Node { next: at, kids: 1 }),
        IMPL_TYPE => Ok(Own::Node { next: at, kids: 1 }),
        DYN_TYPE => Ok(Own::Node { next: at, kids: 1 }),
        TUPLE_TYPE => own_tuple(words, at),
        FN_TYPE => own_more(words, at),
        INTERSECTION_TYPE => Ok(Own::Node { next: at, kids: 2 }),
        ARRAY => own_one(words, bound + 1, at),
        T_SYNONYM => Ok(Own::Node { next: at, kids: 2 }),
        T_META_DATA => own_one(words, FLAGS, at),
        _ => Err(Refusal::UnknownWord),
    }
}

// The head at `at`.
fn scan_own(words: &[u32], bound: usize, at: usize) -> Result<Own, Refusal>
    requires { (bound < 2 ^ 63) × (length words.now ≤ max_words) }
    ensures { Scanned (read_head bound words.now at) result }
{
    if words.len() <= at {
        return Err(Refusal::EndsEarly);
    }
    let w = words[at];
    if w < PLAIN_KINDS {
        return Ok(Own::Leaf(at + 1));
    }
    own_after(words, bound, w, at + 1)
}

// The walk behind the innermost level: the one around it is taken up.
fn leave(levels: &[u16; MAX_DEPTH], walk: TypeWalk) -> TypeWalk
    requires { (0 < walk.depth) × (walk.depth ≤ max_depth) }
    ensures { (pass_of result ≡ leaving (pass_levels levels.now) (pass_of walk)) × (result.due < 2 ^ 15) }
{
    let above = walk.depth - 1;
    let level = levels[above];
    TypeWalk {
        place: walk.place,
        depth: above,
        due: text_measure::level_due(level),
    }
}

// The walk behind all levels that have ended.
fn settle(levels: &[u16; MAX_DEPTH], walk: TypeWalk) -> TypeWalk
    requires { (walk.depth ≤ max_depth) × (walk.due ≤ 2 ^ 15) }
    ensures { Outward (pass_levels levels.now) (pass_of walk) (pass_of result) × (result.due ≡ 0 → result.depth ≡ 0) }
{
    let mut p = walk;
    // Kept: the new form is no plainer, since how far out it goes is known only level by level.
    while p.due == 0 {
        if p.depth == 0 {
            return p;
        }
        p = leave(levels, p);
    }
    p
}

// The walk behind a head that ends at `next`, one level down.
fn enter(levels: &mut [u16; MAX_DEPTH], walk: TypeWalk, next: usize, kids: u64) -> TypeWalk
    requires { (0 < walk.due) × (walk.due ≤ 2 ^ 15) × (walk.depth < max_depth) }
    ensures { (pass_of result ≡ under (pass_of walk) next kids 0 0) × (pass_levels levels.new ≡ pushed (pass_levels levels.old) (pass_of walk)) }
{
    let depth = walk.depth;
    levels[depth] = (2 * (walk.due - 1)) as u16;
    TypeWalk {
        place: next,
        depth: depth + 1,
        due: kids,
    }
}

// The walk behind a head that ends at `next` with no type behind it.
fn past_leaf(walk: TypeWalk, next: usize) -> TypeWalk
    requires { 0 < walk.due }
    ensures { pass_of result ≡ beside (pass_of walk) next 0 }
{
    TypeWalk {
        place: next,
        depth: walk.depth,
        due: walk.due - 1,
    }
}

// How many levels are open where the deepest types stand.
const DEEPEST: usize = MAX_DEPTH - 1;

// One step of the pass: a head, and the levels that end with it. The types behind a head may be too deep: this is tested where a level opens, and so not at each head.
fn advance(
    words: &[u32],
    pairs: &[u32],
    text: &[u8],
    bound: usize,
    levels: &mut [u16; MAX_DEPTH],
    walk: TypeWalk,
) -> Result<Step, Refusal>
    requires { (bound ≡ name_count pairs.now) × Good pairs.now text.now × (length words.now ≤ max_words)
        × Kept words.now (pass_levels levels.old) (pass_of walk) }
    ensures { Stepped words.now pairs.now text.now (pass_levels levels.old) (pass_of walk) (pass_levels levels.new) (pass_step result) }
{
    match scan_own(words, bound, walk.place)? {
        Own::Leaf(next) => {
            let p = settle(levels, past_leaf(walk, next));
            if p.due == 0 {
                return Ok(Step::Ended(p.place));
            }
            Ok(Step::On(p))
        }
        Own::Node { next, kids } => {
            if walk.depth == DEEPEST {
                return Err(Refusal::TooDeep);
            }
            Ok(Step::On(enter(levels, walk, next, kids)))
        }
    }
}

// Where the type at `at` ends, or the refusal that is met first. `inside` types stand around it: it may be so much less deep. The steps are lent a copy of the slice,
// since one that is only read here is handed over in registers.
pub fn accept_type(
    words: &[u32],
    pairs: &[u32],
    text: &[u8],
    at: usize,
    inside: usize,
) -> Result<usize, Refusal>
    requires { Good pairs.now text.now × (length words.now ≤ max_words) × (inside < max_depth) }
    ensures { result ≡ ended (read_type (name_count pairs.now) words.now (name_bytes pairs.now text.now) (max_depth - inside) at) }
{
    let all = words;
    if words.len() < at {
        return Err(Refusal::EndsEarly);
    }
    let bound = encoding::name_count(pairs);
    let mut levels = [0u16; MAX_DEPTH];
    let mut walk = TypeWalk {
        place: at,
        depth: inside,
        due: 1,
    };
    // Kept: no plainer as a `for`, since no range is counted: a turn reads a head, and `advance` says which is the last.
    loop {
        // Kept: the refusal as an arm; with `?` the compiler lays the loop out otherwise, and lists of plain types take half as long again.
        match advance(all, pairs, text, bound, &mut levels, walk) {
            Ok(Step::On(p)) => {
                walk = p;
            }
            Ok(Step::Ended(next)) => {
                return Ok(next);
            }
            Err(r) => {
                return Err(r);
            }
        }
    }
}

// Where the type at `at` ends. A plain type is one word.
pub fn scan_type(words: &[u32], pairs: &[u32], text: &[u8], at: usize) -> Result<usize, Refusal>
    requires { Good pairs.now text.now × (length words.now ≤ max_words) }
    ensures { result ≡ ended (type_at words.now pairs.now text.now at) }
{
    if words.len() <= at {
        return Err(Refusal::EndsEarly);
    }
    if words[at] < PLAIN_KINDS {
        return Ok(at + 1);
    }
    accept_type(words, pairs, text, at, 0)
}

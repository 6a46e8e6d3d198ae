// Document 01's "sound" for the type that an encoding holds. Reading and judging go in one pass.
#![tactic(auto)]

ghost use Rattle.std.specs.Prelude.{◌≡◌, true, false, ◌+◌, ◌-◌, ◌%◌, ◌^◌, ◌≤◌, ◌<◌, eqb, length, get_or};
ghost use Rattle.rast.specs.Sound.{sound_size, sound};
ghost use Rattle.encoding.specs.Words.{plain_kinds, flag_count, max_words, max_depth};
ghost use Rattle.encoding.specs.Refusals.{map_answer};
ghost use Rattle.encoding.specs.Reading.{got, whole, read_word, read_below};
ghost use Rattle.encoding.specs.Tables.{name_bytes, name_count};
ghost use Rattle.encoding.specs.Heads.{path_head, head_after, read_head};
ghost use Rattle.encoding.specs.Types.{size_of, type_at};
ghost use Rattle.encoding.specs.declared.Head.TheVariants.{Name, Apply, Tuple, Function, ArrayOf, Meta};
ghost use Rattle.text_measure.specs.Lengths.{worded, names_path, head_of_path};
ghost use Rattle.sound_type.specs.Judging.{TablesReady, Known, NameChecked, NamesOnward, OnwardAlways, unless_judged, root_scan, node_scan, bare_scan, leaf_scan, both_scan, Scanned, ask_next, next_type, under, pushed, leaving, Outward, Kept, Stepped};
ghost use Rattle.sound_type.specs.Calls.{type_is_sound};

use encoding::words::{
    ARRAY, BORROWED, BORROWED_MUT, DYN_TYPE, FIXED_NAMES, FLAGS, FN_TYPE, GLOBAL, IMPL_TYPE,
    INTERSECTION_TYPE, MAX_DEPTH, PLAIN_KINDS, ROOTS, T_IDENTIFIER, T_META_DATA, T_SYNONYM,
    TUPLE_TYPE, TYPE_APP, TYPE_FROM_PATH,
};
use encoding::{PathAt, Refusal};

// A head that was read and judged: where its own words end, and if types follow, what the first is asked and the level of the others. A head that is not
// sound, whatever follows it, ends the judging.
#[derive(Clone, Copy)]
enum OwnScan {
    Leaf(usize),
    Node { next: usize, ask: u64, rest: u64 },
    NotSound,
}

// A pass that has come to `place` and found all sound, inside `depth` levels that it has left unfinished. The type at `place` is asked `ask`: 0 nothing, inside a
// synonym's base; 1 to be sound; 2 to be a name or a path too; 3 to be no intersection too. Wrappers hand on what they are asked. Behind it follow the types of the
// level `rest`: four times their number, and what the last of them is asked; the others are asked to be sound if it is judged at all.
// Kept: `ask` is a number, since it stands in the lowest two bits of a level, and a level in 16 bits of fixed memory: an enum would be converted at each head.
#[derive(Clone, Copy)]
struct Pass {
    place: usize,
    depth: usize,
    ask: u64,
    rest: u64,
}

// What a step comes to: a further pass, the end of a sound type, or something that is not sound.
#[derive(Clone, Copy)]
enum Step {
    On(Pass),
    Ended(usize),
    Unfit,
}

// Whether a name is kept as one that was found sound: in the place that its number has.
fn is_known(known: &[u16; 64], name: u32) -> bool
    ensures { result ≡ eqb (get_or known.now (name % 64) 0) name }
{
    let at = (name % 64) as usize;
    known[at] as u32 == name
}

// Whether a name is sound, as it is asked to be. One that is found so is kept.
fn check_new(pairs: &[u32], text: &[u8], known: &mut [u16; 64], name: u32) -> Result<bool, Refusal>
    requires { TablesReady pairs.now text.now × Known pairs.now text.now known.old }
    ensures { NameChecked pairs.now text.now name result × Known pairs.now text.now known.new }
{
    if is_known(known, name) {
        return Ok(true);
    }
    if encoding::name_count(pairs) <= name as usize {
        return Err(Refusal::UnknownWord);
    }
    if sound_names::sound_name(pairs, text, name) {
        let at = (name % 64) as usize;
        known[at] = name as u16;
        return Ok(true);
    }
    Ok(false)
}

// A name's head, from the words behind its kind; the heads below likewise. Where nothing is asked, it need only be a name.
fn own_name(
    words: &[u32],
    pairs: &[u32],
    text: &[u8],
    known: &mut [u16; 64],
    at: usize,
    ask: u64,
) -> Result<OwnScan, Refusal>
    requires { TablesReady pairs.now text.now × Known pairs.now text.now known.old }
    ensures { Scanned words.now pairs.now text.now ask
        (worded Name (read_below (name_count pairs.now) words.now at)) result
        × Known pairs.now text.now known.new }
{
    if words.len() <= at {
        return Err(Refusal::EndsEarly);
    }
    let name = words[at];
    if is_known(known, name) {
        return Ok(OwnScan::Leaf(at + 1));
    }
    if ask == 0 {
        if encoding::name_count(pairs) <= name as usize {
            return Err(Refusal::UnknownWord);
        }
        return Ok(OwnScan::Leaf(at + 1));
    }
    if check_new(pairs, text, known, name)? {
        return Ok(OwnScan::Leaf(at + 1));
    }
    Ok(OwnScan::NotSound)
}

// How far the names from `start` to `end` are known: most are used more than once, and for those this loop is all there is.
fn known_to(
    words: &[u32],
    pairs: &[u32],
    text: &[u8],
    known: &[u16; 64],
    start: usize,
    end: usize,
) -> usize
    requires { Known pairs.now text.now known.now × (start ≤ end) × (start ≤ length words.now) }
    ensures { OnwardAlways (name_count pairs.now) words.now (name_bytes pairs.now text.now) start end result }
{
    let limit = end.min(words.len());
    for i in start..limit {
        if !is_known(known, words[i]) {
            return i;
        }
    }
    limit
}

// A path's head, from its names, which are judged: those before `start` are known.
fn new_names(
    words: &[u32],
    pairs: &[u32],
    text: &[u8],
    known: &mut [u16; 64],
    path: PathAt,
    start: usize,
    ask: u64,
) -> Result<OwnScan, Refusal>
    requires { TablesReady pairs.now text.now × Known pairs.now text.now known.old
        × NamesOnward (name_count pairs.now) words.now (name_bytes pairs.now text.now) ask path.start (path.start + path.count) start
        × (0 < path.count) × (length words.now ≤ max_words) × (0 < ask) }
    ensures { Scanned words.now pairs.now text.now ask
        (head_of_path (names_path (name_count pairs.now) words.now path)) result
        × Known pairs.now text.now known.new }
{
    let end = path.start + path.count as usize;
    for i in start..end {
        if words.len() <= i {
            return Err(Refusal::EndsEarly);
        }
        if !check_new(pairs, text, known, words[i])? {
            return Ok(OwnScan::NotSound);
        }
    }
    Ok(OwnScan::Leaf(end))
}

// A path's head, from its names, of which nothing is asked: they need only be names.
fn unjudged_names(
    words: &[u32],
    pairs: &[u32],
    text: &[u8],
    path: PathAt,
) -> Result<OwnScan, Refusal>
    requires { (path.start ≤ length words.now) × (0 < path.count) × (length words.now ≤ max_words) }
    ensures { Scanned words.now pairs.now text.now 0
        (head_of_path (names_path (name_count pairs.now) words.now path)) result }
{
    let bound = encoding::name_count(pairs);
    let end = path.start + path.count as usize;
    for i in path.start..end {
        encoding::scan_below(words, bound, i)?;
    }
    Ok(OwnScan::Leaf(end))
}

// The head of a path that has names.
fn own_names(
    words: &[u32],
    pairs: &[u32],
    text: &[u8],
    known: &mut [u16; 64],
    path: PathAt,
    ask: u64,
) -> Result<OwnScan, Refusal>
    requires { TablesReady pairs.now text.now × Known pairs.now text.now known.old
        × (path.start ≤ length words.now) × (0 < path.count) × (length words.now ≤ max_words) }
    ensures { Scanned words.now pairs.now text.now ask
        (head_of_path (names_path (name_count pairs.now) words.now path)) result
        × Known pairs.now text.now known.new }
{
    if ask == 0 {
        return unjudged_names(words, pairs, text, path);
    }
    let start = path.start;
    let end = start + path.count as usize;
    let i = known_to(words, pairs, text, known, start, end);
    if i == end {
        return Ok(OwnScan::Leaf(end));
    }
    new_names(words, pairs, text, known, path, i, ask)
}

// The head of a path with no names: `Global` is not sound.
fn own_root(path: PathAt, ask: u64) -> OwnScan
    ensures { result ≡ root_scan path.root path.start ask }
{
    if path.root != GLOBAL {
        return OwnScan::Leaf(path.start);
    }
    if ask == 0 {
        return OwnScan::Leaf(path.start);
    }
    OwnScan::NotSound
}

// A path's head.
fn own_path(
    words: &[u32],
    pairs: &[u32],
    text: &[u8],
    known: &mut [u16; 64],
    at: usize,
    ask: u64,
) -> Result<OwnScan, Refusal>
    requires { TablesReady pairs.now text.now × Known pairs.now text.now known.old × (length words.now ≤ max_words) }
    ensures { Scanned words.now pairs.now text.now ask
        (path_head (name_count pairs.now) words.now at) result
        × Known pairs.now text.now known.new }
{
    let (root, p) = encoding::scan_below(words, ROOTS, at)?;
    let (count, start) = encoding::scan_word(words, p)?;
    let path = PathAt { root, start, count };
    if count == 0 {
        return Ok(own_root(path, ask));
    }
    own_names(words, pairs, text, known, path, ask)
}

// A head with types behind it that is neither a wrapper nor an intersection.
fn own_node(next: usize, ask: u64, first: u64, rest: u64) -> OwnScan
    ensures { result ≡ node_scan next ask first rest }
{
    if ask == 0 {
        return OwnScan::Node {
            next,
            ask: 0,
            rest: rest / 4 * 4,
        };
    }
    if ask == 2 {
        return OwnScan::NotSound;
    }
    OwnScan::Node {
        next,
        ask: first,
        rest,
    }
}

// The head of a type with arguments: it has at least one.
// Kept: this, `own_tuple` and `own_function` as three: they differ in what no types below mean and in three numbers, which as parameters say less than three bodies.
fn own_apply(
    words: &[u32],
    pairs: &[u32],
    text: &[u8],
    at: usize,
    ask: u64,
) -> Result<OwnScan, Refusal>
    ensures { Scanned words.now pairs.now text.now ask
        (worded Apply (read_word words.now at)) result }
{
    let (value, next) = encoding::scan_word(words, at)?;
    if value == 0 {
        return Ok(own_bare(next, ask));
    }
    Ok(own_node(next, ask, 2, 4 * text_measure::cut(value) + 1))
}

// The head of a type with no arguments.
fn own_bare(next: usize, ask: u64) -> OwnScan
    ensures { result ≡ bare_scan next ask }
{
    if ask == 0 {
        return OwnScan::Node {
            next,
            ask: 0,
            rest: 0,
        };
    }
    OwnScan::NotSound
}

// A leaf that is neither a name nor a path.
fn own_leaf(next: usize, ask: u64) -> OwnScan
    ensures { result ≡ leaf_scan next ask }
{
    if ask == 2 {
        return OwnScan::NotSound;
    }
    OwnScan::Leaf(next)
}

// A tuple's head.
fn own_tuple(
    words: &[u32],
    pairs: &[u32],
    text: &[u8],
    at: usize,
    ask: u64,
) -> Result<OwnScan, Refusal>
    ensures { Scanned words.now pairs.now text.now ask
        (worded Tuple (read_word words.now at)) result }
{
    let (value, next) = encoding::scan_word(words, at)?;
    if value == 0 {
        return Ok(own_leaf(next, ask));
    }
    Ok(own_node(next, ask, 1, 4 * text_measure::cut(value) - 3))
}

// A function's head: its result is no intersection.
fn own_function(
    words: &[u32],
    pairs: &[u32],
    text: &[u8],
    at: usize,
    ask: u64,
) -> Result<OwnScan, Refusal>
    ensures { Scanned words.now pairs.now text.now ask
        (worded Function (read_word words.now at)) result }
{
    let (value, next) = encoding::scan_word(words, at)?;
    if value == 0 {
        return Ok(own_node(next, ask, 3, 3));
    }
    Ok(own_node(next, ask, 1, 4 * text_measure::cut(value) + 3))
}

// The head of an intersection, whose first type is none.
fn own_both(at: usize, ask: u64) -> OwnScan
    ensures { result ≡ both_scan at ask }
{
    if ask == 3 {
        return OwnScan::NotSound;
    }
    own_node(at, ask, 3, 5)
}

// An array's size, as `ask` asks it to be. A name that is sound is a sound size, so it is first tried as a name, which keeps it; that there is no such
// name cannot come, since the size was read below the bound.
fn size_fits(pairs: &[u32], text: &[u8], known: &mut [u16; 64], size: u32, ask: u64) -> bool
    requires { (size < name_count pairs.now + 1) × TablesReady pairs.now text.now × Known pairs.now text.now known.old }
    ensures { (result ≡ unless_judged ask (sound_size (size_of (name_bytes pairs.now text.now) size)))
        × Known pairs.now text.now known.new }
{
    if ask == 0 {
        return true;
    }
    if size == 0 {
        return true;
    }
    if is_known(known, size - 1) {
        return true;
    }
    match check_new(pairs, text, known, size - 1) {
        Ok(fits) => fits || sound_names::sound_size(pairs, text, size),
        Err(_) => false,
    }
}

// An array's head.
fn own_array(
    words: &[u32],
    pairs: &[u32],
    text: &[u8],
    known: &mut [u16; 64],
    bound: usize,
    at: usize,
    ask: u64,
) -> Result<OwnScan, Refusal>
    requires { (bound ≡ name_count pairs.now) × TablesReady pairs.now text.now × Known pairs.now text.now known.old }
    ensures { Scanned words.now pairs.now text.now ask
        (worded ArrayOf (read_below (bound + 1) words.now at)) result
        × Known pairs.now text.now known.new }
{
    let (value, next) = encoding::scan_below(words, bound + 1, at)?;
    if size_fits(pairs, text, known, value, ask) {
        return Ok(own_node(next, ask, 1, 0));
    }
    Ok(OwnScan::NotSound)
}

// The head of metadata, which hands on what it is asked.
fn own_meta(
    words: &[u32],
    pairs: &[u32],
    text: &[u8],
    at: usize,
    ask: u64,
) -> Result<OwnScan, Refusal>
    ensures { Scanned words.now pairs.now text.now ask
        (worded Meta (read_below flag_count words.now at)) result }
{
    let (_, next) = encoding::scan_below(words, FLAGS, at)?;
    Ok(OwnScan::Node { next, ask, rest: 0 })
}

// The head of kind `w`, no plain type, whose further words begin at `at`.
fn own_after(
    words: &[u32],
    pairs: &[u32],
    text: &[u8],
    known: &mut [u16; 64],
    bound: usize,
    w: u32,
    at: usize,
    ask: u64,
) -> Result<OwnScan, Refusal>
    requires { (plain_kinds ≤ w) × (bound ≡ name_count pairs.now) × (length words.now ≤ max_words) × TablesReady pairs.now text.now
        × Known pairs.now text.now known.old }
    ensures { Scanned words.now pairs.now text.now ask
        (head_after bound words.now w at) result
        × Known pairs.now text.now known.new }
{
    match w {
        T_IDENTIFIER => own_name(words, pairs, text, known, at, ask),
        TYPE_FROM_PATH => own_path(words, pairs, text, known, at, ask),
        TYPE_APP => own_apply(words, pairs, text, at, ask),
        BORROWED => Ok(own_node(at, ask, 3, 0)),
        BORROWED_MUT => Ok(own_node(at, ask, 3, 0)),
        IMPL_TYPE => Ok(own_node(at, ask, 3, 0)),
        DYN_TYPE => Ok(own_node(at, ask, 3, 0)),
        TUPLE_TYPE => own_tuple(words, pairs, text, at, ask),
        FN_TYPE => own_function(words, pairs, text, at, ask),
        INTERSECTION_TYPE => Ok(own_both(at, ask)),
        ARRAY => own_array(words, pairs, text, known, bound, at, ask),
        T_SYNONYM => Ok(OwnScan::Node {
            next: at,
            ask,
            rest: 4,
        }),
        T_META_DATA => own_meta(words, pairs, text, at, ask),
        _ => Err(Refusal::UnknownWord),
    }
}

// The head at `at`.
fn scan_own(
    words: &[u32],
    pairs: &[u32],
    text: &[u8],
    known: &mut [u16; 64],
    bound: usize,
    at: usize,
    ask: u64,
) -> Result<OwnScan, Refusal>
    requires { (bound ≡ name_count pairs.now) × (length words.now ≤ max_words) × TablesReady pairs.now text.now
        × Known pairs.now text.now known.old }
    ensures { Scanned words.now pairs.now text.now ask
        (read_head bound words.now at) result
        × Known pairs.now text.now known.new }
{
    if words.len() <= at {
        return Err(Refusal::EndsEarly);
    }
    let w = words[at];
    if w < PLAIN_KINDS {
        return Ok(own_leaf(at + 1, ask));
    }
    own_after(words, pairs, text, known, bound, w, at + 1, ask)
}

// The pass behind the innermost level: the one around it is taken up.
fn leave(levels: &[u16; MAX_DEPTH], pass: Pass) -> Pass
    requires { (0 < pass.depth) × (pass.depth ≤ max_depth) }
    ensures { (result ≡ leaving levels.now pass) × (result.rest < 2 ^ 16) }
{
    let above = pass.depth - 1;
    Pass {
        place: pass.place,
        depth: above,
        ask: pass.ask,
        rest: levels[above] as u64,
    }
}

// The pass behind all levels that have ended.
fn settle(levels: &[u16; MAX_DEPTH], pass: Pass) -> Pass
    requires { (pass.depth ≤ max_depth) × (pass.rest < 2 ^ 16) }
    ensures { Outward levels.now pass result × (result.rest < 4 → result.depth ≡ 0) }
{
    let mut p = pass;
    // Kept: nothing is counted: each turn leaves a level, as long as the one that it comes to has ended too.
    while p.rest < 4 {
        if p.depth == 0 {
            return p;
        }
        p = leave(levels, p);
    }
    p
}

// What the next type of a level is asked, if `rest` is the level behind it.
fn ask_next(rest: u64) -> u64
    ensures { result ≡ ask_next rest }
{
    if rest < 4 {
        return rest;
    }
    rest % 2
}

// The pass at `next`, at the next type of its level.
fn step_to(pass: Pass, next: usize) -> Pass
    requires { 4 ≤ pass.rest }
    ensures { result ≡ next_type pass next }
{
    let rest = pass.rest - 4;
    Pass {
        place: next,
        depth: pass.depth,
        ask: ask_next(rest),
        rest,
    }
}

// The pass behind a head that ends at `next`, one level down.
fn enter(levels: &mut [u16; MAX_DEPTH], pass: Pass, next: usize, ask: u64, rest: u64) -> Pass
    requires { (pass.rest < 2 ^ 16) × (pass.depth < max_depth) }
    ensures { (result ≡ under pass next ask rest) × (levels.new ≡ pushed levels.old pass) }
{
    let depth = pass.depth;
    levels[depth] = pass.rest as u16;
    Pass {
        place: next,
        depth: depth + 1,
        ask,
        rest,
    }
}

// One step of the pass: a head, and the levels that end with it.
fn advance(
    words: &[u32],
    pairs: &[u32],
    text: &[u8],
    bound: usize,
    known: &mut [u16; 64],
    levels: &mut [u16; MAX_DEPTH],
    pass: Pass,
) -> Result<Step, Refusal>
    requires { (bound ≡ name_count pairs.now) × TablesReady pairs.now text.now × (length words.now ≤ max_words)
        × Known pairs.now text.now known.old × Kept words.now levels.old pass }
    ensures { Stepped words.now pairs.now text.now levels.old pass levels.new result
        × Known pairs.now text.now known.new }
{
    if pass.depth == MAX_DEPTH {
        return Err(Refusal::TooDeep);
    }
    match scan_own(words, pairs, text, known, bound, pass.place, pass.ask)? {
        OwnScan::Leaf(next) => {
            let p = settle(levels, pass);
            if p.rest < 4 {
                return Ok(Step::Ended(next));
            }
            Ok(Step::On(step_to(p, next)))
        }
        OwnScan::Node { next, ask, rest } => Ok(Step::On(enter(levels, pass, next, ask, rest))),
        OwnScan::NotSound => Ok(Step::Unfit),
    }
}

// A type that is not sound and fills the words, unless a refusal is still to come.
fn accept_whole(words: &[u32], pairs: &[u32], text: &[u8]) -> Result<bool, Refusal>
    requires { TablesReady pairs.now text.now × (length words.now ≤ max_words) }
    ensures { result ≡ map_answer (λ t. false)
        (whole (length words.now) (type_at words.now pairs.now text.now 0)) }
{
    let next = accept_type::accept_type(words, pairs, text, 0, 0)?;
    sound_to(words, next, false)
}

// Whether a type that ends at `next` is sound: it fills the words.
fn sound_to(words: &[u32], next: usize, sound: bool) -> Result<bool, Refusal>
    ensures { result ≡ whole (length words.now) (got sound next) }
{
    if next != words.len() {
        return Err(Refusal::LeftOver);
    }
    Ok(sound)
}

// The fixed names are kept from the start: all but the empty one are sound.
fn keep_fixed(pairs: &[u32], text: &[u8], known: &mut [u16; 64])
    requires { Known pairs.now text.now known.old }
    ensures { Known pairs.now text.now known.new }
{
    for i in 1..FIXED_NAMES {
        known[i] = i as u16;
    }
}

// A type that fills the words.
fn judge_whole(words: &[u32], pairs: &[u32], text: &[u8]) -> Result<bool, Refusal>
    requires { TablesReady pairs.now text.now × (length words.now ≤ max_words) }
    ensures { result ≡ map_answer sound
        (whole (length words.now) (type_at words.now pairs.now text.now 0)) }
{
    let bound = encoding::name_count(pairs);
    let mut levels = [0u16; MAX_DEPTH];
    let mut known = [0u16; 64];
    known[0] = 1;
    keep_fixed(pairs, text, &mut known);
    let mut pass = Pass {
        place: 0,
        depth: 0,
        ask: 1,
        rest: 0,
    };
    // Kept: no plainer as a `for`, since no range is counted: a turn reads a head, and `advance` says which is the last.
    loop {
        match advance(words, pairs, text, bound, &mut known, &mut levels, pass)? {
            Step::On(p) => {
                pass = p;
            }
            Step::Ended(next) => {
                return sound_to(words, next, true);
            }
            Step::Unfit => {
                return accept_whole(words, pairs, text);
            }
        }
    }
}

// Whether the type that the encoding holds is sound.
pub fn type_is_sound(words: &[u32], pairs: &[u32], text: &[u8]) -> Result<bool, Refusal>
    ensures { result ≡ type_is_sound words.now pairs.now text.now }
{
    encoding::check_tables(words, pairs, text)?;
    judge_whole(words, pairs, text)
}

// Lists of rules: reading them into a table, and finding the rule whose from a type equals.
#![tactic(auto)]

ghost use Rattle.std.specs.Prelude.{◌≡◌, ℕ, max, ◌+◌, ◌-◌, ◌*◌, ◌≤◌, ◌<◌, length, get_or, take, drop};
ghost use Rattle.encoding.specs.Words.{max_words, max_rules};
ghost use Rattle.encoding.specs.Tables.{name_bytes};
ghost use Rattle.encoding.specs.Tested.{Good};
ghost use Rattle.encoding.specs.Types.{read_types};
ghost use Rattle.tree_words.specs.Numbered.{tree_at};
ghost use Rattle.rebuild_spec.specs.Rules.{check_all};
ghost use Rattle.accepted_types.specs.Accepted.{Readable};
ghost use Rattle.rebuild_rules.specs.Table.{entered, slot, slot_of, linked, first_along, is_from, stands, some_stands, none_stands, from_words, found_from, among_from, repeated_from, FoundAlong, EntriesFit, Links, AlongLinks, Unlinked, TableEntries};
ghost use Rattle.rebuild_rules.specs.Scans.{Deepens, SpansTo, depth_of, RuleRead, Listed, RulesRead};

use encoding::Refusal;
use encoding::words::{MAX_RULES, MAX_WORDS};

// The limits, those on the rules' words with those on the tree's; then the pairs.
pub fn check_all(words: &[u32], rules: &[u32], pairs: &[u32], text: &[u8]) -> Result<(), Refusal>
    ensures { result ≡ check_all words.now rules.now pairs.now text.now }
{
    if MAX_WORDS < rules.len() {
        return Err(Refusal::Overlong);
    }
    encoding::check_tables(words, pairs, text)
}

// Where some types end, and how deep the deepest of them is.
#[derive(Clone, Copy)]
pub struct Deep {
    pub next: usize,
    pub depth: usize,
}

pub fn larger(a: usize, b: usize) -> usize
    ensures { result ≡ max a b }
{
    a.max(b)
}

// How deep the deepest of `n` accepted types is.
#[cycle(deepest_depth_below)]
fn deepest(words: &[u32], pairs: &[u32], at: usize, n: usize) -> Deep
    requires { (at ≤ length words.now) × Readable (read_types (tree_at words.now pairs.now) n at) }
    ensures { Deepens (read_types (tree_at words.now pairs.now) n at) (length words.now) result }
{
    let mut place = at;
    let mut depth = 0;
    for _ in 0..n {
        let behind = encoding::pass_head(words, place, 1);
        let below = depth_below(words, pairs, behind.next, behind.due);
        depth = depth.max(below.depth + 1);
        place = below.next;
    }
    Deep { next: place, depth }
}

// The same below a head; most heads have no types below, and those need no call.
#[cycle(deepest_depth_below)]
fn depth_below(words: &[u32], pairs: &[u32], at: usize, n: usize) -> Deep
    requires { (at ≤ length words.now) × Readable (read_types (tree_at words.now pairs.now) n at) }
    ensures { Deepens (read_types (tree_at words.now pairs.now) n at) (length words.now) result }
{
    if n == 0 {
        return Deep { next: at, depth: 0 };
    }
    deepest(words, pairs, at, n)
}

// How deep the accepted type in `count` words is.
pub fn depth_in(words: &[u32], pairs: &[u32], at: usize, count: usize) -> usize
    requires { (at ≤ length words.now) × SpansTo (tree_at words.now pairs.now at) (at + count) }
    ensures { result ≡ depth_of (tree_at words.now pairs.now at) }
{
    if count == 1 {
        return 1;
    }
    let type_there = deepest(words, pairs, at, 1);
    type_there.depth
}

fn scan_rule(
    rules: &[u32],
    pairs: &[u32],
    text: &[u8],
    at: usize,
) -> Result<(usize, usize), Refusal>
    requires { Good pairs.now text.now × (length rules.now ≤ max_words) }
    ensures { RuleRead rules.now pairs.now at result }
{
    let middle = accept_type::scan_type(rules, pairs, text, at)?;
    let end = accept_type::scan_type(rules, pairs, text, middle)?;
    Ok((middle, end))
}

// Rule `i` of the table: where its from begins, and where its to begins and ends.
fn enter_rule(table: &mut [u16; 160], i: usize, from: usize, to: usize, end: usize)
    requires { (i < max_rules) × (from ≤ max_words) × (to ≤ max_words) × (end ≤ max_words) }
    ensures { table.new ≡ entered table.old i from to end }
{
    table[4 * i] = from as u16;
    table[4 * i + 1] = to as u16;
    table[4 * i + 2] = end as u16;
}

// `n` rules from `at` on, entered in the table.
fn scan_list(
    rules: &[u32],
    pairs: &[u32],
    text: &[u8],
    n: usize,
    at: usize,
    table: &mut [u16; 160],
) -> Result<usize, Refusal>
    requires { Good pairs.now text.now × (length rules.now ≤ max_words) × (n ≤ max_rules) × (at ≤ length rules.now) × Unlinked table.old }
    ensures { Listed rules.now pairs.now n at table.new result }
{
    let mut place = at;
    for i in 0..n {
        let (middle, end) = scan_rule(rules, pairs, text, place)?;
        enter_rule(table, i, place, middle, end);
        place = end;
    }
    Ok(place)
}

// Where the table says which rule comes first for a word. Words that no type begins with share an entry.
fn slot_of(word: u32) -> usize
    ensures { (result ≡ slot word) × (128 ≤ result) × (result < 160) }
{
    if word < 32 {
        return 128 + word as usize;
    }
    159
}

// Rule `i` comes first among those of its slot, before the one that came first so far.
fn link_rule(rules: &[u32], table: &mut [u16; 160], i: usize)
    requires { (i < max_rules) × (get_or table.old (4 * i) 0 < length rules.now) }
    ensures { table.new ≡ linked table.old i (slot_of rules.now table.old i) }
{
    let from = table[4 * i] as usize;
    let s = slot_of(rules[from]);
    table[4 * i + 3] = table[s];
    table[s] = (i + 1) as u16;
}

// Rules whose froms begin with the same word are linked, the last rule first, so that a search meets them in their order.
fn link_rules(rules: &[u32], table: &mut [u16; 160], k: usize)
    requires { EntriesFit rules.now table.old k × Unlinked table.old }
    ensures { TableEntries table.old table.new × Links rules.now table.new 0 k }
{
    for i in (0..k).rev() {
        link_rule(rules, table, i);
    }
}

// What an entry of a rule says: where its from begins, where its to begins and ends, and which rule of its slot comes after it.
const FROM: usize = 0;

pub const TO: usize = 1;

pub const END: usize = 2;

const LINK: usize = 3;

// An entry of rule `i`.
pub fn entry(table: &[u16; 160], i: usize, kind: usize) -> usize
    requires { (i < max_rules) × (kind < 4) }
    ensures { result ≡ get_or table.now (4 * i + kind) 0 }
{
    table[4 * i + kind] as usize
}

// The rule that comes first for a word.
pub fn first_link(table: &[u16; 160], word: u32) -> usize
    ensures { result ≡ get_or table.now (slot word) 0 }
{
    table[slot_of(word)] as usize
}

// Whether the from of rule `i` is the same type as `count` words of `out`. Lengths are compared before words.
fn is_from(
    rules: &[u32],
    pairs: &[u32],
    text: &[u8],
    table: &[u16; 160],
    k: usize,
    i: usize,
    out: &[u32],
    start: usize,
    count: usize,
) -> bool
    requires { Good pairs.now text.now × EntriesFit rules.now table.now k × (i < k) × (start + count ≤ length out.now) }
    ensures { result ≡ is_from (name_bytes pairs.now text.now) rules.now table.now (take count (drop start out.now)) i }
{
    let from = entry(table, i, FROM);
    if entry(table, i, TO) - from != count {
        return false;
    }
    same_type::same_words(pairs, text, out, start, rules, from, count)
}

// The first rule, from a link on, that passes a test.
fn first_along<F: Fn(usize) -> bool>(
    rules: &[u32],
    table: &[u16; 160],
    k: usize,
    link: usize,
    passes: F,
) -> Option<usize>
    requires linked { (k ≤ max_rules) × Links rules.now table.now 0 k }
    requires along { (s : ℕ) × AlongLinks rules.now table.now k s link }
    requires callable { (i : ℕ) → i < k → F.pre passes i }
    ensures { FoundAlong (F.post passes) table.now link result }
{
    let mut next = link;
    // Kept: no plainer as a `for`, since no range is counted: a turn follows a link.
    while 0 < next {
        let i = next - 1;
        if passes(i) {
            return Some(i);
        }
        next = entry(table, i, LINK);
    }
    None
}

// The first rule, from a link on, whose from is the same type as `count` words of `out`.
fn find_along(
    rules: &[u32],
    pairs: &[u32],
    text: &[u8],
    table: &[u16; 160],
    k: usize,
    link: usize,
    out: &[u32],
    start: usize,
    count: usize,
) -> Option<usize>
    requires { Good pairs.now text.now × EntriesFit rules.now table.now k × Links rules.now table.now 0 k × (0 < count) × (start + count ≤ length out.now)
        × AlongLinks rules.now table.now k (slot (get_or out.now start 0)) link }
    ensures { result ≡ first_along (is_from (name_bytes pairs.now text.now) rules.now table.now (take count (drop start out.now))) k link }
{
    first_along(rules, table, k, link, |i| {
        is_from(rules, pairs, text, table, k, i, out, start, count)
    })
}

// The first of `k` rules whose from is the same type as `count` words of `out`, which begin with a word whose first rule is that of `link`.
pub fn find_rule(
    rules: &[u32],
    pairs: &[u32],
    text: &[u8],
    table: &[u16; 160],
    k: usize,
    link: usize,
    out: &[u32],
    start: usize,
    count: usize,
) -> Option<usize>
    requires { Good pairs.now text.now × EntriesFit rules.now table.now k × Links rules.now table.now 0 k × (0 < count) × (start + count ≤ length out.now)
        × (link ≡ get_or table.now (slot (get_or out.now start 0)) 0) }
    ensures { result ≡ found_from (name_bytes pairs.now text.now) rules.now table.now 0 k
        (take count (drop start out.now)) }
{
    find_along(rules, pairs, text, table, k, link, out, start, count)
}

// Whether the from of rule `i` stands at `at` in `words`, whatever stands there. A look comes before the comparison: most froms do not stand there.
fn stands_at(
    rules: &[u32],
    pairs: &[u32],
    text: &[u8],
    table: &[u16; 160],
    k: usize,
    i: usize,
    words: &[u32],
    at: usize,
) -> bool
    requires { Good pairs.now text.now × EntriesFit rules.now table.now k × (i < k) × (at < length words.now) }
    ensures { result ≡ stands (name_bytes pairs.now text.now) rules.now table.now (drop at words.now) i }
{
    let from = entry(table, i, FROM);
    let count = entry(table, i, TO) - from;
    if words.len() - at < count {
        return false;
    }
    if same_type::are_apart(pairs, text, words, at, rules, from, count) {
        return false;
    }
    same_type::same_words(pairs, text, words, at, rules, from, count)
}

// Whether one of `k` froms stands there.
fn some_stands(
    rules: &[u32],
    pairs: &[u32],
    text: &[u8],
    table: &[u16; 160],
    k: usize,
    words: &[u32],
    at: usize,
) -> bool
    requires { Good pairs.now text.now × EntriesFit rules.now table.now k × Links rules.now table.now 0 k × (at < length words.now) }
    ensures { result ≡ some_stands (name_bytes pairs.now text.now) rules.now table.now 0 k (drop at words.now) }
{
    let link = first_link(table, words[at]);
    let found = first_along(rules, table, k, link, |i| {
        stands_at(rules, pairs, text, table, k, i, words, at)
    });
    found.is_some()
}

// Whether none of `k` froms stands anywhere in `words`: then no type in them gives way.
pub fn none_stands(
    rules: &[u32],
    pairs: &[u32],
    text: &[u8],
    table: &[u16; 160],
    k: usize,
    words: &[u32],
) -> bool
    requires { Good pairs.now text.now × EntriesFit rules.now table.now k × Links rules.now table.now 0 k }
    ensures { result ≡ none_stands (name_bytes pairs.now text.now) rules.now table.now k words.now }
{
    for at in 0..words.len() {
        if some_stands(rules, pairs, text, table, k, words, at) {
            return false;
        }
    }
    true
}

// Whether the from of rule `i` is that of a rule behind it.
fn is_among(
    rules: &[u32],
    pairs: &[u32],
    text: &[u8],
    table: &[u16; 160],
    k: usize,
    i: usize,
) -> bool
    requires { Good pairs.now text.now × EntriesFit rules.now table.now k × Links rules.now table.now 0 k × (i < k) }
    ensures { result ≡ among_from (name_bytes pairs.now text.now) rules.now table.now (i + 1) (k - (i + 1))
        (from_words rules.now table.now i) }
{
    let start = entry(table, i, FROM);
    let count = entry(table, i, TO) - start;
    let link = entry(table, i, LINK);
    find_along(rules, pairs, text, table, k, link, rules, start, count).is_some()
}

// Whether two of `k` rules have the same from.
fn are_repeated(rules: &[u32], pairs: &[u32], text: &[u8], table: &[u16; 160], k: usize) -> bool
    requires { Good pairs.now text.now × EntriesFit rules.now table.now k × Links rules.now table.now 0 k }
    ensures { result ≡ repeated_from (name_bytes pairs.now text.now) rules.now table.now 0 k }
{
    for i in 0..k {
        if is_among(rules, pairs, text, table, k, i) {
            return true;
        }
    }
    false
}

// How many numbers of rules a list may have.
const COUNTS: usize = MAX_RULES as usize + 1;

// The rules of a list, entered in the table.
pub fn read_rules(
    rules: &[u32],
    pairs: &[u32],
    text: &[u8],
    table: &mut [u16; 160],
) -> Result<usize, Refusal>
    requires { Good pairs.now text.now × (length rules.now ≤ max_words) × Unlinked table.old }
    ensures { RulesRead rules.now pairs.now text.now table.new result }
{
    let (value, next) = encoding::scan_below(rules, COUNTS, 0)?;
    let k = value as usize;
    let end = scan_list(rules, pairs, text, k, next, table)?;
    if end != rules.len() {
        return Err(Refusal::LeftOver);
    }
    link_rules(rules, table, k);
    if are_repeated(rules, pairs, text, table, k) {
        return Err(Refusal::RepeatedRule);
    }
    Ok(k)
}

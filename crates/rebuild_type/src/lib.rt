// Rebuilding a type by rules: words are laid down in a buffer, and a finished type that equals a rule's from gives way to its to.
#![tactic(auto)]

ghost use Rattle.std.specs.Prelude.{Ok, ◌≡◌, min, ◌+◌, ◌-◌, ◌*◌, ◌^◌, ◌≤◌, ◌<◌, length, get_or, take, drop};
ghost use Rattle.std.proofs.lemmas.List.Edits.{sets};
ghost use Rattle.encoding.specs.Words.{max_words};
ghost use Rattle.encoding.specs.Reading.{got};
ghost use Rattle.encoding.specs.Tables.{name_bytes};
ghost use Rattle.encoding.specs.Tested.{Good};
ghost use Rattle.encoding.specs.Types.{read_types};
ghost use Rattle.tree_words.specs.Numbered.{tree_at};
ghost use Rattle.accepted_types.specs.Accepted.{Readable};
ghost use Rattle.rebuild_rules.specs.Table.{EntriesFit, found_from, slot};
ghost use Rattle.rebuild_rules.specs.Scans.{SpansTo};
ghost use Rattle.rebuild_type.specs.Laid.{Lays, GivesTo, Settles, Ruled, mapping, WordRebuilds, PartsRebuild, TypeRebuilds, TypesRebuild};
ghost use Rattle.rebuild_type.specs.Calls.{zeros, laid_down};
ghost use Rattle.rebuild_type.specs.Attempts.{same_words};

use encoding::Refusal;
use encoding::words::{MAX_DEPTH, PLAIN_KINDS};

// ---- laying words down

// `count` words of `src` from `start` on, copied to `out` from `pos` on.
// By the index for no reason of speed: `copy_from_slice` takes as long (docs/LOOK-BACK.md, "Withdrawn").
pub fn copy_words(src: &[u32], start: usize, count: usize, out: &mut [u32], pos: usize)
    requires { (start + count ≤ length src.now) × (pos + count ≤ length out.old) }
    ensures { out.new ≡ sets out.old pos (take count (drop start src.now)) }
{
    for i in 0..count {
        out[pos + i] = src[start + i];
    }
}

// The same: most heads have one or two own words, and for these a loop costs more than they do.
fn copy_few(src: &[u32], start: usize, count: usize, out: &mut [u32], pos: usize)
    requires { (start + count ≤ length src.now) × (pos + count ≤ length out.old) }
    ensures { out.new ≡ sets out.old pos (take count (drop start src.now)) }
{
    if count == 1 {
        out[pos] = src[start];
        return;
    }
    if count == 2 {
        out[pos] = src[start];
        out[pos + 1] = src[start + 1];
        return;
    }
    copy_words(src, start, count, out, pos);
}

// Zero words all over `out`.
pub fn clear(out: &mut [u32])
    ensures { out.new ≡ zeros out.old }
{
    out.fill(0);
}

pub fn add_words(
    src: &[u32],
    start: usize,
    count: usize,
    out: &mut [u32],
    pos: usize,
    limit: usize,
) -> Option<usize>
    requires { (start + count ≤ length src.now) × (pos ≤ limit) × (limit ≤ length out.old) }
    ensures { Lays limit out.old pos (take count (drop start src.now)) out.new result }
{
    if limit - pos < count {
        return None;
    }
    copy_few(src, start, count, out, pos);
    Some(pos + count)
}

// As many words as may lie in a buffer of `size` words, and no more than `most`.
pub fn room_of(size: usize, most: usize) -> usize
    ensures { result ≡ min size most }
{
    size.min(most)
}

// ---- types

// What lies from `start` on gives way to the to of rule `i`.
fn give_way(
    rules: &[u32],
    pairs: &[u32],
    table: &[u16; 160],
    k: usize,
    i: usize,
    out: &mut [u32],
    start: usize,
    limit: usize,
) -> Option<(usize, usize)>
    requires { EntriesFit rules.now table.now k × (i < k) × SpansTo (tree_at rules.now pairs.now (get_or table.now (4 * i + 1) 0)) (get_or table.now (4 * i + 2) 0)
        × (start ≤ limit) × (limit ≤ length out.old) }
    ensures { GivesTo rules.now pairs.now table.now i limit out.old start out.new result }
{
    let to = rebuild_rules::entry(table, i, rebuild_rules::TO);
    let count = rebuild_rules::entry(table, i, rebuild_rules::END) - to;
    let pos = add_words(rules, to, count, out, start, limit)?;
    let depth = rebuild_rules::depth_in(rules, pairs, to, count);
    Some((pos, depth))
}

// The finished type between `start` and `end` gives way to the to of a rule whose from it equals. `link` is the first rule for its first word.
fn settle(
    pairs: &[u32],
    text: &[u8],
    rules: &[u32],
    table: &[u16; 160],
    k: usize,
    link: usize,
    out: &mut [u32],
    start: usize,
    end: usize,
    depth: usize,
    limit: usize,
) -> Option<(usize, usize)>
    requires { Good pairs.now text.now × Ruled rules.now pairs.now text.now table.now k × (start < end) × (end ≤ limit) × (limit ≤ length out.old)
        × (link ≡ get_or table.now (slot (get_or out.old start 0)) 0) }
    ensures { Settles rules.now pairs.now table.now
        (found_from (name_bytes pairs.now text.now) rules.now table.now 0 k (take (end - start) (drop start out.old)))
        limit out.old start end depth out.new result }
{
    match rebuild_rules::find_rule(rules, pairs, text, table, k, link, out, start, end - start) {
        Some(i) => give_way(rules, pairs, table, k, i, out, start, limit),
        None => Some((end, depth)),
    }
}

// The accepted type at `at`, rebuilt: its own words, the types below it, and then the rules. Its first word stays, so the first rule for it is looked up before it
// is laid down: a word that was just stored would be waited for.
#[cycle(rebuild_below_rebuild_next_rebuild_parts_rebuild_types)]
fn rebuild_next(
    words: &[u32],
    pairs: &[u32],
    text: &[u8],
    rules: &[u32],
    table: &[u16; 160],
    k: usize,
    at: usize,
    out: &mut [u32],
    pos: usize,
    limit: usize,
) -> Option<(usize, usize, usize)>
    requires { Good pairs.now text.now × Ruled rules.now pairs.now text.now table.now k × Readable (tree_at words.now pairs.now at)
        × (pos ≤ limit) × (limit ≤ length out.old) }
    ensures { TypeRebuilds (mapping rules.now pairs.now text.now) limit out.old pos
        (tree_at words.now pairs.now at) out.new result }
{
    let link = rebuild_rules::first_link(table, words[at]);
    let (end, q, below) = rebuild_parts(words, pairs, text, rules, table, k, at, out, pos, limit)?;
    let (last, depth) = settle(
        pairs,
        text,
        rules,
        table,
        k,
        link,
        out,
        pos,
        q,
        below + 1,
        limit,
    )?;
    Some((end, last, depth))
}

// A plain type, which is one word.
fn add_plain(
    word: u32,
    at: usize,
    out: &mut [u32],
    pos: usize,
    limit: usize,
) -> Option<(usize, usize, usize)>
    requires { (at + 1 < 2 ^ 63) × (pos ≤ limit) × (limit ≤ length out.old) }
    ensures { WordRebuilds limit out.old pos (got word (at + 1)) out.new result }
{
    if limit <= pos {
        return None;
    }
    out[pos] = word;
    Some((at + 1, pos + 1, 0))
}

// The own words of the accepted type at `at` and the types below it, before the rules. Many types are plain, and these are the first to be asked for.
#[cycle(rebuild_below_rebuild_next_rebuild_parts_rebuild_types)]
fn rebuild_parts(
    words: &[u32],
    pairs: &[u32],
    text: &[u8],
    rules: &[u32],
    table: &[u16; 160],
    k: usize,
    at: usize,
    out: &mut [u32],
    pos: usize,
    limit: usize,
) -> Option<(usize, usize, usize)>
    requires { Good pairs.now text.now × Ruled rules.now pairs.now text.now table.now k × Readable (tree_at words.now pairs.now at)
        × (pos ≤ limit) × (limit ≤ length out.old) }
    ensures { PartsRebuild (mapping rules.now pairs.now text.now) words.now pairs.now at limit out.old pos
        out.new result }
{
    let word = words[at];
    if word < PLAIN_KINDS {
        return add_plain(word, at, out, pos, limit);
    }
    let behind = encoding::pass_head(words, at, 1);
    let next = behind.next;
    let p = add_words(words, at, next - at, out, pos, limit)?;
    let kids = behind.due;
    rebuild_below(
        words, pairs, text, rules, table, k, next, kids, out, p, limit,
    )
}

// The types below a head; most heads have none, and those need no call.
#[cycle(rebuild_below_rebuild_next_rebuild_parts_rebuild_types)]
fn rebuild_below(
    words: &[u32],
    pairs: &[u32],
    text: &[u8],
    rules: &[u32],
    table: &[u16; 160],
    k: usize,
    at: usize,
    n: usize,
    out: &mut [u32],
    pos: usize,
    limit: usize,
) -> Option<(usize, usize, usize)>
    requires { Good pairs.now text.now × Ruled rules.now pairs.now text.now table.now k × (at ≤ length words.now)
        × Readable (read_types (tree_at words.now pairs.now) n at) × (pos ≤ limit) × (limit ≤ length out.old) }
    ensures { TypesRebuild (mapping rules.now pairs.now text.now) limit out.old pos
        (read_types (tree_at words.now pairs.now) n at) out.new result }
{
    if n == 0 {
        return Some((at, pos, 0));
    }
    rebuild_types(words, pairs, text, rules, table, k, at, n, out, pos, limit)
}

// `n` accepted types, rebuilt one after the other.
#[cycle(rebuild_below_rebuild_next_rebuild_parts_rebuild_types)]
fn rebuild_types(
    words: &[u32],
    pairs: &[u32],
    text: &[u8],
    rules: &[u32],
    table: &[u16; 160],
    k: usize,
    at: usize,
    n: usize,
    out: &mut [u32],
    pos: usize,
    limit: usize,
) -> Option<(usize, usize, usize)>
    requires { Good pairs.now text.now × Ruled rules.now pairs.now text.now table.now k × (at ≤ length words.now)
        × Readable (read_types (tree_at words.now pairs.now) n at) × (pos ≤ limit) × (limit ≤ length out.old) }
    ensures { TypesRebuild (mapping rules.now pairs.now text.now) limit out.old pos
        (read_types (tree_at words.now pairs.now) n at) out.new result }
{
    let mut place = at;
    let mut p = pos;
    let mut deepest = 0;
    for _ in 0..n {
        let (next, q, depth) = rebuild_next(
            words, pairs, text, rules, table, k, place, out, p, limit,
        )?;
        place = next;
        p = q;
        deepest = rebuild_rules::larger(deepest, depth);
    }
    Some((place, p, deepest))
}

// The accepted type at `at`, rebuilt. The cycle is entered by a list of one type: then one function of it calls itself.
pub fn rebuild_type(
    words: &[u32],
    pairs: &[u32],
    text: &[u8],
    rules: &[u32],
    table: &[u16; 160],
    k: usize,
    at: usize,
    out: &mut [u32],
    pos: usize,
    limit: usize,
) -> Option<(usize, usize, usize)>
    requires { Good pairs.now text.now × Ruled rules.now pairs.now text.now table.now k × Readable (tree_at words.now pairs.now at)
        × (pos ≤ limit) × (limit ≤ length out.old) }
    ensures { TypeRebuilds (mapping rules.now pairs.now text.now) limit out.old pos
        (tree_at words.now pairs.now at) out.new result }
{
    rebuild_types(words, pairs, text, rules, table, k, at, 1, out, pos, limit)
}

// ---- the call

// A call's answer, or that there was no room for it.
// Kept: an option of a result is an enum inside an enum, which by docs/DECISIONS.md was copied as a whole and waited for (older toolchain; not measured again).
#[derive(Clone, Copy)]
pub enum Attempt {
    Filled(usize),
    Denied(Refusal),
    NoRoom,
}

// What was rebuilt goes to the caller's buffer, unless it is too deep.
pub fn finish(from: &[u32], count: usize, depth: usize, out: &mut [u32]) -> Result<usize, Refusal>
    requires { (count ≤ length from.now) × (count ≤ length out.old) × (count ≤ max_words) }
    ensures { (result, out.new) ≡ laid_down out.old (Ok (record { words = take count from.now; top = count; deep = depth })) }
{
    if MAX_DEPTH < depth {
        clear(out);
        return Err(Refusal::TooDeep);
    }
    copy_words(from, 0, count, out, 0);
    Ok(count)
}

// Where nothing gives way the words come back as they are. The tree was accepted, so it is not too deep.
pub fn copy_unaltered(words: &[u32], out: &mut [u32]) -> Result<usize, Refusal>
    requires { length words.now ≤ max_words }
    ensures { (result, out.new) ≡ laid_down out.old (Ok (same_words words.now 0)) }
{
    if out.len() < words.len() {
        clear(out);
        return Err(Refusal::BufferTooShort);
    }
    finish(words, words.len(), 0, out)
}

// A declaration rebuilt by rules: its own words are kept, and each of its types is rebuilt.
#![tactic(auto)]

ghost use Rattle.std.specs.Prelude.{◌≤◌, length};
ghost use Rattle.encoding.specs.Tested.{Good};
ghost use Rattle.accepted_types.specs.Accepted.{Readable};
ghost use Rattle.declaration_walk.specs.Walks.{FieldNext};
ghost use Rattle.rebuild_type.specs.Laid.{Ruled, mapping};
ghost use Rattle.rebuild_declaration.specs.Steps.{left_in, WalkReady, Advanced, field_advance, PiecesRebuild, DeclarationRebuilds};
ghost use Rattle.rebuild_declaration.specs.Calls.{declaration_in};

use declaration_walk::{Next, Walk};

// One step of a walk that rebuilds: some own words or a type were laid down, and how deep the type is; or nothing was left; or more words would lie there
// than the limit.
// Kept: an option of the first two cases would be an enum inside an enum (docs/SPEED.md: keep an enum out of an enum; older toolchain, not measured again).
#[derive(Clone, Copy)]
pub enum Advance {
    Further {
        walk: Walk,
        pos: usize,
        depth: usize,
    },
    Finished,
    NoSpace,
}

// One step of the walk over an accepted declaration.
fn add_next(
    words: &[u32],
    pairs: &[u32],
    text: &[u8],
    rules: &[u32],
    table: &[u16; 160],
    k: usize,
    walk: Walk,
    out: &mut [u32],
    pos: usize,
    limit: usize,
) -> Advance
    requires { WalkReady words.now pairs.now text.now rules.now table.now k walk out.old pos limit }
    ensures { Advanced (mapping rules.now pairs.now text.now) words.now pairs.now walk limit
        out.old pos out.new result }
{
    let place = walk.place;
    let Ok(piece) = declaration_walk::next_piece(words, encoding::name_count(pairs), walk) else {
        return Advance::Finished;
    };
    match piece {
        Next::OwnWords(next) => {
            let count = next.place - place;
            let Some(p) = rebuild_type::add_words(words, place, count, out, pos, limit) else {
                return Advance::NoSpace;
            };
            Advance::Further {
                walk: next,
                pos: p,
                depth: 0,
            }
        }
        Next::TypeDue(_, next) => {
            let Some((end, p, depth)) = rebuild_type::rebuild_type(
                words, pairs, text, rules, table, k, place, out, pos, limit,
            ) else {
                return Advance::NoSpace;
            };
            Advance::Further {
                walk: declaration_walk::move_to(next, end),
                pos: p,
                depth,
            }
        }
        Next::Ended => Advance::Finished,
    }
}

// A field, whole: its own words and its type are two steps, and each would hand the walk over in memory.
fn add_field(
    words: &[u32],
    pairs: &[u32],
    text: &[u8],
    rules: &[u32],
    table: &[u16; 160],
    k: usize,
    walk: Walk,
    out: &mut [u32],
    pos: usize,
    limit: usize,
) -> Option<(usize, usize, usize)>
    requires { WalkReady words.now pairs.now text.now rules.now table.now k walk out.old pos limit × FieldNext walk }
    ensures { Advanced (mapping rules.now pairs.now text.now) words.now pairs.now walk limit
        out.old pos out.new (field_advance walk result) }
{
    let place = walk.place;
    let at = declaration_walk::field_type(walk);
    let p = rebuild_type::add_words(words, place, at - place, out, pos, limit)?;
    rebuild_type::rebuild_type(words, pairs, text, rules, table, k, at, out, p, limit)
}

// The fields of a list that are left, one after the other.
// Kept: no plainer: the walk counts the fields that are left, and a `for` would count them once more.
fn add_fields(
    words: &[u32],
    pairs: &[u32],
    text: &[u8],
    rules: &[u32],
    table: &[u16; 160],
    k: usize,
    walk: Walk,
    out: &mut [u32],
    pos: usize,
    limit: usize,
) -> Advance
    requires { WalkReady words.now pairs.now text.now rules.now table.now k walk out.old pos limit × FieldNext walk }
    ensures { Advanced (mapping rules.now pairs.now text.now) words.now pairs.now walk limit
        out.old pos out.new result }
{
    let mut w = walk;
    let mut p = pos;
    let mut deepest = 0;
    loop {
        let Some((next, q, depth)) = add_field(
            words, pairs, text, rules, table, k, w, out, p, limit,
        ) else {
            return Advance::NoSpace;
        };
        w = declaration_walk::past_field(w, next);
        p = q;
        deepest = rebuild_rules::larger(deepest, depth);
        if w.fields == 0 {
            return Advance::Further {
                walk: w,
                pos: p,
                depth: deepest,
            };
        }
    }
}

// Fields, or one step.
fn add_piece(
    words: &[u32],
    pairs: &[u32],
    text: &[u8],
    rules: &[u32],
    table: &[u16; 160],
    k: usize,
    walk: Walk,
    out: &mut [u32],
    pos: usize,
    limit: usize,
) -> Advance
    requires { WalkReady words.now pairs.now text.now rules.now table.now k walk out.old pos limit }
    ensures { Advanced (mapping rules.now pairs.now text.now) words.now pairs.now walk limit
        out.old pos out.new result }
{
    if declaration_walk::is_field_next(walk) {
        return add_fields(words, pairs, text, rules, table, k, walk, out, pos, limit);
    }
    add_next(words, pairs, text, rules, table, k, walk, out, pos, limit)
}

// What is left of an accepted declaration to a walk, rebuilt.
// Kept: no plainer: a walk goes on by steps of several kinds, and not by the items of a known range.
fn rebuild_rest(
    words: &[u32],
    pairs: &[u32],
    text: &[u8],
    rules: &[u32],
    table: &[u16; 160],
    k: usize,
    walk: Walk,
    out: &mut [u32],
    pos: usize,
    limit: usize,
) -> Option<(usize, usize, usize)>
    requires { WalkReady words.now pairs.now text.now rules.now table.now k walk out.old pos limit }
    ensures { PiecesRebuild (mapping rules.now pairs.now text.now) limit out.old pos
        (left_in words.now pairs.now walk) out.new result }
{
    let mut w = walk;
    let mut p = pos;
    let mut deepest = 0;
    loop {
        match add_piece(words, pairs, text, rules, table, k, w, out, p, limit) {
            Advance::Further {
                walk: next,
                pos: q,
                depth,
            } => {
                w = next;
                p = q;
                deepest = rebuild_rules::larger(deepest, depth);
            }
            Advance::Finished => {
                return Some((w.place, p, deepest));
            }
            Advance::NoSpace => {
                return None;
            }
        }
    }
}

// The accepted declaration at the front of the words, rebuilt to the front of `out`.
pub fn rebuild_declaration(
    words: &[u32],
    pairs: &[u32],
    text: &[u8],
    rules: &[u32],
    table: &[u16; 160],
    k: usize,
    out: &mut [u32],
    limit: usize,
) -> Option<(usize, usize, usize)>
    requires { Good pairs.now text.now × Ruled rules.now pairs.now text.now table.now k × Readable (declaration_in words.now pairs.now)
        × (limit ≤ length out.old) }
    ensures { DeclarationRebuilds (mapping rules.now pairs.now text.now) limit out.old
        (declaration_in words.now pairs.now) out.new result }
{
    let Ok(walk) = declaration_walk::start_walk(words, encoding::name_count(pairs), 0) else {
        return None;
    };
    let p = rebuild_type::add_words(words, 0, walk.place, out, 0, limit)?;
    rebuild_rest(words, pairs, text, rules, table, k, walk, out, p, limit)
}

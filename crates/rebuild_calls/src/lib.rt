// A type and a declaration rebuilt by rules, into a lent buffer of words.
#![tactic(auto)]

ghost use Rattle.std.specs.Prelude.{Ok, Err, Some, None, false, ◌≡◌, ◌≤◌, min, true, [], ◌∷◌, length};
ghost use Rattle.encoding.specs.Words.{max_words};
ghost use Rattle.encoding.specs.Refusals.{unless};
ghost use Rattle.encoding.specs.Scans.{ended};
ghost use Rattle.encoding.specs.Tested.{Good};
ghost use Rattle.accepted_types.specs.Accepted.{Readable};
ghost use Rattle.rebuild_spec.specs.Rules.{check_all};
ghost use Rattle.rebuild_type.specs.Laid.{Ruled, mapping};
ghost use Rattle.rebuild_type.specs.Calls.{laid_down, type_rebuilt};
ghost use Rattle.rebuild_type.specs.Attempts.{LaidRebuilds, Attempted, Fills};
ghost use Rattle.rebuild_declaration.specs.Calls.{declaration_rebuilt};
ghost use Rattle.rebuild_calls.specs.Wholes.{laid_by, whole_rebuilt};

use accept_declaration::Whole;
use encoding::Refusal;
use encoding::words::MAX_WORDS;
use rebuild_type::Attempt;

// How many words of scratch are tried first, how many then, and up to how many words a tree is tried in these.
const LITTLE_SCRATCH: usize = 128;

const MIDDLE_SCRATCH: usize = 512;

const MIDDLE_TREE: usize = 256;

// The accepted type or declaration, rebuilt to the front of `out`.
// Kept: no plainer with closures: reading and rebuilding both go by `what`, and so do the clauses of each step between them.
fn rebuild_whole(
    what: Whole,
    words: &[u32],
    pairs: &[u32],
    text: &[u8],
    rules: &[u32],
    table: &[u16; 160],
    k: usize,
    out: &mut [u32],
    limit: usize,
) -> Option<(usize, usize, usize)>
    requires { Good pairs.now text.now × Ruled rules.now pairs.now text.now table.now k
        × Readable (laid_by what words.now pairs.now (mapping rules.now pairs.now text.now)) × (limit ≤ length out.old) }
    ensures { LaidRebuilds limit out.old
        (laid_by what words.now pairs.now (mapping rules.now pairs.now text.now)) out.new result }
{
    match what {
        Whole::AType => {
            rebuild_type::rebuild_type(words, pairs, text, rules, table, k, 0, out, 0, limit)
        }
        Whole::ADeclaration => rebuild_declaration::rebuild_declaration(
            words, pairs, text, rules, table, k, out, limit,
        ),
    }
}

// The tree is rebuilt in `scratch`, since the rest of the caller's buffer must stay as it was, and more words may lie there on the way than are left at the end.
fn attempt(
    what: Whole,
    words: &[u32],
    pairs: &[u32],
    text: &[u8],
    rules: &[u32],
    table: &[u16; 160],
    k: usize,
    scratch: &mut [u32],
    out: &mut [u32],
) -> Attempt
    requires { Good pairs.now text.now × Ruled rules.now pairs.now text.now table.now k × Readable (laid_by what words.now pairs.now (mapping rules.now pairs.now text.now))
        × (length scratch.old ≤ max_words) }
    ensures { Attempted (min (length out.old) (length scratch.old)) (laid_by what words.now pairs.now (mapping rules.now pairs.now text.now)) out.old out.new result }
{
    let limit = rebuild_type::room_of(out.len(), scratch.len());
    match rebuild_whole(what, words, pairs, text, rules, table, k, scratch, limit) {
        Some((_, pos, depth)) => match rebuild_type::finish(scratch, pos, depth, out) {
            Ok(n) => Attempt::Filled(n),
            Err(r) => Attempt::Denied(r),
        },
        None => Attempt::NoRoom,
    }
}

// With as much scratch as any tree may take.
fn fill_large(
    what: Whole,
    words: &[u32],
    pairs: &[u32],
    text: &[u8],
    rules: &[u32],
    table: &[u16; 160],
    k: usize,
    out: &mut [u32],
) -> Result<usize, Refusal>
    requires { Good pairs.now text.now × Ruled rules.now pairs.now text.now table.now k × (length words.now ≤ max_words)
        × (ended (laid_by what words.now pairs.now (mapping rules.now pairs.now text.now)) ≡ Ok (length words.now)) }
    ensures { Fills (laid_by what words.now pairs.now (mapping rules.now pairs.now text.now)) out.old out.new result }
{
    let mut scratch = [0u32; MAX_WORDS];
    match attempt(what, words, pairs, text, rules, table, k, &mut scratch, out) {
        Attempt::Filled(n) => Ok(n),
        Attempt::Denied(r) => Err(r),
        Attempt::NoRoom => {
            rebuild_type::clear(out);
            Err(Refusal::BufferTooShort)
        }
    }
}

// A tree that is large, or becomes so. If no rule can match there is nothing to do: a search for that costs less than rebuilding.
fn fill_more(
    what: Whole,
    words: &[u32],
    pairs: &[u32],
    text: &[u8],
    rules: &[u32],
    table: &[u16; 160],
    k: usize,
    out: &mut [u32],
) -> Result<usize, Refusal>
    requires { Good pairs.now text.now × Ruled rules.now pairs.now text.now table.now k × (length words.now ≤ max_words)
        × (ended (laid_by what words.now pairs.now (mapping rules.now pairs.now text.now)) ≡ Ok (length words.now)) }
    ensures { Fills (laid_by what words.now pairs.now (mapping rules.now pairs.now text.now)) out.old out.new result }
{
    if rebuild_rules::none_stands(rules, pairs, text, table, k, words) {
        return rebuild_type::copy_unaltered(words, out);
    }
    if MIDDLE_TREE < words.len() {
        return fill_large(what, words, pairs, text, rules, table, k, out);
    }
    let mut scratch = [0u32; MIDDLE_SCRATCH];
    match attempt(what, words, pairs, text, rules, table, k, &mut scratch, out) {
        Attempt::Filled(n) => Ok(n),
        Attempt::Denied(r) => Err(r),
        Attempt::NoRoom => { fill_large(what, words, pairs, text, rules, table, k, out) },
    }
}

// Most trees are small: a little scratch is tried first, since a large one must be cleared before use. `fill_more` has two call sites and so a frame of its own, whose
// pages small trees need not touch.
fn fill(
    what: Whole,
    words: &[u32],
    pairs: &[u32],
    text: &[u8],
    rules: &[u32],
    table: &[u16; 160],
    k: usize,
    out: &mut [u32],
) -> Result<usize, Refusal>
    requires { Good pairs.now text.now × Ruled rules.now pairs.now text.now table.now k × (length words.now ≤ max_words)
        × (ended (laid_by what words.now pairs.now (mapping rules.now pairs.now text.now)) ≡ Ok (length words.now)) }
    ensures { Fills (laid_by what words.now pairs.now (mapping rules.now pairs.now text.now)) out.old out.new result }
{
    if LITTLE_SCRATCH < words.len() {
        return fill_more(what, words, pairs, text, rules, table, k, out);
    }
    let mut scratch = [0u32; LITTLE_SCRATCH];
    match attempt(what, words, pairs, text, rules, table, k, &mut scratch, out) {
        Attempt::Filled(n) => Ok(n),
        Attempt::Denied(r) => Err(r),
        Attempt::NoRoom => {
            // The limit was the caller's, so more scratch would not help.
            if out.len() <= LITTLE_SCRATCH {
                rebuild_type::clear(out);
                return Err(Refusal::BufferTooShort);
            }
            fill_more(what, words, pairs, text, rules, table, k, out)
        }
    }
}

// Whether a list says that it holds no rule.
fn holds_no_rule(rules: &[u32]) -> bool
    ensures { result ≡ true → rules.now ≡ 0 ∷ [] }
{
    matches!(rules, [0])
}

// The tables hold: the tree is read, then the rules, and then the tree is rebuilt. Without rules there is nothing to rebuild.
fn read_and_fill(
    what: Whole,
    words: &[u32],
    pairs: &[u32],
    text: &[u8],
    rules: &[u32],
    out: &mut [u32],
) -> Result<usize, Refusal>
    requires { Good pairs.now text.now × (length words.now ≤ max_words) × (length rules.now ≤ max_words) }
    ensures { (result, out.new) ≡ laid_down out.old (whole_rebuilt what words.now pairs.now text.now rules.now) }
{
    let end = accept_declaration::accept(what, words, pairs, text)?;
    if end != words.len() {
        return Err(Refusal::LeftOver);
    }
    if holds_no_rule(rules) {
        return rebuild_type::copy_unaltered(words, out);
    }
    // Positions need no more than 16 bits, and a table must be cleared before use.
    let mut table = [0u16; 160];
    let k = rebuild_rules::read_rules(rules, pairs, text, &mut table)?;
    fill(what, words, pairs, text, rules, &table, k, out)
}

// The tables are tested first, those of the rules with those of the tree.
fn rebuild_by(
    what: Whole,
    words: &[u32],
    pairs: &[u32],
    text: &[u8],
    rules: &[u32],
    out: &mut [u32],
) -> Result<usize, Refusal>
    ensures { (result, out.new) ≡ laid_down out.old
        (unless (check_all words.now rules.now pairs.now text.now) (whole_rebuilt what words.now pairs.now text.now rules.now)) }
{
    rebuild_rules::check_all(words, rules, pairs, text)?;
    read_and_fill(what, words, pairs, text, rules, out)
}

// The type that an encoding holds, rebuilt by the rules of a list: `ReplaceMap`. Its words fill the front of `out`.
pub fn type_rebuild(
    words: &[u32],
    pairs: &[u32],
    text: &[u8],
    rules: &[u32],
    out: &mut [u32],
) -> Result<usize, Refusal>
    ensures { (result, out.new) ≡ laid_down out.old (type_rebuilt words.now pairs.now text.now rules.now) }
{
    rebuild_by(Whole::AType, words, pairs, text, rules, out)
}

// The declaration that an encoding holds, each of its types rebuilt: `RASTBottomUpReplacer`. Its words fill the front of `out`.
pub fn declaration_rebuild(
    words: &[u32],
    pairs: &[u32],
    text: &[u8],
    rules: &[u32],
    out: &mut [u32],
) -> Result<usize, Refusal>
    ensures { (result, out.new) ≡ laid_down out.old (declaration_rebuilt words.now pairs.now text.now rules.now) }
{
    rebuild_by(Whole::ADeclaration, words, pairs, text, rules, out)
}

// Visit lists: the positions of the types that `Type.Fold` and the visitor of declarations go through, in their order.
#![tactic(auto)]

ghost use Rattle.std.specs.Prelude.{◌≡◌, true, [], ◌∷◌, ◌≤◌, ◌<◌, ◌^◌, length};
ghost use Rattle.buffer.specs.Wrote.{Wrote};
ghost use Rattle.encoding.specs.Words.{max_words};
ghost use Rattle.encoding.specs.Tables.{name_count};
ghost use Rattle.encoding.specs.Tested.{Good};
ghost use Rattle.encoding.specs.Declarations.{declaration_at};
ghost use Rattle.accepted_types.specs.Accepted.{Readable};
ghost use Rattle.visits.specs.Visited.{is_entered, type_visits, declaration_visits};
ghost use Rattle.encoding.specs.Filled.{filled};
ghost use Rattle.visits.specs.Passes.{TypesDue, Visited, TypePassed, Ahead, Going, EntersField, Done, Entered, AllVisited, FillsWords, whole_visits};
ghost use Rattle.accept_declaration.specs.Ends.{held_at};
ghost use Rattle.accept_declaration.specs.declared.Whole.TheVariants.{AType, ADeclaration};

use accept_declaration::Whole;
use accepted_types::Spot;
use declaration_walk::{After, Next, Role, Walk};
use encoding::Refusal;
use encoding::words::T_SYNONYM;

// One position, if the buffer goes so far. It counts either way.
fn put_place(place: usize, out: &mut [u32], pos: usize) -> usize
    requires { (place < 2 ^ 32) × (pos < 2 ^ 63) }
    ensures { Wrote out.old pos (place ∷ []) out.new result }
{
    if pos < out.len() {
        out[pos] = place as u32;
    }
    pos + 1
}

// The `due` types at `at`, which were accepted. Each head leaves as many types due as follow it, but for a synonym's base: that is passed over. Few displays hold a
// synonym themselves, so they are left to `visit_type`, which the compiler puts in place of its call here.
#[cycle(visit_type_visit_types)]
fn visit_types(
    words: &[u32],
    pairs: &[u32],
    text: &[u8],
    at: usize,
    due: usize,
    out: &mut [u32],
    pos: usize,
) -> Spot
    requires { TypesDue words.now pairs.now text.now at due pos }
    ensures { Visited words.now pairs.now text.now at due out.old pos out.new result }
{
    let mut place = at;
    let mut left = due;
    let mut p = pos;
    // Kept: the new form is no plainer, since each head says anew how many types are left.
    while 0 < left {
        let w = words[place];
        p = put_place(place, out, p);
        if w == T_SYNONYM {
            let shown = visit_type(words, pairs, text, place + 1, out, p);
            place = accepted_types::skip_type(words, pairs, text, shown.next);
            left -= 1;
            p = shown.pos;
            continue;
        }
        let onward = encoding::pass_kind(words, w, place, left);
        left = onward.due;
        place = onward.next;
    }
    Spot {
        next: place,
        pos: p,
    }
}

// The type at `at`, which was accepted. Most types hold no synonym: these need no call of a function that calls itself, to which all slices go through memory.
#[cycle(visit_type_visit_types)]
fn visit_type(
    words: &[u32],
    pairs: &[u32],
    text: &[u8],
    at: usize,
    out: &mut [u32],
    pos: usize,
) -> Spot
    requires { TypesDue words.now pairs.now text.now at 1 pos }
    ensures { Visited words.now pairs.now text.now at 1 out.old pos out.new result }
{
    let mut place = at;
    let mut left = 1;
    let mut p = pos;
    // Kept: the new form is no plainer, since each head says anew how many types are left.
    while 0 < left {
        let w = words[place];
        if w == T_SYNONYM {
            let rest = visit_types(words, pairs, text, place, left, out, p);
            return Spot {
                next: rest.next,
                pos: rest.pos,
            };
        }
        p = put_place(place, out, p);
        let onward = encoding::pass_kind(words, w, place, left);
        left = onward.due;
        place = onward.next;
    }
    Spot {
        next: place,
        pos: p,
    }
}

// ---- declarations

// Whether the source's visitor enters the types of a role: a struct's fields are not visited.
fn is_entered(role: Role) -> bool
    ensures { result ≡ is_entered role }
{
    match role {
        Role::Constraint => true,
        Role::StructField => false,
        Role::CaseField => true,
        Role::Aliased => true,
    }
}

// The type at `at`, which was accepted: visited if its role is entered, else passed over.
fn pass_type(
    words: &[u32],
    pairs: &[u32],
    text: &[u8],
    role: Role,
    at: usize,
    out: &mut [u32],
    pos: usize,
) -> Spot
    requires { TypesDue words.now pairs.now text.now at 1 pos }
    ensures { TypePassed words.now pairs.now text.now role at out.old pos out.new result }
{
    if is_entered(role) {
        return visit_types(words, pairs, text, at, 1, out, pos);
    }
    Spot {
        next: accepted_types::skip_type(words, pairs, text, at),
        pos,
    }
}

// A walk on its way, and how many positions were laid down.
#[derive(Clone, Copy, Debug, PartialEq, Eq)]
struct Reached {
    walk: Walk,
    pos: usize,
}

// The fields that come next, which were accepted. Only steps that are no fields hand the walk over in memory.
fn visit_fields(
    words: &[u32],
    pairs: &[u32],
    text: &[u8],
    walk: Walk,
    out: &mut [u32],
    pos: usize,
) -> Reached
    requires { Ahead words.now pairs.now text.now walk × EntersField walk × (pos ≤ walk.place) }
    ensures { Going words.now pairs.now text.now walk out.old pos result.walk out.new result.pos
        × (walk.place < result.walk.place) }
{
    let mut w = walk;
    let mut p = pos;
    // Kept: the new form is no plainer, since the walk itself counts its fields down.
    while 0 < w.fields {
        let spot = visit_type(words, pairs, text, declaration_walk::field_type(w), out, p);
        w = declaration_walk::past_field(w, spot.next);
        p = spot.pos;
    }
    Reached { walk: w, pos: p }
}

// Whether a field comes next whose type is entered.
fn enters_field(walk: Walk) -> bool
    ensures { result ≡ true → EntersField walk }
{
    declaration_walk::is_field_next(walk) && is_entered(walk.role)
}

// Whether nothing is left to a walk that is entered. A struct without parameters needs no further step.
fn is_done(walk: Walk) -> bool
    ensures { result ≡ true → Done walk }
{
    if walk.types != 0 || walk.parameters != 0 || walk.cases != 0 {
        return false;
    }
    match walk.after {
        After::FieldList(role) => !is_entered(role),
        After::CaseList | After::OneType => false,
        After::NoMore => walk.fields == 0,
    }
}

// The types that a walk comes to, which were accepted. The answer is how many positions there are.
fn visit_walk(
    words: &[u32],
    pairs: &[u32],
    text: &[u8],
    bound: usize,
    walk: Walk,
    out: &mut [u32],
) -> usize
    requires { (bound ≡ name_count pairs.now) × Ahead words.now pairs.now text.now walk }
    ensures { Entered words.now pairs.now text.now walk out.old out.new result }
{
    let mut w = walk;
    let mut p = 0;
    // Kept: no plainer as a `for`, since no range is counted: the walk goes on by steps of several kinds, and says which is the last.
    loop {
        if enters_field(w) {
            let behind = visit_fields(words, pairs, text, w, out, p);
            w = behind.walk;
            p = behind.pos;
            continue;
        }
        if is_done(w) {
            return p;
        }
        let Ok(piece) = declaration_walk::next_piece(words, bound, w) else {
            return p;
        };
        match piece {
            Next::OwnWords(next) => {
                w = next;
                continue;
            }
            Next::TypeDue(role, next) => {
                let spot = pass_type(words, pairs, text, role, w.place, out, p);
                w = declaration_walk::move_to(next, spot.next);
                p = spot.pos;
            }
            Next::Ended => return p,
        }
    }
}

// The declaration at 0, which was accepted.
fn visit_declaration(words: &[u32], pairs: &[u32], text: &[u8], out: &mut [u32]) -> usize
    requires { (length words.now ≤ max_words) × Readable (declaration_at words.now pairs.now text.now 0) }
    ensures { AllVisited ADeclaration words.now pairs.now text.now out.old out.new result }
{
    let bound = encoding::name_count(pairs);
    match declaration_walk::start_walk(words, bound, 0) {
        Ok(walk) => visit_walk(words, pairs, text, bound, walk, out),
        Err(_) => 0,
    }
}

// ---- either

// The type or the declaration at 0, which was accepted.
fn visit_whole(what: Whole, words: &[u32], pairs: &[u32], text: &[u8], out: &mut [u32]) -> usize
    requires { (length words.now ≤ max_words) × Readable (held_at what words.now pairs.now text.now) }
    ensures { AllVisited what words.now pairs.now text.now out.old out.new result }
{
    match what {
        Whole::AType => {
            let all = visit_types(words, pairs, text, 0, 1, out, 0);
            all.pos
        }
        Whole::ADeclaration => visit_declaration(words, pairs, text, out),
    }
}

// A tree is accepted, and its list counted, before a position is written, since a refusal leaves the buffer unchanged. There are no more positions than words: only a
// shorter buffer needs a count first.
fn fill_short(
    what: Whole,
    words: &[u32],
    pairs: &[u32],
    text: &[u8],
    out: &mut [u32],
) -> Result<usize, Refusal>
    requires { (length words.now ≤ max_words) × FillsWords what words.now pairs.now text.now }
    ensures { (result, out.new) ≡ filled out.old (whole_visits what words.now pairs.now text.now) }
{
    let mut none = [0u32; 0];
    if out.len() < visit_whole(what, words, pairs, text, &mut none) {
        return Err(Refusal::BufferTooShort);
    }
    Ok(visit_whole(what, words, pairs, text, out))
}

// The list of the type that fills the words.
fn fill_type(words: &[u32], pairs: &[u32], text: &[u8], out: &mut [u32]) -> Result<usize, Refusal>
    requires { Good pairs.now text.now × (length words.now ≤ max_words) }
    ensures { (result, out.new) ≡ filled out.old (whole_visits AType words.now pairs.now text.now) }
{
    let next = accept_type::accept_type(words, pairs, text, 0, 0)?;
    if next != words.len() {
        return Err(Refusal::LeftOver);
    }
    if out.len() < words.len() {
        return fill_short(Whole::AType, words, pairs, text, out);
    }
    let all = visit_type(words, pairs, text, 0, out, 0);
    Ok(all.pos)
}

// The list of the declaration that fills the words.
// Kept: the new form is no plainer: one function for both would take what accepts and what visits as two closures, the second over a borrowed buffer.
fn fill_declaration(
    words: &[u32],
    pairs: &[u32],
    text: &[u8],
    out: &mut [u32],
) -> Result<usize, Refusal>
    requires { Good pairs.now text.now × (length words.now ≤ max_words) }
    ensures { (result, out.new) ≡ filled out.old (whole_visits ADeclaration words.now pairs.now text.now) }
{
    let end = accept_declaration::accept_declaration(words, pairs, text, 0)?;
    if end != words.len() {
        return Err(Refusal::LeftOver);
    }
    if out.len() < words.len() {
        return fill_short(Whole::ADeclaration, words, pairs, text, out);
    }
    Ok(visit_declaration(words, pairs, text, out))
}

// The visit list of the type that an encoding holds, in the front of `out`.
pub fn type_visit(
    words: &[u32],
    pairs: &[u32],
    text: &[u8],
    out: &mut [u32],
) -> Result<usize, Refusal>
    ensures { (result, out.new) ≡ filled out.old (type_visits words.now pairs.now text.now) }
{
    encoding::check_tables(words, pairs, text)?;
    fill_type(words, pairs, text, out)
}

// The visit list of the declaration that an encoding holds, in the front of `out`.
pub fn declaration_visit(
    words: &[u32],
    pairs: &[u32],
    text: &[u8],
    out: &mut [u32],
) -> Result<usize, Refusal>
    ensures { (result, out.new) ≡ filled out.old (declaration_visits words.now pairs.now text.now) }
{
    encoding::check_tables(words, pairs, text)?;
    fill_declaration(words, pairs, text, out)
}

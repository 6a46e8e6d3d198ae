// The type at initialization, into a lent buffer of words: under a pointer, an array's elements become `MaybeUninit`.
#![tactic(auto)]

ghost use Rattle.std.specs.Prelude.{Ok, Err, Some, None, true, false, ◌≡◌, ◌+◌, ◌-◌, ◌<◌, ◌≤◌, length, nat_lt};
ghost use Rattle.std.proofs.lemmas.List.Edits.{sets};
ghost use Rattle.encoding.specs.Words.{max_words, max_depth};
ghost use Rattle.encoding.specs.Reading.{whole};
ghost use Rattle.encoding.specs.Scans.{map_reading};
ghost use Rattle.encoding.specs.Tables.{name_bytes};
ghost use Rattle.encoding.specs.Tested.{Good};
ghost use Rattle.encoding.specs.Types.{type_at};
ghost use Rattle.tree_words.specs.Numbered.{tree_at};
ghost use Rattle.accepted_types.specs.Accepted.{Readable};
ghost use Rattle.rebuild_rules.specs.Scans.{depth_of};
ghost use Rattle.tree_words.specs.Renamed.{renamed};
ghost use Rattle.shapes.specs.Accepted.{acceptance};
ghost use Rattle.shapes.specs.Initialization.{own_number, new_underlying};
ghost use Rattle.rebuild_type.specs.Calls.{laid_down};
ghost use Rattle.rebuild_type.specs.Attempts.{Fills};
ghost use Rattle.rebuild_initial.specs.Initialized.{whole_initialized, type_within, initial_words, new_array, pointer_name, Becomes, Named, OfRuntime, Points, Shallow, FillsWhole};
ghost use Rattle.rebuild_initial.specs.Calls.{laid_init, type_initialized};

use encoding::Refusal;
use encoding::words::{
    ARRAY, DAFNY_RUNTIME, GLOBAL, MAX_DEPTH, MAX_WORDS, MAYBE_UNINIT, MEM, OBJECT, PTR, STD,
    TYPE_APP, TYPE_FROM_PATH,
};
use known_paths::Class;

// The words of `::std::mem::MaybeUninit` of a type, before those of the type.
const UNINIT: [u32; 8] = [
    TYPE_APP,
    1,
    TYPE_FROM_PATH,
    GLOBAL,
    3,
    STD,
    MEM,
    MAYBE_UNINIT,
];

// ---- the pointer

// Whether a member of `dafny_runtime` is applied to one type there. It is seen by the words: the member's name is then the seventh, and the type stands behind it.
// Kept: `starts_with` would lay out the five words that are asked for at each use (docs/SPEED.md, constant tables; older toolchain, not tried).
fn is_of_runtime(words: &[u32], pairs: &[u32], text: &[u8], at: usize) -> bool
    requires { Good pairs.now text.now × Readable (type_at words.now pairs.now text.now at) }
    ensures { OfRuntime words.now pairs.now text.now at result }
{
    if words[at] != TYPE_APP {
        return false;
    }
    if words[at + 1] != 1 {
        return false;
    }
    let base = at + 2;
    if words[base] != TYPE_FROM_PATH {
        return false;
    }
    if words[base + 1] != GLOBAL {
        return false;
    }
    if words[base + 2] != 2 {
        return false;
    }
    encoding::is_name(
        pairs,
        text,
        words[base + 3],
        DAFNY_RUNTIME,
        b"dafny_runtime",
    )
}

// The number of the name that an `Object` becomes: one behind wrappers becomes a `Ptr`.
fn object_name(place: usize) -> u32
    ensures { result ≡ pointer_name place }
{
    if place == 0 {
        return OBJECT;
    }
    PTR
}

// The pointer that the type at the front is, behind its wrappers.
fn find_pointer(words: &[u32], pairs: &[u32], text: &[u8]) -> Option<(u32, usize)>
    requires { Good pairs.now text.now × Readable (tree_at words.now pairs.now 0) }
    ensures { Points words.now pairs.now text.now result }
{
    let place = unwrap::expand(words, pairs, text, 0);
    if !is_of_runtime(words, pairs, text, place) {
        return None;
    }
    let member = words[place + 6];
    if encoding::is_name(pairs, text, member, OBJECT, b"Object") {
        return Some((object_name(place), place + 7));
    }
    if encoding::is_name(pairs, text, member, PTR, b"Ptr") {
        return Some((PTR, place + 7));
    }
    None
}

// ---- the array

// An array without a size, by its element, else a `MultiArray`, which may be wrapped.
fn array_at(words: &[u32], pairs: &[u32], text: &[u8], at: usize) -> Option<(usize, usize)>
    requires { Good pairs.now text.now × Readable (tree_at words.now pairs.now at) }
    ensures { Becomes (new_underlying own_number (renamed (name_bytes pairs.now text.now))) 1 words.now pairs.now at result }
{
    if words[at] == ARRAY {
        if words[at + 1] == 0 {
            return Some((at, at + 2));
        }
        return None;
    }
    let start = unwrap::expand(words, pairs, text, at);
    if words[start] != TYPE_APP {
        return None;
    }
    let element = known_paths::first_argument(words, pairs, text, Class::ArrayClass, start)?;
    Some((start, element))
}

// ---- laying it down

// The pointer, the array's own words, `MaybeUninit`, and the element.
fn write_array(words: &[u32], name: u32, start: usize, element: usize, end: usize, out: &mut [u32])
    requires { (start ≤ element) × (element ≤ end) × (end ≤ length words.now) × (15 + (end - start) ≤ length out.old) }
    ensures { out.new ≡ sets out.old 0 (initial_words words.now name start element end) }
{
    let pointer = [TYPE_APP, 1, TYPE_FROM_PATH, GLOBAL, 2, DAFNY_RUNTIME, name];
    let uninit = UNINIT;
    let own = element - start;
    rebuild_type::copy_words(&pointer, 0, 7, out, 0);
    rebuild_type::copy_words(words, start, own, out, 7);
    rebuild_type::copy_words(&uninit, 0, 8, out, 7 + own);
    rebuild_type::copy_words(words, element, end - element, out, 15 + own);
}

// How deep an element may be, three types around it.
const DEEPEST_ELEMENT: usize = MAX_DEPTH - 3;

// Whether an element is too deep inside `MaybeUninit`, an array and a pointer. Only in a type as deep as any may be it can be.
fn is_too_deep(words: &[u32], pairs: &[u32], element: usize, deepest: bool) -> bool
    requires { Shallow words.now pairs.now element deepest }
    ensures { result ≡ nat_lt 61 (depth_of (tree_at words.now pairs.now element)) }
{
    if !deepest {
        return false;
    }
    DEEPEST_ELEMENT < rebuild_rules::depth_in(words, pairs, element, words.len() - element)
}

// A type whose array changes: its words and its depth are known before anything is written. The element reaches to the end of the words.
fn change(
    words: &[u32],
    pairs: &[u32],
    text: &[u8],
    name: u32,
    start: usize,
    element: usize,
    deepest: bool,
    out: &mut [u32],
) -> Result<usize, Refusal>
    requires { (length words.now ≤ max_words) × FillsWhole words.now pairs.now deepest × Named (name_bytes pairs.now text.now) (tree_at words.now pairs.now 0) name
        × Becomes (new_array (name_bytes pairs.now text.now)) 2 words.now pairs.now 0 (Some (start, element)) }
    ensures { Fills (map_reading (laid_init (name_bytes pairs.now text.now)) (tree_at words.now pairs.now 0)) out.old out.new result }
{
    let end = words.len();
    let count = 15 + (end - start);
    if rebuild_type::room_of(out.len(), MAX_WORDS) < count {
        rebuild_type::clear(out);
        return Err(Refusal::BufferTooShort);
    }
    if is_too_deep(words, pairs, element, deepest) {
        rebuild_type::clear(out);
        return Err(Refusal::TooDeep);
    }
    write_array(words, name, start, element, end, out);
    Ok(count)
}

// ---- the call

// A type under a pointer, which changes or stays.
fn initialize_under(
    words: &[u32],
    pairs: &[u32],
    text: &[u8],
    name: u32,
    at: usize,
    deepest: bool,
    out: &mut [u32],
) -> Result<usize, Refusal>
    requires { Good pairs.now text.now × (length words.now ≤ max_words) × FillsWhole words.now pairs.now deepest × Points words.now pairs.now text.now (Some (name, at)) }
    ensures { Fills (map_reading (laid_init (name_bytes pairs.now text.now)) (tree_at words.now pairs.now 0)) out.old out.new result }
{
    match array_at(words, pairs, text, at) {
        Some((start, element)) => { change(words, pairs, text, name, start, element, deepest, out) }
        None => rebuild_type::copy_unaltered(words, out),
    }
}

// The accepted type that the words hold; `deepest` if it may be as deep as any.
fn initialize(
    words: &[u32],
    pairs: &[u32],
    text: &[u8],
    deepest: bool,
    out: &mut [u32],
) -> Result<usize, Refusal>
    requires { Good pairs.now text.now × (length words.now ≤ max_words) × FillsWhole words.now pairs.now deepest }
    ensures { Fills (map_reading (laid_init (name_bytes pairs.now text.now)) (tree_at words.now pairs.now 0)) out.old out.new result }
{
    match find_pointer(words, pairs, text) {
        Some((name, at)) => { initialize_under(words, pairs, text, name, at, deepest, out) }
        None => rebuild_type::copy_unaltered(words, out),
    }
}

// Whether a type fills the words that is less deep than it may be, by `inside` types.
fn accept_within(words: &[u32], pairs: &[u32], text: &[u8], inside: usize) -> Result<(), Refusal>
    requires { Good pairs.now text.now × (length words.now ≤ max_words) × (inside < max_depth) }
    ensures { result ≡ acceptance (whole (length words.now) (type_within (max_depth - inside) words.now pairs.now text.now)) }
{
    let next = accept_type::accept_type(words, pairs, text, 0, inside)?;
    if next != words.len() {
        return Err(Refusal::LeftOver);
    }
    Ok(())
}

// The tables hold, and the type may be as deep as any, if there is one.
fn initialize_deepest(
    words: &[u32],
    pairs: &[u32],
    text: &[u8],
    out: &mut [u32],
) -> Result<usize, Refusal>
    requires { Good pairs.now text.now × (length words.now ≤ max_words) }
    ensures { (result, out.new) ≡ laid_down out.old (whole_initialized words.now pairs.now text.now) }
{
    accept_within(words, pairs, text, 0)?;
    initialize(words, pairs, text, true, out)
}

// The tables hold. A type that is less deep than it may be is not too deep with one `MaybeUninit` more, so most types are gone through once.
fn accept_and_initialize(
    words: &[u32],
    pairs: &[u32],
    text: &[u8],
    out: &mut [u32],
) -> Result<usize, Refusal>
    requires { Good pairs.now text.now × (length words.now ≤ max_words) }
    ensures { (result, out.new) ≡ laid_down out.old (whole_initialized words.now pairs.now text.now) }
{
    match accept_within(words, pairs, text, 1) {
        Ok(()) => initialize(words, pairs, text, false, out),
        Err(_) => initialize_deepest(words, pairs, text, out),
    }
}

// The type that an encoding holds, as it stands at initialization: `TypeAtInitialization`. Its words fill the front of `out`.
pub fn type_at_initialization(
    words: &[u32],
    pairs: &[u32],
    text: &[u8],
    out: &mut [u32],
) -> Result<usize, Refusal>
    ensures { (result, out.new) ≡ laid_down out.old (type_initialized words.now pairs.now text.now) }
{
    encoding::check_tables(words, pairs, text)?;
    accept_and_initialize(words, pairs, text, out)
}

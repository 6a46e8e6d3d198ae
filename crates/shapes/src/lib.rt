// Shapes of the type that an encoding holds: RAST's yes-or-no answers, and where the parts that they speak of stand.
#![tactic(auto)]

ghost use Rattle.std.specs.Prelude.{Bool, ◌≡◌, ◌≤◌, length};
ghost use Rattle.rast.specs.Bytes.{Bytes, ◌or◌};
ghost use Rattle.rast.specs.Tree.{Ty};
ghost use Rattle.encoding.specs.Words.{max_words};
ghost use Rattle.encoding.specs.Refusals.{map_answer};
ghost use Rattle.encoding.specs.Reading.{whole};
ghost use Rattle.encoding.specs.Tested.{Good};
ghost use Rattle.encoding.specs.Types.{type_at, type_of};
ghost use Rattle.accepted_types.specs.Accepted.{Readable};
ghost use Rattle.unwrap.specs.Asked.{Judges};
ghost use Rattle.known_paths.specs.Asked.{Finds};
ghost use Rattle.known_paths.specs.Matches.{unsized};
ghost use Rattle.shapes.specs.Accepted.{name_step, name_kind, acceptance};
ghost use Rattle.shapes.specs.Parts.{removed_at, owned_at, BoxDynUnderlying, MultiArrayUnderlying, ObjectOrPointerUnderlying, GetBuiltinCollectionElement, uninit_element, ExtractMaybeUninitArrayElement};
ghost use Rattle.shapes.specs.Shapes.{EndsWithNameThatCanAcceptGenerics, IsAutoSize, CanReadWithoutClone, IsRcOrBorrowedRc, IsMultiArray, IsMaybeUninit, IsUninitArray, IsBox, NeedsAsRefForBorrow, IsObject, IsPointer, IsObjectOrPointer, IsBuiltinCollection, IsRc, IsBoxDyn, uninit_cases};

use encoding::Refusal;
use encoding::words::{
    ARRAY, BOOL, BORROWED, BORROWED_MUT, COPY_SEMANTICS, DYN_TYPE, IMPL_TYPE, INTERSECTION_TYPE,
    PLAIN_KINDS, T_IDENTIFIER, T_META_DATA, T_SYNONYM, TYPE_FROM_PATH, USIZE,
};
use known_paths::Class;

// ---- on an accepted type: wrappers

// Where the type that `RemoveSynonyms` gives stands: behind every wrapper, a synonym's display being followed.
pub fn remove_wrappers(words: &[u32], pairs: &[u32], text: &[u8], at: usize) -> usize
    requires { Readable (type_at words.now pairs.now text.now at) }
    ensures { Judges (λ t. (removed_at at t).at) (type_at words.now pairs.now text.now at) result }
{
    let mut place = at;
    // Kept: no plainer as a `for`, since no range is counted: a turn follows a type into the type, and the word there says which is the last.
    loop {
        let w = words[place];
        if w == T_SYNONYM {
            place += 1;
        } else if w == T_META_DATA {
            place += 2;
        } else {
            return place;
        }
    }
}

// Where the type that `ToOwned` gives stands.
pub fn owned(words: &[u32], pairs: &[u32], text: &[u8], at: usize) -> usize
    requires { Readable (type_at words.now pairs.now text.now at) }
    ensures { Judges (λ t. (owned_at at t).at) (type_at words.now pairs.now text.now at) result }
{
    let w = words[at];
    if w == BORROWED {
        return at + 1;
    }
    if w == BORROWED_MUT {
        return at + 1;
    }
    at
}

// ---- on an accepted type: parts

// `MultiArrayUnderlying`
pub fn multi_array_part(words: &[u32], pairs: &[u32], text: &[u8], at: usize) -> Option<usize>
    requires { Good pairs.now text.now × Readable (type_at words.now pairs.now text.now at) }
    ensures { Finds MultiArrayUnderlying (type_at words.now pairs.now text.now) at result }
{
    known_paths::first_argument(
        words,
        pairs,
        text,
        Class::ArrayClass,
        unwrap::expand(words, pairs, text, at),
    )
}

// `ObjectOrPointerUnderlying`
pub fn object_or_pointer_part(words: &[u32], pairs: &[u32], text: &[u8], at: usize) -> Option<usize>
    requires { Good pairs.now text.now × Readable (type_at words.now pairs.now text.now at) }
    ensures { Finds ObjectOrPointerUnderlying (type_at words.now pairs.now text.now) at result }
{
    let place = unwrap::expand(words, pairs, text, at);
    let Some(part) = known_paths::first_argument(words, pairs, text, Class::PtrClass, place) else {
        return known_paths::first_argument(words, pairs, text, Class::ObjectClass, place);
    };
    Some(part)
}

// `GetBuiltinCollectionElement`: of a Map the second argument
pub fn collection_part(words: &[u32], pairs: &[u32], text: &[u8], at: usize) -> Option<usize>
    requires { Good pairs.now text.now × Readable (type_at words.now pairs.now text.now at) }
    ensures { Finds GetBuiltinCollectionElement (type_at words.now pairs.now text.now) at result }
{
    let place = unwrap::expand(words, pairs, text, at);
    let Some(key) = known_paths::first_argument(words, pairs, text, Class::MapClass, place) else {
        return known_paths::first_argument(words, pairs, text, Class::Collection, place);
    };
    Some(accepted_types::skip_type(words, pairs, text, key))
}

// `BoxDynUnderlying`
pub fn box_dyn_part(words: &[u32], pairs: &[u32], text: &[u8], at: usize) -> Option<usize>
    requires { Good pairs.now text.now × Readable (type_at words.now pairs.now text.now at) }
    ensures { Finds BoxDynUnderlying (type_at words.now pairs.now text.now) at result }
{
    let Some(place) = known_paths::first_argument(words, pairs, text, Class::Boxed, at) else {
        return None;
    };
    if words[place] == DYN_TYPE {
        return Some(place + 1);
    }
    None
}

// The element of an array, or of a `MultiArray`, if it is `MaybeUninit`: what that holds.
fn uninit_part(words: &[u32], pairs: &[u32], text: &[u8], at: usize) -> Option<usize>
    requires { Good pairs.now text.now × Readable (type_at words.now pairs.now text.now at) }
    ensures { Finds uninit_element (type_at words.now pairs.now text.now) at result }
{
    if words[at] == ARRAY {
        return known_paths::first_argument(words, pairs, text, Class::Uninit, at + 2);
    }
    let Some(place) = multi_array_part(words, pairs, text, at) else {
        return None;
    };
    known_paths::first_argument(words, pairs, text, Class::Uninit, place)
}

// `ExtractMaybeUninitArrayElement`
pub fn uninit_array_part(words: &[u32], pairs: &[u32], text: &[u8], at: usize) -> Option<usize>
    requires { Good pairs.now text.now × Readable (type_at words.now pairs.now text.now at) }
    ensures { Finds ExtractMaybeUninitArrayElement (type_at words.now pairs.now text.now) at result }
{
    let Some(place) = object_or_pointer_part(words, pairs, text, at) else {
        return None;
    };
    uninit_part(words, pairs, text, place)
}

// ---- on an accepted type: shapes

// Whether an expanded type is an array without a size, or a `MultiArray`, of `MaybeUninit`.
fn holds_uninit(words: &[u32], pairs: &[u32], text: &[u8], at: usize) -> bool
    requires { Good pairs.now text.now × Readable (type_at words.now pairs.now text.now at) }
    ensures { Judges (λ s. uninit_cases (unsized s) s) (type_at words.now pairs.now text.now at) result }
{
    if words[at] == ARRAY {
        if words[at + 1] == 0 {
            return known_paths::is_of(words, pairs, text, Class::Uninit, at + 2);
        }
        return false;
    }
    let Some(place) = known_paths::first_argument(words, pairs, text, Class::ArrayClass, at) else {
        return false;
    };
    known_paths::is_of(words, pairs, text, Class::Uninit, place)
}

// `IsUninitArray`
fn is_uninit_array_at(words: &[u32], pairs: &[u32], text: &[u8], at: usize) -> bool
    requires { Good pairs.now text.now × Readable (type_at words.now pairs.now text.now at) }
    ensures { Judges IsUninitArray (type_at words.now pairs.now text.now at) result }
{
    let Some(place) = object_or_pointer_part(words, pairs, text, at) else {
        return false;
    };
    holds_uninit(
        words,
        pairs,
        text,
        unwrap::expand(words, pairs, text, place),
    )
}

// `IsRcOrBorrowedRc`: through shared borrows and synonyms' bases
fn is_rc_or_borrowed_at(words: &[u32], pairs: &[u32], text: &[u8], at: usize) -> bool
    requires { Good pairs.now text.now × Readable (type_at words.now pairs.now text.now at) }
    ensures { Judges IsRcOrBorrowedRc (type_at words.now pairs.now text.now at) result }
{
    let mut place = at;
    // Kept: no plainer as a `for`, since no range is counted: a turn follows a type into the type, and the word there says which is the last.
    loop {
        let w = words[place];
        if w == BORROWED {
            place += 1;
        } else if w == T_SYNONYM {
            place = accepted_types::skip_type(words, pairs, text, place + 1);
        } else {
            return known_paths::is_of(words, pairs, text, Class::Counted, place);
        }
    }
}

// `CanReadWithoutClone`: through metadata and synonyms' bases; a primitive or a `Ptr`, or metadata that says so
fn can_read_at(words: &[u32], pairs: &[u32], text: &[u8], at: usize) -> bool
    requires { Good pairs.now text.now × Readable (type_at words.now pairs.now text.now at) }
    ensures { Judges CanReadWithoutClone (type_at words.now pairs.now text.now at) result }
{
    let mut place = at;
    // Kept: no plainer as a `for`, since no range is counted: a turn follows a type into the type, and the word there says which is the last.
    loop {
        let w = words[place];
        if w < PLAIN_KINDS {
            return true;
        }
        if w == T_SYNONYM {
            place = accepted_types::skip_type(words, pairs, text, place + 1);
        } else if w == T_META_DATA {
            if words[place + 1] % 2 == COPY_SEMANTICS {
                return true;
            }
            place += 2;
        } else {
            return known_paths::is_of(words, pairs, text, Class::PtrClass, place);
        }
    }
}

// How many own words stand before the type that `EndsWithNameThatCanAcceptGenerics` goes on to: 0 where it goes on to none. An intersection's left type comes before its right one.
fn name_step(kind: u32) -> usize
    ensures { result ≡ name_step kind }
{
    match kind {
        BORROWED | BORROWED_MUT | IMPL_TYPE | DYN_TYPE | T_SYNONYM => 1,
        T_META_DATA => 2,
        _ => 0,
    }
}

// A type of this kind is a name itself, or a number of fixed size.
fn is_name_kind(kind: u32) -> bool
    ensures { result ≡ name_kind kind }
{
    if kind < USIZE {
        return true;
    }
    if kind == T_IDENTIFIER {
        return true;
    }
    kind == TYPE_FROM_PATH
}

// `EndsWithNameThatCanAcceptGenerics`
fn ends_with_name_at(words: &[u32], pairs: &[u32], text: &[u8], at: usize) -> bool
    requires { Readable (type_at words.now pairs.now text.now at) }
    ensures { Judges EndsWithNameThatCanAcceptGenerics (type_at words.now pairs.now text.now at) result }
{
    let mut place = at;
    // Kept: no plainer as a `for`, since no range is counted: a turn follows a type into the type, and the word there says which is the last.
    loop {
        let w = words[place];
        if w == INTERSECTION_TYPE {
            place = accepted_types::skip_type(words, pairs, text, place + 1);
        } else {
            let own = name_step(w);
            if own == 0 {
                return is_name_kind(w);
            }
            place += own;
        }
    }
}

// `IsAutoSize`
fn is_auto_size_at(words: &[u32], pairs: &[u32], text: &[u8], at: usize) -> bool
    requires { Readable (type_at words.now pairs.now text.now at) }
    ensures { Judges IsAutoSize (type_at words.now pairs.now text.now at) result }
{
    words[unwrap::expand(words, pairs, text, at)] < BOOL
}

fn is_box_or_rc(words: &[u32], pairs: &[u32], text: &[u8], at: usize) -> bool
    requires { Good pairs.now text.now × Readable (type_at words.now pairs.now text.now at) }
    ensures { Judges (λ t. IsBox t or IsRc t) (type_at words.now pairs.now text.now at) result }
{
    if known_paths::is_of(words, pairs, text, Class::Boxed, at) {
        return true;
    }
    known_paths::is_of(words, pairs, text, Class::Counted, at)
}

// `NeedsAsRefForBorrow`
fn needs_as_ref_at(words: &[u32], pairs: &[u32], text: &[u8], at: usize) -> bool
    requires { Good pairs.now text.now × Readable (type_at words.now pairs.now text.now at) }
    ensures { Judges NeedsAsRefForBorrow (type_at words.now pairs.now text.now at) result }
{
    if words[at] == BORROWED {
        return is_box_or_rc(words, pairs, text, at + 1);
    }
    is_box_or_rc(words, pairs, text, at)
}

// `IsMultiArray`
fn is_multi_array_at(words: &[u32], pairs: &[u32], text: &[u8], at: usize) -> bool
    requires { Good pairs.now text.now × Readable (type_at words.now pairs.now text.now at) }
    ensures { Judges IsMultiArray (type_at words.now pairs.now text.now at) result }
{
    let place = unwrap::expand(words, pairs, text, at);
    known_paths::is_of(words, pairs, text, Class::ArrayClass, place)
}

// `IsObjectOrPointer`
fn is_object_or_pointer_at(words: &[u32], pairs: &[u32], text: &[u8], at: usize) -> bool
    requires { Good pairs.now text.now × Readable (type_at words.now pairs.now text.now at) }
    ensures { Judges IsObjectOrPointer (type_at words.now pairs.now text.now at) result }
{
    let place = unwrap::expand(words, pairs, text, at);
    if known_paths::is_of(words, pairs, text, Class::PtrClass, place) {
        return true;
    }
    known_paths::is_of(words, pairs, text, Class::ObjectClass, place)
}

// `IsBuiltinCollection`
fn is_collection_at(words: &[u32], pairs: &[u32], text: &[u8], at: usize) -> bool
    requires { Good pairs.now text.now × Readable (type_at words.now pairs.now text.now at) }
    ensures { Judges IsBuiltinCollection (type_at words.now pairs.now text.now at) result }
{
    let place = unwrap::expand(words, pairs, text, at);
    if known_paths::is_of(words, pairs, text, Class::Collection, place) {
        return true;
    }
    known_paths::is_of(words, pairs, text, Class::MapClass, place)
}

// `IsBoxDyn`
fn is_box_dyn_at(words: &[u32], pairs: &[u32], text: &[u8], at: usize) -> bool
    requires { Good pairs.now text.now × Readable (type_at words.now pairs.now text.now at) }
    ensures { Judges IsBoxDyn (type_at words.now pairs.now text.now at) result }
{
    box_dyn_part(words, pairs, text, at).is_some()
}

// ---- the public calls

// Whether a type fills the words.
fn accept_words(words: &[u32], pairs: &[u32], text: &[u8]) -> Result<(), Refusal>
    requires { Good pairs.now text.now × (length words.now ≤ max_words) }
    ensures { result ≡ acceptance (whole (length words.now) (type_at words.now pairs.now text.now 0)) }
{
    let next = accept_type::accept_type(words, pairs, text, 0, 0)?;
    if next != words.len() {
        return Err(Refusal::LeftOver);
    }
    Ok(())
}

// Whether the encoding holds a type, or the refusal.
pub fn accept(words: &[u32], pairs: &[u32], text: &[u8]) -> Result<(), Refusal>
    ensures { result ≡ acceptance (type_of words.now pairs.now text.now) }
{
    encoding::check_tables(words, pairs, text)?;
    accept_words(words, pairs, text)
}

// What a question says of the type that the encoding holds, or the refusal.
fn ask<F: FnOnce() -> bool>(
    words: &[u32],
    pairs: &[u32],
    text: &[u8],
    question: F,
) -> Result<bool, Refusal>
    requires { (Good pairs.now text.now × Readable (type_at words.now pairs.now text.now 0)) → F.pre question }
    ensures { (asked : Ty Bytes → Bool) → ((b : Bool) → F.post question b → Judges asked (type_at words.now pairs.now text.now 0) b)
        → result ≡ map_answer asked (type_of words.now pairs.now text.now) }
{
    accept(words, pairs, text)?;
    Ok(question())
}

// `EndsWithNameThatCanAcceptGenerics`
pub fn ends_with_name_that_can_accept_generics(
    words: &[u32],
    pairs: &[u32],
    text: &[u8],
) -> Result<bool, Refusal>
    ensures { result ≡ map_answer EndsWithNameThatCanAcceptGenerics (type_of words.now pairs.now text.now) }
{
    let question = || ends_with_name_at(words, pairs, text, 0);
    ask(words, pairs, text, question)
}

// `IsAutoSize`
pub fn is_auto_size(words: &[u32], pairs: &[u32], text: &[u8]) -> Result<bool, Refusal>
    ensures { result ≡ map_answer IsAutoSize (type_of words.now pairs.now text.now) }
{
    let question = || is_auto_size_at(words, pairs, text, 0);
    ask(words, pairs, text, question)
}

// `CanReadWithoutClone`
pub fn can_read_without_clone(words: &[u32], pairs: &[u32], text: &[u8]) -> Result<bool, Refusal>
    ensures { result ≡ map_answer CanReadWithoutClone (type_of words.now pairs.now text.now) }
{
    let question = || can_read_at(words, pairs, text, 0);
    ask(words, pairs, text, question)
}

// `IsRcOrBorrowedRc`
pub fn is_rc_or_borrowed_rc(words: &[u32], pairs: &[u32], text: &[u8]) -> Result<bool, Refusal>
    ensures { result ≡ map_answer IsRcOrBorrowedRc (type_of words.now pairs.now text.now) }
{
    let question = || is_rc_or_borrowed_at(words, pairs, text, 0);
    ask(words, pairs, text, question)
}

// `IsMultiArray`
pub fn is_multi_array(words: &[u32], pairs: &[u32], text: &[u8]) -> Result<bool, Refusal>
    ensures { result ≡ map_answer IsMultiArray (type_of words.now pairs.now text.now) }
{
    let question = || is_multi_array_at(words, pairs, text, 0);
    ask(words, pairs, text, question)
}

// `IsMaybeUninit`
pub fn is_maybe_uninit(words: &[u32], pairs: &[u32], text: &[u8]) -> Result<bool, Refusal>
    ensures { result ≡ map_answer IsMaybeUninit (type_of words.now pairs.now text.now) }
{
    let question = || known_paths::is_of(words, pairs, text, Class::Uninit, 0);
    ask(words, pairs, text, question)
}

// `IsUninitArray`
pub fn is_uninit_array(words: &[u32], pairs: &[u32], text: &[u8]) -> Result<bool, Refusal>
    ensures { result ≡ map_answer IsUninitArray (type_of words.now pairs.now text.now) }
{
    let question = || is_uninit_array_at(words, pairs, text, 0);
    ask(words, pairs, text, question)
}

// `IsBox`
pub fn is_box(words: &[u32], pairs: &[u32], text: &[u8]) -> Result<bool, Refusal>
    ensures { result ≡ map_answer IsBox (type_of words.now pairs.now text.now) }
{
    let question = || known_paths::is_of(words, pairs, text, Class::Boxed, 0);
    ask(words, pairs, text, question)
}

// `NeedsAsRefForBorrow`
pub fn needs_as_ref_for_borrow(words: &[u32], pairs: &[u32], text: &[u8]) -> Result<bool, Refusal>
    ensures { result ≡ map_answer NeedsAsRefForBorrow (type_of words.now pairs.now text.now) }
{
    let question = || needs_as_ref_at(words, pairs, text, 0);
    ask(words, pairs, text, question)
}

// `IsObject`
pub fn is_object(words: &[u32], pairs: &[u32], text: &[u8]) -> Result<bool, Refusal>
    ensures { result ≡ map_answer IsObject (type_of words.now pairs.now text.now) }
{
    let question = || known_paths::is_of(words, pairs, text, Class::ObjectClass, 0);
    ask(words, pairs, text, question)
}

// `IsPointer`
pub fn is_pointer(words: &[u32], pairs: &[u32], text: &[u8]) -> Result<bool, Refusal>
    ensures { result ≡ map_answer IsPointer (type_of words.now pairs.now text.now) }
{
    let question = || known_paths::is_of(words, pairs, text, Class::PtrClass, 0);
    ask(words, pairs, text, question)
}

// `IsObjectOrPointer`
pub fn is_object_or_pointer(words: &[u32], pairs: &[u32], text: &[u8]) -> Result<bool, Refusal>
    ensures { result ≡ map_answer IsObjectOrPointer (type_of words.now pairs.now text.now) }
{
    let question = || is_object_or_pointer_at(words, pairs, text, 0);
    ask(words, pairs, text, question)
}

// `IsBuiltinCollection`
pub fn is_builtin_collection(words: &[u32], pairs: &[u32], text: &[u8]) -> Result<bool, Refusal>
    ensures { result ≡ map_answer IsBuiltinCollection (type_of words.now pairs.now text.now) }
{
    let question = || is_collection_at(words, pairs, text, 0);
    ask(words, pairs, text, question)
}

// `IsRc`
pub fn is_rc(words: &[u32], pairs: &[u32], text: &[u8]) -> Result<bool, Refusal>
    ensures { result ≡ map_answer IsRc (type_of words.now pairs.now text.now) }
{
    let question = || known_paths::is_of(words, pairs, text, Class::Counted, 0);
    ask(words, pairs, text, question)
}

// `IsBoxDyn`
pub fn is_box_dyn(words: &[u32], pairs: &[u32], text: &[u8]) -> Result<bool, Refusal>
    ensures { result ≡ map_answer IsBoxDyn (type_of words.now pairs.now text.now) }
{
    let question = || is_box_dyn_at(words, pairs, text, 0);
    ask(words, pairs, text, question)
}

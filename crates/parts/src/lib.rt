// Parts of the type that an encoding holds: where each stands, and the part of the caller's words itself.
#![tactic(auto)]

ghost use Rattle.std.specs.Prelude.{◌≡◌};
ghost use Rattle.encoding.specs.Tested.{Good};
ghost use Rattle.encoding.specs.Types.{type_at};
ghost use Rattle.accepted_types.specs.Accepted.{Readable};
ghost use Rattle.known_paths.specs.Asked.{Finds};
ghost use Rattle.shapes.specs.Parts.{RemoveSynonyms, ExpandAt, ToOwned, MultiArrayUnderlying, BoxUnderlying, ObjectOrPointerUnderlying, RcUnderlying, BoxDynUnderlying, GetBuiltinCollectionElement, ExtractMaybePlacebo, ExtractMaybeUninitArrayElement};
ghost use Rattle.parts.specs.Answers.{part_of, part_words};
ghost use Rattle.parts.specs.Asked.{part_for, Spans};

use encoding::Refusal;
use known_paths::Class;

// The words of a part: from where, and how many.
#[derive(Clone, Copy, Debug, PartialEq, Eq, Hash)]
pub struct Span {
    pub start: usize,
    pub length: usize,
}

// The parts, each named after its call.
#[derive(Clone, Copy, Debug, PartialEq, Eq)]
enum Wanted {
    Removed,
    Expanded,
    Owned,
    OfMultiArray,
    OfBox,
    OfPointer,
    OfRc,
    OfBoxDyn,
    OfCollection,
    OfPlacebo,
    OfUninitArray,
}

// Where a part of an accepted type stands.
// Kept: no plainer as a closure at each call, since each of the 22 would have to show that what it finds stands where it says; `part-keeps` shows it once for every variant.
fn find(words: &[u32], pairs: &[u32], text: &[u8], wanted: Wanted, at: usize) -> Option<usize>
    requires { Good pairs.now text.now × Readable (type_at words.now pairs.now text.now at) }
    ensures { Finds (part_for wanted) (type_at words.now pairs.now text.now) at result }
{
    match wanted {
        Wanted::Removed => Some(shapes::remove_wrappers(words, pairs, text, at)),
        Wanted::Expanded => Some(unwrap::expand(words, pairs, text, at)),
        Wanted::Owned => Some(shapes::owned(words, pairs, text, at)),
        Wanted::OfMultiArray => shapes::multi_array_part(words, pairs, text, at),
        Wanted::OfBox => known_paths::first_argument(words, pairs, text, Class::Boxed, at),
        Wanted::OfPointer => shapes::object_or_pointer_part(words, pairs, text, at),
        Wanted::OfRc => known_paths::first_argument(words, pairs, text, Class::Counted, at),
        Wanted::OfBoxDyn => shapes::box_dyn_part(words, pairs, text, at),
        Wanted::OfCollection => shapes::collection_part(words, pairs, text, at),
        Wanted::OfPlacebo => known_paths::first_argument(words, pairs, text, Class::Placebo, at),
        Wanted::OfUninitArray => shapes::uninit_array_part(words, pairs, text, at),
    }
}

// A part of an accepted type that stands at 0.
fn part_at(words: &[u32], pairs: &[u32], text: &[u8], wanted: Wanted) -> Result<Span, Refusal>
    requires { Good pairs.now text.now × Readable (type_at words.now pairs.now text.now 0) }
    ensures { Spans (part_for wanted) (type_at words.now pairs.now text.now 0) result }
{
    let Some(start) = find(words, pairs, text, wanted, 0) else {
        return Err(Refusal::NoSuchPart);
    };
    let length = accepted_types::skip_type(words, pairs, text, start) - start;
    Ok(Span { start, length })
}

// A part of the type that the encoding holds.
fn part_in(words: &[u32], pairs: &[u32], text: &[u8], wanted: Wanted) -> Result<Span, Refusal>
    ensures { result ≡ part_of (part_for wanted) words.now pairs.now text.now }
{
    shapes::accept(words, pairs, text)?;
    part_at(words, pairs, text, wanted)
}

// The words of that part, none when refused.
fn words_in<'a>(words: &'a [u32], pairs: &[u32], text: &[u8], wanted: Wanted) -> &'a [u32]
    ensures { result.now ≡ part_words words.now (part_of (part_for wanted) words.now pairs.now text.now) }
{
    let Ok(Span { start, length }) = part_in(words, pairs, text, wanted) else {
        return &words[..0];
    };
    &words[start..start + length]
}

// `RemoveSynonyms`: where it stands, and its words
pub fn remove_synonyms_at(words: &[u32], pairs: &[u32], text: &[u8]) -> Result<Span, Refusal>
    ensures { result ≡ part_of RemoveSynonyms words.now pairs.now text.now }
{
    part_in(words, pairs, text, Wanted::Removed)
}

pub fn remove_synonyms<'a>(words: &'a [u32], pairs: &[u32], text: &[u8]) -> &'a [u32]
    ensures { result.now ≡ part_words words.now (part_of RemoveSynonyms words.now pairs.now text.now) }
{
    words_in(words, pairs, text, Wanted::Removed)
}

// `Expand`: where it stands, and its words. It ends where the type ends that fills the words.
pub fn expand_at(words: &[u32], pairs: &[u32], text: &[u8]) -> Result<Span, Refusal>
    ensures { result ≡ part_of ExpandAt words.now pairs.now text.now }
{
    shapes::accept(words, pairs, text)?;
    let start = unwrap::expand(words, pairs, text, 0);
    let length = words.len() - start;
    Ok(Span { start, length })
}

pub fn expand<'a>(words: &'a [u32], pairs: &[u32], text: &[u8]) -> &'a [u32]
    ensures { result.now ≡ part_words words.now (part_of ExpandAt words.now pairs.now text.now) }
{
    words_in(words, pairs, text, Wanted::Expanded)
}

// `ToOwned`: where it stands, and its words
pub fn to_owned_at(words: &[u32], pairs: &[u32], text: &[u8]) -> Result<Span, Refusal>
    ensures { result ≡ part_of ToOwned words.now pairs.now text.now }
{
    part_in(words, pairs, text, Wanted::Owned)
}

pub fn to_owned<'a>(words: &'a [u32], pairs: &[u32], text: &[u8]) -> &'a [u32]
    ensures { result.now ≡ part_words words.now (part_of ToOwned words.now pairs.now text.now) }
{
    words_in(words, pairs, text, Wanted::Owned)
}

// `MultiArrayUnderlying`: where it stands, and its words
pub fn multi_array_underlying_at(words: &[u32], pairs: &[u32], text: &[u8]) -> Result<Span, Refusal>
    ensures { result ≡ part_of MultiArrayUnderlying words.now pairs.now text.now }
{
    part_in(words, pairs, text, Wanted::OfMultiArray)
}

pub fn multi_array_underlying<'a>(words: &'a [u32], pairs: &[u32], text: &[u8]) -> &'a [u32]
    ensures { result.now ≡ part_words words.now (part_of MultiArrayUnderlying words.now pairs.now text.now) }
{
    words_in(words, pairs, text, Wanted::OfMultiArray)
}

// `BoxUnderlying`: where it stands, and its words
pub fn box_underlying_at(words: &[u32], pairs: &[u32], text: &[u8]) -> Result<Span, Refusal>
    ensures { result ≡ part_of BoxUnderlying words.now pairs.now text.now }
{
    part_in(words, pairs, text, Wanted::OfBox)
}

pub fn box_underlying<'a>(words: &'a [u32], pairs: &[u32], text: &[u8]) -> &'a [u32]
    ensures { result.now ≡ part_words words.now (part_of BoxUnderlying words.now pairs.now text.now) }
{
    words_in(words, pairs, text, Wanted::OfBox)
}

// `ObjectOrPointerUnderlying`: where it stands, and its words
pub fn object_or_pointer_underlying_at(
    words: &[u32],
    pairs: &[u32],
    text: &[u8],
) -> Result<Span, Refusal>
    ensures { result ≡ part_of ObjectOrPointerUnderlying words.now pairs.now text.now }
{
    part_in(words, pairs, text, Wanted::OfPointer)
}

pub fn object_or_pointer_underlying<'a>(words: &'a [u32], pairs: &[u32], text: &[u8]) -> &'a [u32]
    ensures { result.now ≡ part_words words.now (part_of ObjectOrPointerUnderlying words.now pairs.now text.now) }
{
    words_in(words, pairs, text, Wanted::OfPointer)
}

// `RcUnderlying`: where it stands, and its words
pub fn rc_underlying_at(words: &[u32], pairs: &[u32], text: &[u8]) -> Result<Span, Refusal>
    ensures { result ≡ part_of RcUnderlying words.now pairs.now text.now }
{
    part_in(words, pairs, text, Wanted::OfRc)
}

pub fn rc_underlying<'a>(words: &'a [u32], pairs: &[u32], text: &[u8]) -> &'a [u32]
    ensures { result.now ≡ part_words words.now (part_of RcUnderlying words.now pairs.now text.now) }
{
    words_in(words, pairs, text, Wanted::OfRc)
}

// `BoxDynUnderlying`: where it stands, and its words
pub fn box_dyn_underlying_at(words: &[u32], pairs: &[u32], text: &[u8]) -> Result<Span, Refusal>
    ensures { result ≡ part_of BoxDynUnderlying words.now pairs.now text.now }
{
    part_in(words, pairs, text, Wanted::OfBoxDyn)
}

pub fn box_dyn_underlying<'a>(words: &'a [u32], pairs: &[u32], text: &[u8]) -> &'a [u32]
    ensures { result.now ≡ part_words words.now (part_of BoxDynUnderlying words.now pairs.now text.now) }
{
    words_in(words, pairs, text, Wanted::OfBoxDyn)
}

// `GetBuiltinCollectionElement`: where it stands, and its words
pub fn get_builtin_collection_element_at(
    words: &[u32],
    pairs: &[u32],
    text: &[u8],
) -> Result<Span, Refusal>
    ensures { result ≡ part_of GetBuiltinCollectionElement words.now pairs.now text.now }
{
    part_in(words, pairs, text, Wanted::OfCollection)
}

pub fn get_builtin_collection_element<'a>(words: &'a [u32], pairs: &[u32], text: &[u8]) -> &'a [u32]
    ensures { result.now ≡ part_words words.now (part_of GetBuiltinCollectionElement words.now pairs.now text.now) }
{
    words_in(words, pairs, text, Wanted::OfCollection)
}

// `ExtractMaybePlacebo`: where it stands, and its words
pub fn extract_maybe_placebo_at(words: &[u32], pairs: &[u32], text: &[u8]) -> Result<Span, Refusal>
    ensures { result ≡ part_of ExtractMaybePlacebo words.now pairs.now text.now }
{
    part_in(words, pairs, text, Wanted::OfPlacebo)
}

pub fn extract_maybe_placebo<'a>(words: &'a [u32], pairs: &[u32], text: &[u8]) -> &'a [u32]
    ensures { result.now ≡ part_words words.now (part_of ExtractMaybePlacebo words.now pairs.now text.now) }
{
    words_in(words, pairs, text, Wanted::OfPlacebo)
}

// `ExtractMaybeUninitArrayElement`: where it stands, and its words
pub fn extract_maybe_uninit_array_element_at(
    words: &[u32],
    pairs: &[u32],
    text: &[u8],
) -> Result<Span, Refusal>
    ensures { result ≡ part_of ExtractMaybeUninitArrayElement words.now pairs.now text.now }
{
    part_in(words, pairs, text, Wanted::OfUninitArray)
}

pub fn extract_maybe_uninit_array_element<'a>(
    words: &'a [u32],
    pairs: &[u32],
    text: &[u8],
) -> &'a [u32]
    ensures { result.now ≡ part_words words.now (part_of ExtractMaybeUninitArrayElement words.now pairs.now text.now) }
{
    words_in(words, pairs, text, Wanted::OfUninitArray)
}

// The exported calls, for C and Rust. Each calls one proved function and turns its answer into a number.
#![tactic(auto)]

ghost use Rattle.std.specs.Prelude.{◌≡◌};
ghost use Rattle.encoding.specs.Filled.{filled};
ghost use Rattle.text_calls.specs.Calls.{type_text, path_text};
ghost use Rattle.text_declaration_call.specs.Calls.{declaration_text};
ghost use Rattle.sound_type.specs.Calls.{type_is_sound};
ghost use Rattle.encoding.specs.Refusals.{map_answer};
ghost use Rattle.encoding.specs.Types.{type_of};
ghost use Rattle.rebuild_type.specs.Calls.{laid_down, type_rebuilt};
ghost use Rattle.shapes.specs.Shapes.{EndsWithNameThatCanAcceptGenerics, IsAutoSize, CanReadWithoutClone, IsRcOrBorrowedRc, IsMultiArray, IsMaybeUninit, IsUninitArray, IsBox, NeedsAsRefForBorrow, IsObject, IsPointer, IsObjectOrPointer, IsBuiltinCollection, IsRc, IsBoxDyn};
ghost use Rattle.shapes.specs.Parts.{RemoveSynonyms, ExpandAt, ToOwned, MultiArrayUnderlying, BoxUnderlying, ObjectOrPointerUnderlying, RcUnderlying, BoxDynUnderlying, GetBuiltinCollectionElement, ExtractMaybePlacebo, ExtractMaybeUninitArrayElement};
ghost use Rattle.rebuild_declaration.specs.Calls.{declaration_rebuilt};
ghost use Rattle.parts.specs.Answers.{part_of};
ghost use Rattle.rebuild_initial.specs.Calls.{type_initialized};
ghost use Rattle.visits.specs.Visited.{type_visits, declaration_visits};
ghost use Rattle.answer_numbers.specs.Numbers.{count_call, truth_number, part_number};

// ---- texts and soundness

#[unsafe(no_mangle)]
pub extern "C" fn tillercoral_type_text(
    words: &[u32],
    pairs: &[u32],
    text: &[u8],
    level: u32,
    out: &mut [u8],
) -> u64
    ensures { (result, out.new) ≡ count_call (filled out.old (type_text words.now pairs.now text.now level)) }
{
    answer_numbers::count_number(text_calls::type_text(words, pairs, text, level, out))
}

#[unsafe(no_mangle)]
pub extern "C" fn tillercoral_path_text(
    words: &[u32],
    pairs: &[u32],
    text: &[u8],
    level: u32,
    out: &mut [u8],
) -> u64
    ensures { (result, out.new) ≡ count_call (filled out.old (path_text words.now pairs.now text.now level)) }
{
    answer_numbers::count_number(text_calls::path_text(words, pairs, text, level, out))
}

#[unsafe(no_mangle)]
pub extern "C" fn tillercoral_declaration_text(
    words: &[u32],
    pairs: &[u32],
    text: &[u8],
    level: u32,
    out: &mut [u8],
) -> u64
    ensures { (result, out.new) ≡ count_call (filled out.old (declaration_text words.now pairs.now text.now level)) }
{
    answer_numbers::count_number(text_declaration_call::declaration_text(
        words, pairs, text, level, out,
    ))
}

#[unsafe(no_mangle)]
pub extern "C" fn tillercoral_type_is_sound(words: &[u32], pairs: &[u32], text: &[u8]) -> u64
    ensures { result ≡ truth_number (type_is_sound words.now pairs.now text.now) }
{
    answer_numbers::truth_number(sound_type::type_is_sound(words, pairs, text))
}

// ---- rebuilt trees

#[unsafe(no_mangle)]
pub extern "C" fn tillercoral_type_rebuild(
    words: &[u32],
    pairs: &[u32],
    text: &[u8],
    rules: &[u32],
    out: &mut [u32],
) -> u64
    ensures { (result, out.new) ≡ count_call (laid_down out.old (type_rebuilt words.now pairs.now text.now rules.now)) }
{
    answer_numbers::count_number(rebuild_calls::type_rebuild(words, pairs, text, rules, out))
}

#[unsafe(no_mangle)]
pub extern "C" fn tillercoral_declaration_rebuild(
    words: &[u32],
    pairs: &[u32],
    text: &[u8],
    rules: &[u32],
    out: &mut [u32],
) -> u64
    ensures { (result, out.new) ≡ count_call (laid_down out.old (declaration_rebuilt words.now pairs.now text.now rules.now)) }
{
    answer_numbers::count_number(rebuild_calls::declaration_rebuild(words, pairs, text, rules, out))
}

#[unsafe(no_mangle)]
pub extern "C" fn tillercoral_type_at_initialization(
    words: &[u32],
    pairs: &[u32],
    text: &[u8],
    out: &mut [u32],
) -> u64
    ensures { (result, out.new) ≡ count_call (laid_down out.old (type_initialized words.now pairs.now text.now)) }
{
    answer_numbers::count_number(rebuild_initial::type_at_initialization(words, pairs, text, out))
}

// ---- visit lists

#[unsafe(no_mangle)]
pub extern "C" fn tillercoral_type_visit(
    words: &[u32],
    pairs: &[u32],
    text: &[u8],
    out: &mut [u32],
) -> u64
    ensures { (result, out.new) ≡ count_call (filled out.old (type_visits words.now pairs.now text.now)) }
{
    answer_numbers::count_number(visits::type_visit(words, pairs, text, out))
}

#[unsafe(no_mangle)]
pub extern "C" fn tillercoral_declaration_visit(
    words: &[u32],
    pairs: &[u32],
    text: &[u8],
    out: &mut [u32],
) -> u64
    ensures { (result, out.new) ≡ count_call (filled out.old (declaration_visits words.now pairs.now text.now)) }
{
    answer_numbers::count_number(visits::declaration_visit(words, pairs, text, out))
}

// ---- shapes

#[unsafe(no_mangle)]
pub extern "C" fn tillercoral_ends_with_name_that_can_accept_generics(
    words: &[u32],
    pairs: &[u32],
    text: &[u8],
) -> u64
    ensures { result ≡ truth_number (map_answer EndsWithNameThatCanAcceptGenerics (type_of words.now pairs.now text.now)) }
{
    answer_numbers::truth_number(shapes::ends_with_name_that_can_accept_generics(
        words, pairs, text,
    ))
}

#[unsafe(no_mangle)]
pub extern "C" fn tillercoral_is_auto_size(words: &[u32], pairs: &[u32], text: &[u8]) -> u64
    ensures { result ≡ truth_number (map_answer IsAutoSize (type_of words.now pairs.now text.now)) }
{
    answer_numbers::truth_number(shapes::is_auto_size(words, pairs, text))
}

#[unsafe(no_mangle)]
pub extern "C" fn tillercoral_can_read_without_clone(
    words: &[u32],
    pairs: &[u32],
    text: &[u8],
) -> u64
    ensures { result ≡ truth_number (map_answer CanReadWithoutClone (type_of words.now pairs.now text.now)) }
{
    answer_numbers::truth_number(shapes::can_read_without_clone(words, pairs, text))
}

#[unsafe(no_mangle)]
pub extern "C" fn tillercoral_is_rc_or_borrowed_rc(words: &[u32], pairs: &[u32], text: &[u8]) -> u64
    ensures { result ≡ truth_number (map_answer IsRcOrBorrowedRc (type_of words.now pairs.now text.now)) }
{
    answer_numbers::truth_number(shapes::is_rc_or_borrowed_rc(words, pairs, text))
}

#[unsafe(no_mangle)]
pub extern "C" fn tillercoral_is_multi_array(words: &[u32], pairs: &[u32], text: &[u8]) -> u64
    ensures { result ≡ truth_number (map_answer IsMultiArray (type_of words.now pairs.now text.now)) }
{
    answer_numbers::truth_number(shapes::is_multi_array(words, pairs, text))
}

#[unsafe(no_mangle)]
pub extern "C" fn tillercoral_is_maybe_uninit(words: &[u32], pairs: &[u32], text: &[u8]) -> u64
    ensures { result ≡ truth_number (map_answer IsMaybeUninit (type_of words.now pairs.now text.now)) }
{
    answer_numbers::truth_number(shapes::is_maybe_uninit(words, pairs, text))
}

#[unsafe(no_mangle)]
pub extern "C" fn tillercoral_is_uninit_array(words: &[u32], pairs: &[u32], text: &[u8]) -> u64
    ensures { result ≡ truth_number (map_answer IsUninitArray (type_of words.now pairs.now text.now)) }
{
    answer_numbers::truth_number(shapes::is_uninit_array(words, pairs, text))
}

#[unsafe(no_mangle)]
pub extern "C" fn tillercoral_is_box(words: &[u32], pairs: &[u32], text: &[u8]) -> u64
    ensures { result ≡ truth_number (map_answer IsBox (type_of words.now pairs.now text.now)) }
{
    answer_numbers::truth_number(shapes::is_box(words, pairs, text))
}

#[unsafe(no_mangle)]
pub extern "C" fn tillercoral_needs_as_ref_for_borrow(
    words: &[u32],
    pairs: &[u32],
    text: &[u8],
) -> u64
    ensures { result ≡ truth_number (map_answer NeedsAsRefForBorrow (type_of words.now pairs.now text.now)) }
{
    answer_numbers::truth_number(shapes::needs_as_ref_for_borrow(words, pairs, text))
}

#[unsafe(no_mangle)]
pub extern "C" fn tillercoral_is_object(words: &[u32], pairs: &[u32], text: &[u8]) -> u64
    ensures { result ≡ truth_number (map_answer IsObject (type_of words.now pairs.now text.now)) }
{
    answer_numbers::truth_number(shapes::is_object(words, pairs, text))
}

#[unsafe(no_mangle)]
pub extern "C" fn tillercoral_is_pointer(words: &[u32], pairs: &[u32], text: &[u8]) -> u64
    ensures { result ≡ truth_number (map_answer IsPointer (type_of words.now pairs.now text.now)) }
{
    answer_numbers::truth_number(shapes::is_pointer(words, pairs, text))
}

#[unsafe(no_mangle)]
pub extern "C" fn tillercoral_is_object_or_pointer(words: &[u32], pairs: &[u32], text: &[u8]) -> u64
    ensures { result ≡ truth_number (map_answer IsObjectOrPointer (type_of words.now pairs.now text.now)) }
{
    answer_numbers::truth_number(shapes::is_object_or_pointer(words, pairs, text))
}

#[unsafe(no_mangle)]
pub extern "C" fn tillercoral_is_builtin_collection(
    words: &[u32],
    pairs: &[u32],
    text: &[u8],
) -> u64
    ensures { result ≡ truth_number (map_answer IsBuiltinCollection (type_of words.now pairs.now text.now)) }
{
    answer_numbers::truth_number(shapes::is_builtin_collection(words, pairs, text))
}

#[unsafe(no_mangle)]
pub extern "C" fn tillercoral_is_rc(words: &[u32], pairs: &[u32], text: &[u8]) -> u64
    ensures { result ≡ truth_number (map_answer IsRc (type_of words.now pairs.now text.now)) }
{
    answer_numbers::truth_number(shapes::is_rc(words, pairs, text))
}

#[unsafe(no_mangle)]
pub extern "C" fn tillercoral_is_box_dyn(words: &[u32], pairs: &[u32], text: &[u8]) -> u64
    ensures { result ≡ truth_number (map_answer IsBoxDyn (type_of words.now pairs.now text.now)) }
{
    answer_numbers::truth_number(shapes::is_box_dyn(words, pairs, text))
}

// ---- parts

#[unsafe(no_mangle)]
pub extern "C" fn tillercoral_remove_synonyms(words: &[u32], pairs: &[u32], text: &[u8]) -> u64
    ensures { result ≡ part_number (part_of RemoveSynonyms words.now pairs.now text.now) }
{
    answer_numbers::part_number(parts::remove_synonyms_at(words, pairs, text))
}

#[unsafe(no_mangle)]
pub extern "C" fn tillercoral_expand(words: &[u32], pairs: &[u32], text: &[u8]) -> u64
    ensures { result ≡ part_number (part_of ExpandAt words.now pairs.now text.now) }
{
    answer_numbers::part_number(parts::expand_at(words, pairs, text))
}

#[unsafe(no_mangle)]
pub extern "C" fn tillercoral_to_owned(words: &[u32], pairs: &[u32], text: &[u8]) -> u64
    ensures { result ≡ part_number (part_of ToOwned words.now pairs.now text.now) }
{
    answer_numbers::part_number(parts::to_owned_at(words, pairs, text))
}

#[unsafe(no_mangle)]
pub extern "C" fn tillercoral_multi_array_underlying(
    words: &[u32],
    pairs: &[u32],
    text: &[u8],
) -> u64
    ensures { result ≡ part_number (part_of MultiArrayUnderlying words.now pairs.now text.now) }
{
    answer_numbers::part_number(parts::multi_array_underlying_at(words, pairs, text))
}

#[unsafe(no_mangle)]
pub extern "C" fn tillercoral_box_underlying(words: &[u32], pairs: &[u32], text: &[u8]) -> u64
    ensures { result ≡ part_number (part_of BoxUnderlying words.now pairs.now text.now) }
{
    answer_numbers::part_number(parts::box_underlying_at(words, pairs, text))
}

#[unsafe(no_mangle)]
pub extern "C" fn tillercoral_object_or_pointer_underlying(
    words: &[u32],
    pairs: &[u32],
    text: &[u8],
) -> u64
    ensures { result ≡ part_number (part_of ObjectOrPointerUnderlying words.now pairs.now text.now) }
{
    answer_numbers::part_number(parts::object_or_pointer_underlying_at(words, pairs, text))
}

#[unsafe(no_mangle)]
pub extern "C" fn tillercoral_rc_underlying(words: &[u32], pairs: &[u32], text: &[u8]) -> u64
    ensures { result ≡ part_number (part_of RcUnderlying words.now pairs.now text.now) }
{
    answer_numbers::part_number(parts::rc_underlying_at(words, pairs, text))
}

#[unsafe(no_mangle)]
pub extern "C" fn tillercoral_box_dyn_underlying(words: &[u32], pairs: &[u32], text: &[u8]) -> u64
    ensures { result ≡ part_number (part_of BoxDynUnderlying words.now pairs.now text.now) }
{
    answer_numbers::part_number(parts::box_dyn_underlying_at(words, pairs, text))
}

#[unsafe(no_mangle)]
pub extern "C" fn tillercoral_get_builtin_collection_element(
    words: &[u32],
    pairs: &[u32],
    text: &[u8],
) -> u64
    ensures { result ≡ part_number (part_of GetBuiltinCollectionElement words.now pairs.now text.now) }
{
    answer_numbers::part_number(parts::get_builtin_collection_element_at(words, pairs, text))
}

#[unsafe(no_mangle)]
pub extern "C" fn tillercoral_extract_maybe_placebo(
    words: &[u32],
    pairs: &[u32],
    text: &[u8],
) -> u64
    ensures { result ≡ part_number (part_of ExtractMaybePlacebo words.now pairs.now text.now) }
{
    answer_numbers::part_number(parts::extract_maybe_placebo_at(words, pairs, text))
}

#[unsafe(no_mangle)]
pub extern "C" fn tillercoral_extract_maybe_uninit_array_element(
    words: &[u32],
    pairs: &[u32],
    text: &[u8],
) -> u64
    ensures { result ≡ part_number (part_of ExtractMaybeUninitArrayElement words.now pairs.now text.now) }
{
    answer_numbers::part_number(parts::extract_maybe_uninit_array_element_at(words, pairs, text))
}

// Writing the texts of paths and types that were accepted, into a buffer that has room for them.
#![tactic(auto)]

ghost use Rattle.std.specs.Prelude.{◌≡◌, ◌+◌, ◌<◌, slice_index};
ghost use Rattle.rast.specs.ToString.{Type-to_string, comma_text};
ghost use Rattle.encoding.specs.Words.{from_path_kind, leaf_kinds};
ghost use Rattle.encoding.specs.Tables.{name_count};
ghost use Rattle.encoding.specs.Tested.{Good};
ghost use Rattle.encoding.specs.Types.{read_types, type_at};
ghost use Rattle.encoding.specs.declared.Head.TheVariants.{Apply, Tuple, Function, Both, ArrayOf, Synonym};
ghost use Rattle.accepted_types.specs.Accepted.{node_at};
ghost use Rattle.text_type.specs.Written.{Room, Written, Front, PartWritten};

use accepted_types::Spot;
use encoding::PathAt;
use encoding::words::{
    ARRAY, BORROWED, BORROWED_MUT, DYN_TYPE, FN_TYPE, IMPL_TYPE, INTERSECTION_TYPE, LEAF_KINDS,
    PLAIN_KINDS, T_IDENTIFIER, T_SYNONYM, TUPLE_TYPE, TYPE_APP, TYPE_FROM_PATH,
};

// A type of which all is written, or all but the type at `next` that ends it.
#[derive(Clone, Copy)]
pub enum Part {
    Rest(Spot),
    Done(Spot),
}

// A path's type.
fn write_path(
    words: &[u32],
    pairs: &[u32],
    text: &[u8],
    at: usize,
    out: &mut [u8],
    pos: usize,
) -> Spot
    requires { (slice_index words.now at ≡ from_path_kind) × Good pairs.now text.now × Room out.old pos Type-to_string (type_at words.now pairs.now text.now at) }
    ensures { Written out.old pos Type-to_string (type_at words.now pairs.now text.now at) out.new result }
{
    let start = at + 3;
    let count = words[at + 2];
    let path = PathAt {
        root: words[at + 1],
        start,
        count,
    };
    Spot {
        next: start + count as usize,
        pos: text_leaf::put_path(words, pairs, text, path, out, pos),
    }
}

// A plain type, a name or a path: no other type stands in it.
fn write_leaf(
    words: &[u32],
    pairs: &[u32],
    text: &[u8],
    at: usize,
    out: &mut [u8],
    pos: usize,
) -> Spot
    requires { (slice_index words.now at < leaf_kinds) × Good pairs.now text.now × Room out.old pos Type-to_string (type_at words.now pairs.now text.now at) }
    ensures { Written out.old pos Type-to_string (type_at words.now pairs.now text.now at) out.new result }
{
    let w = words[at];
    if w < PLAIN_KINDS {
        return Spot {
            next: at + 1,
            pos: text_leaf::put_primitive(w, out, pos),
        };
    }
    if w == T_IDENTIFIER {
        return Spot {
            next: at + 2,
            pos: encoding::put_name(pairs, text, words[at + 1], out, pos),
        };
    }
    write_path(words, pairs, text, at, out, pos)
}

// ---- types, and lists of them

// The type at `at`, which was accepted and for whose text there is room. A type that ends with another goes on in the next turn.
#[cycle(write_apply_write_array_write_base_write_head_write_inputs_write_left_write_list_write_part_write_synonym_write_tuple_write_type)]
pub fn write_type(
    words: &[u32],
    pairs: &[u32],
    text: &[u8],
    at: usize,
    out: &mut [u8],
    pos: usize,
) -> Spot
    requires { Good pairs.now text.now × Room out.old pos Type-to_string (type_at words.now pairs.now text.now at) }
    ensures { Written out.old pos Type-to_string (type_at words.now pairs.now text.now at) out.new result }
{
    let mut place = at;
    let mut p = pos;
    // Kept: no plainer as a `for`, since no range is counted: a turn writes a head, and `write_head` says which is the last.
    loop {
        match write_head(words, pairs, text, place, out, p) {
            Part::Rest(spot) => {
                place = spot.next;
                p = spot.pos;
            }
            Part::Done(spot) => {
                return spot;
            }
        }
    }
}

// A type, or all of it but the type that ends it.
#[cycle(write_apply_write_array_write_base_write_head_write_inputs_write_left_write_list_write_part_write_synonym_write_tuple_write_type)]
fn write_head(
    words: &[u32],
    pairs: &[u32],
    text: &[u8],
    at: usize,
    out: &mut [u8],
    pos: usize,
) -> Part
    requires { Good pairs.now text.now × Room out.old pos Type-to_string (type_at words.now pairs.now text.now at) }
    ensures { PartWritten (type_at words.now pairs.now text.now) (at + 1) out.old pos (type_at words.now pairs.now text.now at) out.new result }
{
    let w = words[at];
    if w < LEAF_KINDS {
        return Part::Done(write_leaf(words, pairs, text, at, out, pos));
    }
    match w {
        TYPE_APP => Part::Done(write_apply(words, pairs, text, at + 2, words[at + 1], out, pos)),
        BORROWED => Part::Rest(Spot {
            next: at + 1,
            pos: buffer::put(b"&", out, pos),
        }),
        BORROWED_MUT => Part::Rest(Spot {
            next: at + 1,
            pos: buffer::put(b"&mut ", out, pos),
        }),
        IMPL_TYPE => Part::Rest(Spot {
            next: at + 1,
            pos: buffer::put(b"impl ", out, pos),
        }),
        DYN_TYPE => Part::Rest(Spot {
            next: at + 1,
            pos: buffer::put(b"dyn ", out, pos),
        }),
        TUPLE_TYPE => Part::Done(write_tuple(words, pairs, text, at + 2, words[at + 1], out, pos)),
        FN_TYPE => Part::Rest(write_inputs(words, pairs, text, at + 2, words[at + 1], out, pos)),
        INTERSECTION_TYPE => Part::Rest(write_left(words, pairs, text, at + 1, out, pos)),
        ARRAY => Part::Done(write_array(words, pairs, text, at + 2, words[at + 1], out, pos)),
        T_SYNONYM => Part::Done(write_synonym(words, pairs, text, at + 1, out, pos)),
        _ => Part::Rest(Spot { next: at + 2, pos }),
    }
}

// A type that stands in another: most are names or plain types, and need no further turn.
// Kept: slower as one function with `write_leaf`, which would be called and not put in place (docs/DECISIONS.md, "Text"). Here they are written without a call of `write_leaf`, and the spot of
// `write_type` is taken apart, so that it need not go through memory.
#[cycle(write_apply_write_array_write_base_write_head_write_inputs_write_left_write_list_write_part_write_synonym_write_tuple_write_type)]
fn write_part(
    words: &[u32],
    pairs: &[u32],
    text: &[u8],
    at: usize,
    out: &mut [u8],
    pos: usize,
) -> Spot
    requires { Good pairs.now text.now × Room out.old pos Type-to_string (type_at words.now pairs.now text.now at) }
    ensures { Written out.old pos Type-to_string (type_at words.now pairs.now text.now at) out.new result }
{
    let w = words[at];
    if w == T_IDENTIFIER {
        return Spot {
            next: at + 2,
            pos: encoding::put_name(pairs, text, words[at + 1], out, pos),
        };
    }
    if w < PLAIN_KINDS {
        return Spot {
            next: at + 1,
            pos: text_leaf::put_primitive(w, out, pos),
        };
    }
    let spot = write_type(words, pairs, text, at, out, pos);
    Spot {
        next: spot.next,
        pos: spot.pos,
    }
}

// `n` types, with a comma and a space between them.
#[cycle(write_apply_write_array_write_base_write_head_write_inputs_write_left_write_list_write_part_write_synonym_write_tuple_write_type)]
fn write_list(
    words: &[u32],
    pairs: &[u32],
    text: &[u8],
    at: usize,
    n: u32,
    out: &mut [u8],
    pos: usize,
) -> Spot
    requires { (0 < n) × Good pairs.now text.now × Room out.old pos comma_text (read_types (type_at words.now pairs.now text.now) n at) }
    ensures { Written out.old pos comma_text (read_types (type_at words.now pairs.now text.now) n at) out.new result }
{
    let mut spot = write_part(words, pairs, text, at, out, pos);
    for _ in 1..n {
        let p = buffer::put(b", ", out, spot.pos);
        spot = write_part(words, pairs, text, spot.next, out, p);
    }
    spot
}

// The type that is applied: most are paths, for which `write_type` is not called, since it hands its spot back in memory.
#[cycle(write_apply_write_array_write_base_write_head_write_inputs_write_left_write_list_write_part_write_synonym_write_tuple_write_type)]
fn write_base(
    words: &[u32],
    pairs: &[u32],
    text: &[u8],
    at: usize,
    out: &mut [u8],
    pos: usize,
) -> Spot
    requires { Good pairs.now text.now × Room out.old pos Type-to_string (type_at words.now pairs.now text.now at) }
    ensures { Written out.old pos Type-to_string (type_at words.now pairs.now text.now at) out.new result }
{
    if words[at] == TYPE_FROM_PATH {
        return write_path(words, pairs, text, at, out, pos);
    }
    write_part(words, pairs, text, at, out, pos)
}

// A base, and its `n` arguments if there are any.
#[cycle(write_apply_write_array_write_base_write_head_write_inputs_write_left_write_list_write_part_write_synonym_write_tuple_write_type)]
fn write_apply(
    words: &[u32],
    pairs: &[u32],
    text: &[u8],
    at: usize,
    n: u32,
    out: &mut [u8],
    pos: usize,
) -> Spot
    requires { Good pairs.now text.now × Room out.old pos Type-to_string (node_at words.now pairs.now text.now (Apply n) at) }
    ensures { Written out.old pos Type-to_string (node_at words.now pairs.now text.now (Apply n) at) out.new result }
{
    let base = write_base(words, pairs, text, at, out, pos);
    if n == 0 {
        return base;
    }
    let p = buffer::put(b"<", out, base.pos);
    let list = write_list(words, pairs, text, base.next, n, out, p);
    Spot {
        next: list.next,
        pos: buffer::put(b">", out, list.pos),
    }
}

#[cycle(write_apply_write_array_write_base_write_head_write_inputs_write_left_write_list_write_part_write_synonym_write_tuple_write_type)]
fn write_tuple(
    words: &[u32],
    pairs: &[u32],
    text: &[u8],
    at: usize,
    n: u32,
    out: &mut [u8],
    pos: usize,
) -> Spot
    requires { Good pairs.now text.now × Room out.old pos Type-to_string (node_at words.now pairs.now text.now (Tuple n) at) }
    ensures { Written out.old pos Type-to_string (node_at words.now pairs.now text.now (Tuple n) at) out.new result }
{
    if n == 0 {
        return Spot {
            next: at,
            pos: buffer::put(b"()", out, pos),
        };
    }
    let p = buffer::put(b"(", out, pos);
    let list = write_list(words, pairs, text, at, n, out, p);
    Spot {
        next: list.next,
        pos: buffer::put(b")", out, list.pos),
    }
}

// A function type up to its return type.
#[cycle(write_apply_write_array_write_base_write_head_write_inputs_write_left_write_list_write_part_write_synonym_write_tuple_write_type)]
fn write_inputs(
    words: &[u32],
    pairs: &[u32],
    text: &[u8],
    at: usize,
    n: u32,
    out: &mut [u8],
    pos: usize,
) -> Spot
    requires { Good pairs.now text.now × Room out.old pos Type-to_string (node_at words.now pairs.now text.now (Function n) at) }
    ensures { Front (type_at words.now pairs.now text.now) at out.old pos (node_at words.now pairs.now text.now (Function n) at) out.new result }
{
    let p = buffer::put(b"::std::ops::Fn(", out, pos);
    if n == 0 {
        return Spot {
            next: at,
            pos: buffer::put(b") -> ", out, p),
        };
    }
    let list = write_list(words, pairs, text, at, n, out, p);
    Spot {
        next: list.next,
        pos: buffer::put(b") -> ", out, list.pos),
    }
}

// An intersection up to its right side.
#[cycle(write_apply_write_array_write_base_write_head_write_inputs_write_left_write_list_write_part_write_synonym_write_tuple_write_type)]
fn write_left(
    words: &[u32],
    pairs: &[u32],
    text: &[u8],
    at: usize,
    out: &mut [u8],
    pos: usize,
) -> Spot
    requires { Good pairs.now text.now × Room out.old pos Type-to_string (node_at words.now pairs.now text.now Both at) }
    ensures { Front (type_at words.now pairs.now text.now) at out.old pos (node_at words.now pairs.now text.now Both at) out.new result }
{
    let left = write_part(words, pairs, text, at, out, pos);
    Spot {
        next: left.next,
        pos: buffer::put(b" + ", out, left.pos),
    }
}

#[cycle(write_apply_write_array_write_base_write_head_write_inputs_write_left_write_list_write_part_write_synonym_write_tuple_write_type)]
fn write_array(
    words: &[u32],
    pairs: &[u32],
    text: &[u8],
    at: usize,
    size: u32,
    out: &mut [u8],
    pos: usize,
) -> Spot
    requires { (size < name_count pairs.now + 1) × Good pairs.now text.now × Room out.old pos Type-to_string (node_at words.now pairs.now text.now (ArrayOf size) at) }
    ensures { Written out.old pos Type-to_string (node_at words.now pairs.now text.now (ArrayOf size) at) out.new result }
{
    let p = buffer::put(b"[", out, pos);
    let element = write_part(words, pairs, text, at, out, p);
    Spot {
        next: element.next,
        pos: text_leaf::put_size(pairs, text, size, out, element.pos),
    }
}

// The display is written, and the base passed over.
#[cycle(write_apply_write_array_write_base_write_head_write_inputs_write_left_write_list_write_part_write_synonym_write_tuple_write_type)]
fn write_synonym(
    words: &[u32],
    pairs: &[u32],
    text: &[u8],
    at: usize,
    out: &mut [u8],
    pos: usize,
) -> Spot
    requires { Good pairs.now text.now × Room out.old pos Type-to_string (node_at words.now pairs.now text.now Synonym at) }
    ensures { Written out.old pos Type-to_string (node_at words.now pairs.now text.now Synonym at) out.new result }
{
    let display = write_part(words, pairs, text, at, out, pos);
    Spot {
        next: accepted_types::skip_type(words, pairs, text, display.next),
        pos: display.pos,
    }
}

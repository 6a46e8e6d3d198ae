// Texts with no type in them, into a buffer that has room: plain types, paths, the end of an array.
#![tactic(auto)]

ghost use Rattle.std.specs.Prelude.{◌≡◌, ◌+◌, ◌*◌, ◌≤◌, ◌<◌, length, get_or};
ghost use Rattle.std.proofs.lemmas.List.Edits.{sets};
ghost use Rattle.rast.specs.Tree.{U8 as PrimitiveU8};
ghost use Rattle.rast.specs.ToString.{Path-to_string, Primitive-to_string};
ghost use Rattle.buffer.specs.Wrote.{Wrote};
ghost use Rattle.encoding.specs.Words.{plain_kinds};
ghost use Rattle.encoding.specs.Tables.{name_bytes, name_count};
ghost use Rattle.encoding.specs.Tested.{Good, HoldsNames};
ghost use Rattle.encoding.specs.HeadWords.{InsidePath};
ghost use Rattle.encoding.specs.Types.{primitives, root_of, path_of, size_of};
ghost use Rattle.text_leaf.specs.Texts.{member_text, end_text, two_bytes, HasEnds};

use encoding::words::{
    CRATE, FIRST_PAIR, FIXED_NAMES, GLOBAL, I8, I16, I32, I64, I128, U8, U16, U32, U64, U128, USIZE,
};
use encoding::{FixedNames, PathAt};

// Where the plain types' texts start in the byte string below, a hexadecimal digit for each kind from the right, in threes of bytes. The string is laid out in
// pieces of 16 bytes, and each text lies in one of them, as with the fixed names (`encoding`).
const STARTS: u64 = 0xce8763b4210a;

// No jump to one of twelve strings: which of them comes next is hard to foresee.
pub fn put_primitive(kind: u32, out: &mut [u8], pos: usize) -> usize
    requires { (kind < plain_kinds) × (pos + length (Primitive-to_string (get_or primitives kind PrimitiveU8)) ≤ length out.old) }
    ensures { Wrote out.old pos (Primitive-to_string (get_or primitives kind PrimitiveU8)) out.new result }
{
    let all = b"u16u32u64i16u128  i32i64i128  u8 i8 bool  usize ";
    let start = 3 * encoding::digit(STARTS, kind);
    buffer::put_few(all, start, encoding::primitive_length(kind), out, pos)
}

// A text of two to four letters: their number, the first two and the last two, each two as one number with the first letter low.
#[derive(Clone, Copy, Debug, PartialEq, Eq)]
struct Ends {
    count: usize,
    front: u16,
    back: u16,
}

fn with_ends(count: usize, first: u8, second: u8, third: u8, fourth: u8) -> Ends
    ensures { (result.count ≡ count) × (result.front ≡ first + 256 * second) × (result.back ≡ third + 256 * fourth) }
{
    Ends {
        count,
        front: u16::from_le_bytes([first, second]),
        back: u16::from_le_bytes([third, fourth]),
    }
}

// Those of the plain types other than `usize`. The match compiles to tables that need not be laid out.
fn plain_ends(kind: u32) -> Ends
    requires { (kind < plain_kinds) × (kind ≡ 10 → ⊥) }
    ensures { HasEnds (Primitive-to_string (get_or primitives kind PrimitiveU8)) result.count result.front result.back }
{
    match kind {
        U8 => with_ends(2, b'u', b'8', b'u', b'8'),
        U16 => with_ends(3, b'u', b'1', b'1', b'6'),
        U32 => with_ends(3, b'u', b'3', b'3', b'2'),
        U64 => with_ends(3, b'u', b'6', b'6', b'4'),
        U128 => with_ends(4, b'u', b'1', b'2', b'8'),
        I8 => with_ends(2, b'i', b'8', b'i', b'8'),
        I16 => with_ends(3, b'i', b'1', b'1', b'6'),
        I32 => with_ends(3, b'i', b'3', b'3', b'2'),
        I64 => with_ends(3, b'i', b'6', b'6', b'4'),
        I128 => with_ends(4, b'i', b'1', b'2', b'8'),
        _ => with_ends(4, b'b', b'o', b'o', b'l'),
    }
}

fn put_two(two: u16, out: &mut [u8], pos: usize)
    requires { pos + 2 ≤ length out.old }
    ensures { out.new ≡ sets out.old pos (two_bytes two) }
{
    let [low, high] = two.to_le_bytes();
    out[pos] = low;
    out[pos + 1] = high;
}

// A plain type of a field.
// Kept: slower as one function with `put_primitive` (docs/DECISIONS.md, "Plain types have two writers"), which lays its letters out at each call; in `text_type` this one would make the functions around it too large to be inlined.
pub fn put_plain(kind: u32, out: &mut [u8], pos: usize) -> usize
    requires { (kind < plain_kinds) × (pos + length (Primitive-to_string (get_or primitives kind PrimitiveU8)) ≤ length out.old) }
    ensures { Wrote out.old pos (Primitive-to_string (get_or primitives kind PrimitiveU8)) out.new result }
{
    if kind == USIZE {
        return buffer::put(b"usize", out, pos);
    }
    let Ends { count, front, back } = plain_ends(kind);
    put_two(front, out, pos);
    put_two(back, out, pos + (count - 2));
    pos + count
}

fn put_root(root: u32, out: &mut [u8], pos: usize) -> usize
    requires { pos + length (Path-to_string (root_of root)) ≤ length out.old }
    ensures { Wrote out.old pos (Path-to_string (root_of root)) out.new result }
{
    match root {
        GLOBAL => pos,
        CRATE => buffer::put(b"crate", out, pos),
        _ => buffer::put(b"Self", out, pos),
    }
}

// One more name of a path, by the tables of the fixed names.
fn put_member(
    letters: &[u8; 75],
    starts: &[u8; FIXED_NAMES],
    pairs: &[u32],
    text: &[u8],
    name: u32,
    out: &mut [u8],
    pos: usize,
) -> usize
    requires { HoldsNames letters.now starts.now × (name < name_count pairs.now) × Good pairs.now text.now
        × (pos + length (member_text (name_bytes pairs.now text.now name)) ≤ length out.old) }
    ensures { Wrote out.old pos (member_text (name_bytes pairs.now text.now name)) out.new result }
{
    let p = buffer::put(b"::", out, pos);
    if name < FIRST_PAIR {
        return encoding::put_fixed(letters, starts, name, out, p);
    }
    encoding::put_pair(pairs, text, name, out, p)
}

// A path. The tables of the fixed names are laid out once for all its names.
pub fn put_path(
    words: &[u32],
    pairs: &[u32],
    text: &[u8],
    path: PathAt,
    out: &mut [u8],
    pos: usize,
) -> usize
    requires { InsidePath (name_count pairs.now) words.now path × Good pairs.now text.now
        × (pos + length (Path-to_string (path_of words.now (name_bytes pairs.now text.now) path)) ≤ length out.old) }
    ensures { Wrote out.old pos (Path-to_string (path_of words.now (name_bytes pairs.now text.now) path)) out.new result }
{
    let start = path.start;
    let end = start + path.count as usize;
    let FixedNames { letters, starts } = encoding::fixed_names();
    let mut p = put_root(path.root, out, pos);
    for &name in &words[start..end] {
        p = put_member(&letters, &starts, pairs, text, name, out, p);
    }
    p
}

// The end of an array's text.
pub fn put_size(pairs: &[u32], text: &[u8], size: u32, out: &mut [u8], pos: usize) -> usize
    requires { (size < name_count pairs.now + 1) × Good pairs.now text.now
        × (pos + length (end_text (size_of (name_bytes pairs.now text.now) size)) ≤ length out.old) }
    ensures { Wrote out.old pos (end_text (size_of (name_bytes pairs.now text.now) size)) out.new result }
{
    if size == 0 {
        return buffer::put(b"]", out, pos);
    }
    let p = buffer::put(b"; ", out, pos);
    let q = encoding::put_name(pairs, text, size - 1, out, p);
    buffer::put(b"]", out, q)
}

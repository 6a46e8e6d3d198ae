// The attributes of a declaration, each with its arguments. They are counted and written by functions of their own: counting needs no buffer, and what was accepted is
// written without being tested again.
#![tactic(auto)]

ghost use Rattle.std.specs.Prelude.{true, ◌+◌, ◌^◌, ◌<◌};
ghost use Rattle.text_pass.specs.Passes.{Checked, Ready, Came, Counts};
ghost use Rattle.text_attributes.specs.Texts.{some_arguments, derived_at, attribute_at, some_attributes, attributes_at};

use accepted_types::Spot;
use encoding::Refusal;

// ---- counted

// `n` arguments, one at least, counted behind `before` other bytes: each is counted together with what stands before it.
fn count_arguments(
    words: &[u32],
    pairs: &[u32],
    text: &[u8],
    before: usize,
    n: u32,
    at: usize,
    pos: usize,
) -> Result<(usize, usize), Refusal>
    requires { Checked words.now pairs.now text.now × (before < 2 ^ 40) × (0 < n) }
    ensures { Counts (pos + before) (some_arguments words.now pairs.now text.now n at) result }
{
    let mut gap = before;
    let mut place = at;
    let mut p = pos;
    for _ in 0..n {
        (place, p) = text_pass::count_name(words, pairs, text, gap, place, p)?;
        gap = 2;
    }
    Ok((place, p))
}

// The arguments of an attribute, their count first. None have no text.
fn count_derived(
    words: &[u32],
    pairs: &[u32],
    text: &[u8],
    at: usize,
    pos: usize,
) -> Result<(usize, usize), Refusal>
    requires { Checked words.now pairs.now text.now }
    ensures { Counts pos (derived_at words.now pairs.now text.now at) result }
{
    let (value, next) = encoding::scan_word(words, at)?;
    if value == 0 {
        return Ok((next, pos));
    }
    let (end, p) = count_arguments(words, pairs, text, 1, value, next, pos)?;
    Ok((end, buffer::count_few(p, 1)))
}

// An attribute on its line.
fn count_attribute(
    words: &[u32],
    pairs: &[u32],
    text: &[u8],
    level: u32,
    at: usize,
    pos: usize,
) -> Result<(usize, usize), Refusal>
    requires { Checked words.now pairs.now text.now }
    ensures { Counts pos (attribute_at words.now pairs.now text.now level at) result }
{
    let (q, p) = text_pass::count_name(words, pairs, text, 2, at, pos)?;
    let (next, end) = count_derived(words, pairs, text, q, p)?;
    Ok((next, buffer::count_few(end, 2 + 4 * level as usize)))
}

// `n` attributes.
fn count_attributes(
    words: &[u32],
    pairs: &[u32],
    text: &[u8],
    level: u32,
    n: u32,
    at: usize,
    pos: usize,
) -> Result<(usize, usize), Refusal>
    requires { Checked words.now pairs.now text.now }
    ensures { Counts pos (some_attributes words.now pairs.now text.now level n at) result }
{
    let mut place = at;
    let mut p = pos;
    for _ in 0..n {
        (place, p) = count_attribute(words, pairs, text, level, place, p)?;
    }
    Ok((place, p))
}

// The attributes of a declaration, their count first.
pub fn count_attribute_list(
    words: &[u32],
    pairs: &[u32],
    text: &[u8],
    level: u32,
    at: usize,
    pos: usize,
) -> Result<(usize, usize), Refusal>
    requires { Checked words.now pairs.now text.now }
    ensures { Counts pos (attributes_at words.now pairs.now text.now level at) result }
{
    let (value, next) = encoding::scan_word(words, at)?;
    count_attributes(words, pairs, text, level, value, next, pos)
}

// ---- accepted, and written

// `n` arguments, one at least.
fn write_arguments(
    words: &[u32],
    pairs: &[u32],
    text: &[u8],
    n: u32,
    at: usize,
    out: &mut [u8],
    pos: usize,
) -> Spot
    requires { Checked words.now pairs.now text.now × (0 < n) × Ready true out.old pos (some_arguments words.now pairs.now text.now n at) }
    ensures { Came true out.old pos (some_arguments words.now pairs.now text.now n at) out.new result.next result.pos }
{
    let mut place = at;
    let mut p = pos;
    for i in 0..n {
        p = text_pass::write_name(words, pairs, text, place, out, p);
        place += 1;
        if i + 1 < n {
            p = buffer::put(b", ", out, p);
        }
    }
    Spot {
        next: place,
        pos: p,
    }
}

// The arguments of an attribute, their count first.
fn write_derived(
    words: &[u32],
    pairs: &[u32],
    text: &[u8],
    at: usize,
    out: &mut [u8],
    pos: usize,
) -> Spot
    requires { Checked words.now pairs.now text.now × Ready true out.old pos (derived_at words.now pairs.now text.now at) }
    ensures { Came true out.old pos (derived_at words.now pairs.now text.now at) out.new result.next result.pos }
{
    let n = words[at];
    if n == 0 {
        return Spot { next: at + 1, pos };
    }
    let p = buffer::put(b"(", out, pos);
    let list = write_arguments(words, pairs, text, n, at + 1, out, p);
    Spot {
        next: list.next,
        pos: buffer::put(b")", out, list.pos),
    }
}

// An attribute on its line.
fn write_attribute(
    words: &[u32],
    pairs: &[u32],
    text: &[u8],
    level: u32,
    at: usize,
    out: &mut [u8],
    pos: usize,
) -> Spot
    requires { Checked words.now pairs.now text.now × Ready true out.old pos (attribute_at words.now pairs.now text.now level at) }
    ensures { Came true out.old pos (attribute_at words.now pairs.now text.now level at) out.new result.next result.pos }
{
    let p = buffer::put(b"#[", out, pos);
    let q = text_pass::write_name(words, pairs, text, at, out, p);
    let list = write_derived(words, pairs, text, at + 1, out, q);
    let end = buffer::put(b"]", out, list.pos);
    Spot {
        next: list.next,
        pos: text_doc::put_line(level, out, end),
    }
}

// `n` attributes.
fn write_attributes(
    words: &[u32],
    pairs: &[u32],
    text: &[u8],
    level: u32,
    n: u32,
    at: usize,
    out: &mut [u8],
    pos: usize,
) -> Spot
    requires { Checked words.now pairs.now text.now × Ready true out.old pos (some_attributes words.now pairs.now text.now level n at) }
    ensures { Came true out.old pos (some_attributes words.now pairs.now text.now level n at) out.new result.next result.pos }
{
    let mut spot = Spot { next: at, pos };
    for _ in 0..n {
        spot = write_attribute(words, pairs, text, level, spot.next, out, spot.pos);
    }
    spot
}

// The attributes of a declaration, their count first.
pub fn write_attribute_list(
    words: &[u32],
    pairs: &[u32],
    text: &[u8],
    level: u32,
    at: usize,
    out: &mut [u8],
    pos: usize,
) -> Spot
    requires { Checked words.now pairs.now text.now × Ready true out.old pos (attributes_at words.now pairs.now text.now level at) }
    ensures { Came true out.old pos (attributes_at words.now pairs.now text.now level at) out.new result.next result.pos }
{
    write_attributes(words, pairs, text, level, words[at], at + 1, out, pos)
}

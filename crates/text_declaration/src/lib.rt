// A pass over the words of a declaration that lays its text, at a level: it writes the bytes, or only counts them.
#![tactic(auto)]

ghost use Rattle.std.specs.Prelude.{◌≡◌, true, false, ◌^◌, ◌<◌};
ghost use Rattle.buffer.specs.Laid.{Laid, Fits};
ghost use Rattle.text_pass.specs.Passes.{Checked, Ready, Came, Went, Counts};
ghost use Rattle.text_attributes.specs.Texts.{attributes_at};
ghost use Rattle.text_fields.specs.Texts.{list_at};
ghost use Rattle.text_declaration.specs.Texts.{keyword_text, entry_of, fields_end, listed_at, fields_at, title_at, front_at, case_at, case_line_at, cases_at, variants_at, enum_body, synonym_body, body_at, fronted_at, use_at, after_at, declaration_text_at};

use accepted_types::Spot;
use encoding::Refusal;
use encoding::words::{ENUM, FIELD_KINDS, NAMED, STRUCT, TYPE_SYNONYM, USE};
use text_fields::Entry;

// Kept: `write`, which chooses between counting and writing, is no plainer as a type or a closure: it would stand in each signature as the flag does, and in each
// contract too.

// What a list of fields is of, by the word before it.
fn fields_entry(in_case: bool, kind: u32) -> Entry
    ensures { result ≡ entry_of in_case kind }
{
    if kind == NAMED {
        return Entry::Named;
    }
    if in_case {
        return Entry::Lined;
    }
    Entry::Inline
}

// The semicolon behind the fields of a struct, if they have no names.
fn lay_fields_end(write: bool, entry: Entry, out: &mut [u8], pos: usize) -> usize
    requires { Fits write out.old pos (fields_end entry) }
    ensures { Laid write out.old pos (fields_end entry) out.new result }
{
    match entry {
        Entry::Inline => buffer::lay(write, b";", out, pos),
        Entry::Named | Entry::Lined => pos,
    }
}

// Fields behind the word that says whether they have names.
fn lay_list(
    write: bool,
    words: &[u32],
    pairs: &[u32],
    text: &[u8],
    entry: Entry,
    level: u32,
    at: usize,
    out: &mut [u8],
    pos: usize,
) -> Result<(usize, usize), Refusal>
    requires { Checked words.now pairs.now text.now × (level < 2 ^ 31) × Ready write out.old pos (list_at words.now pairs.now text.now entry level at) }
    ensures { Went write out.old pos (list_at words.now pairs.now text.now entry level at) out.new result }
{
    if write {
        let spot = text_fields::write_list(words, pairs, text, entry, level, at, out, pos);
        return Ok((spot.next, spot.pos));
    }
    text_fields::count_list(words, pairs, text, entry, level, at, pos)
}

// The same, and what stands behind them in a struct.
fn lay_listed(
    write: bool,
    words: &[u32],
    pairs: &[u32],
    text: &[u8],
    entry: Entry,
    level: u32,
    at: usize,
    out: &mut [u8],
    pos: usize,
) -> Result<(usize, usize), Refusal>
    requires { Checked words.now pairs.now text.now × (level < 2 ^ 31) × Ready write out.old pos (listed_at words.now pairs.now text.now entry level at) }
    ensures { Went write out.old pos (listed_at words.now pairs.now text.now entry level at) out.new result }
{
    let (next, end) = lay_list(write, words, pairs, text, entry, level, at, out, pos)?;
    Ok((next, lay_fields_end(write, entry, out, end)))
}

// The fields of a struct.
fn lay_fields(
    write: bool,
    words: &[u32],
    pairs: &[u32],
    text: &[u8],
    level: u32,
    at: usize,
    out: &mut [u8],
    pos: usize,
) -> Result<(usize, usize), Refusal>
    requires { Checked words.now pairs.now text.now × (level < 2 ^ 31) × Ready write out.old pos (fields_at words.now pairs.now text.now false level at) }
    ensures { Went write out.old pos (fields_at words.now pairs.now text.now false level at) out.new result }
{
    let (value, next) = encoding::scan_below(words, FIELD_KINDS, at)?;
    let entry = fields_entry(false, value);
    lay_listed(write, words, pairs, text, entry, level, next, out, pos)
}

// The words before a declaration's name, by its head.
fn lay_keyword(write: bool, head: u32, out: &mut [u8], pos: usize) -> usize
    requires { Fits write out.old pos (keyword_text head) }
    ensures { Laid write out.old pos (keyword_text head) out.new result }
{
    match head {
        STRUCT => buffer::lay(write, b"pub struct ", out, pos),
        ENUM => buffer::lay(write, b"pub enum ", out, pos),
        _ => buffer::lay(write, b"pub type ", out, pos),
    }
}

// The keyword, the name and the parameters.
fn lay_title(
    write: bool,
    words: &[u32],
    pairs: &[u32],
    text: &[u8],
    head: u32,
    at: usize,
    out: &mut [u8],
    pos: usize,
) -> Result<(usize, usize), Refusal>
    requires { Checked words.now pairs.now text.now × Ready write out.old pos (title_at words.now pairs.now text.now head at) }
    ensures { Went write out.old pos (title_at words.now pairs.now text.now head at) out.new result }
{
    let p = lay_keyword(write, head, out, pos);
    let (next, p) = text_pass::lay_name(write, words, pairs, text, at, out, p)?;
    text_parameters::lay_parameter_list(write, words, pairs, text, next, out, p)
}

// The attributes.
fn lay_attributes(
    write: bool,
    words: &[u32],
    pairs: &[u32],
    text: &[u8],
    level: u32,
    at: usize,
    out: &mut [u8],
    pos: usize,
) -> Result<(usize, usize), Refusal>
    requires { Checked words.now pairs.now text.now × (level < 2 ^ 31) × Ready write out.old pos (attributes_at words.now pairs.now text.now level at) }
    ensures { Went write out.old pos (attributes_at words.now pairs.now text.now level at) out.new result }
{
    if write {
        let spot = text_attributes::write_attribute_list(words, pairs, text, level, at, out, pos);
        return Ok((spot.next, spot.pos));
    }
    text_attributes::count_attribute_list(words, pairs, text, level, at, pos)
}

// What a struct, an enum and a type synonym begin with: doc, attributes, keyword, name, parameters.
fn lay_front(
    write: bool,
    words: &[u32],
    pairs: &[u32],
    text: &[u8],
    head: u32,
    level: u32,
    at: usize,
    out: &mut [u8],
    pos: usize,
) -> Result<(usize, usize), Refusal>
    requires { Checked words.now pairs.now text.now × (level < 2 ^ 31) × Ready write out.old pos (front_at words.now pairs.now text.now head level at) }
    ensures { Went write out.old pos (front_at words.now pairs.now text.now head level at) out.new result }
{
    let (q, p) = text_pass::lay_doc(write, words, pairs, text, level, at, out, pos)?;
    let (next, p) = lay_attributes(write, words, pairs, text, level, q, out, p)?;
    lay_title(write, words, pairs, text, head, next, out, p)
}

// The fields of a case, counted.
fn count_case_fields(
    words: &[u32],
    pairs: &[u32],
    text: &[u8],
    level: u32,
    at: usize,
    pos: usize,
) -> Result<(usize, usize), Refusal>
    requires { Checked words.now pairs.now text.now × (level < 2 ^ 31) }
    ensures { Counts pos (fields_at words.now pairs.now text.now true level at) result }
{
    let (value, next) = encoding::scan_below(words, FIELD_KINDS, at)?;
    let entry = fields_entry(true, value);
    text_fields::count_list(words, pairs, text, entry, level, next, pos)
}

// A case, counted: doc, name, fields.
fn count_case(
    words: &[u32],
    pairs: &[u32],
    text: &[u8],
    level: u32,
    at: usize,
    pos: usize,
) -> Result<(usize, usize), Refusal>
    requires { Checked words.now pairs.now text.now × (level < 2 ^ 31) }
    ensures { Counts pos (case_at words.now pairs.now text.now level at) result }
{
    let (q, p) = text_pass::count_doc(words, pairs, text, level, at, pos)?;
    let (next, p) = text_pass::count_name(words, pairs, text, 0, q, p)?;
    count_case_fields(words, pairs, text, level, next, p)
}

// A case on its line, counted; `level` is the enum's.
fn count_case_line(
    words: &[u32],
    pairs: &[u32],
    text: &[u8],
    level: u32,
    at: usize,
    pos: usize,
) -> Result<(usize, usize), Refusal>
    requires { Checked words.now pairs.now text.now × (level < 2 ^ 30) }
    ensures { Counts pos (case_line_at words.now pairs.now text.now level at) result }
{
    let p = buffer::count_few(pos, 5 + 4 * level as usize);
    count_case(words, pairs, text, level + 1, at, p)
}

// `n` cases, one at least, counted.
// Kept: one loop for this and for a list's fields, over a closure, is no plainer: its contract would take the texts of an item and of a gap as parameters of their own.
fn count_cases(
    words: &[u32],
    pairs: &[u32],
    text: &[u8],
    level: u32,
    n: u32,
    at: usize,
    pos: usize,
) -> Result<(usize, usize), Refusal>
    requires { Checked words.now pairs.now text.now × (0 < n) × (level < 2 ^ 30) }
    ensures { Counts pos (cases_at words.now pairs.now text.now level n at) result }
{
    let mut place = at;
    let mut p = pos;
    for i in 0..n {
        if 0 < i {
            p = buffer::count_few(p, 1);
        }
        let (next, end) = count_case_line(words, pairs, text, level, place, p)?;
        place = next;
        p = end;
    }
    Ok((place, p))
}

// The fields of a case, which was accepted.
fn write_case_fields(
    words: &[u32],
    pairs: &[u32],
    text: &[u8],
    level: u32,
    at: usize,
    out: &mut [u8],
    pos: usize,
) -> Spot
    requires { Checked words.now pairs.now text.now × (level < 2 ^ 31) × Ready true out.old pos (fields_at words.now pairs.now text.now true level at) }
    ensures { Came true out.old pos (fields_at words.now pairs.now text.now true level at) out.new result.next result.pos }
{
    let entry = fields_entry(true, words[at]);
    text_fields::write_list(words, pairs, text, entry, level, at + 1, out, pos)
}

// A case that was accepted.
fn write_case(
    words: &[u32],
    pairs: &[u32],
    text: &[u8],
    level: u32,
    at: usize,
    out: &mut [u8],
    pos: usize,
) -> Spot
    requires { Checked words.now pairs.now text.now × (level < 2 ^ 31) × Ready true out.old pos (case_at words.now pairs.now text.now level at) }
    ensures { Came true out.old pos (case_at words.now pairs.now text.now level at) out.new result.next result.pos }
{
    let p = text_pass::write_doc(words, pairs, text, level, at, out, pos);
    let p = encoding::put_name(pairs, text, words[at + 1], out, p);
    write_case_fields(words, pairs, text, level, at + 2, out, p)
}

// The same on its line; `level` is the enum's.
fn write_case_line(
    words: &[u32],
    pairs: &[u32],
    text: &[u8],
    level: u32,
    at: usize,
    out: &mut [u8],
    pos: usize,
) -> Spot
    requires { Checked words.now pairs.now text.now × (level < 2 ^ 30) × Ready true out.old pos (case_line_at words.now pairs.now text.now level at) }
    ensures { Came true out.old pos (case_line_at words.now pairs.now text.now level at) out.new result.next result.pos }
{
    let p = text_doc::put_line(level + 1, out, pos);
    write_case(words, pairs, text, level + 1, at, out, p)
}

// `n` cases, one at least, which were accepted.
fn write_cases(
    words: &[u32],
    pairs: &[u32],
    text: &[u8],
    level: u32,
    n: u32,
    at: usize,
    out: &mut [u8],
    pos: usize,
) -> Spot
    requires { Checked words.now pairs.now text.now × (0 < n) × (level < 2 ^ 30) × Ready true out.old pos (cases_at words.now pairs.now text.now level n at) }
    ensures { Came true out.old pos (cases_at words.now pairs.now text.now level n at) out.new result.next result.pos }
{
    let mut spot = Spot { next: at, pos };
    for i in 0..n {
        if 0 < i {
            spot.pos = buffer::put(b",", out, spot.pos);
        }
        spot = write_case_line(words, pairs, text, level, spot.next, out, spot.pos);
    }
    spot
}

// `n` cases, one at least.
fn lay_cases(
    write: bool,
    words: &[u32],
    pairs: &[u32],
    text: &[u8],
    level: u32,
    n: u32,
    at: usize,
    out: &mut [u8],
    pos: usize,
) -> Result<(usize, usize), Refusal>
    requires { Checked words.now pairs.now text.now × (0 < n) × (level < 2 ^ 30) × Ready write out.old pos (cases_at words.now pairs.now text.now level n at) }
    ensures { Went write out.old pos (cases_at words.now pairs.now text.now level n at) out.new result }
{
    if write {
        let spot = write_cases(words, pairs, text, level, n, at, out, pos);
        return Ok((spot.next, spot.pos));
    }
    count_cases(words, pairs, text, level, n, at, pos)
}

// The cases of an enum.
fn lay_variants(
    write: bool,
    words: &[u32],
    pairs: &[u32],
    text: &[u8],
    level: u32,
    at: usize,
    out: &mut [u8],
    pos: usize,
) -> Result<(usize, usize), Refusal>
    requires { Checked words.now pairs.now text.now × (level < 2 ^ 30) × Ready write out.old pos (variants_at words.now pairs.now text.now level at) }
    ensures { Went write out.old pos (variants_at words.now pairs.now text.now level at) out.new result }
{
    let (value, next) = encoding::scan_word(words, at)?;
    if value == 0 {
        return Ok((next, pos));
    }
    lay_cases(write, words, pairs, text, level, value, next, out, pos)
}

// An enum behind its front.
fn lay_enum_body(
    write: bool,
    words: &[u32],
    pairs: &[u32],
    text: &[u8],
    level: u32,
    at: usize,
    out: &mut [u8],
    pos: usize,
) -> Result<(usize, usize), Refusal>
    requires { Checked words.now pairs.now text.now × (level < 2 ^ 30) × Ready write out.old pos (enum_body words.now pairs.now text.now level at) }
    ensures { Went write out.old pos (enum_body words.now pairs.now text.now level at) out.new result }
{
    let p = buffer::lay(write, b" {", out, pos);
    let (next, end) = lay_variants(write, words, pairs, text, level, at, out, p)?;
    let p = text_doc::lay_line(write, level, out, end);
    Ok((next, buffer::lay(write, b"}", out, p)))
}

// A type synonym behind its front.
fn lay_synonym_body(
    write: bool,
    words: &[u32],
    pairs: &[u32],
    text: &[u8],
    at: usize,
    out: &mut [u8],
    pos: usize,
) -> Result<(usize, usize), Refusal>
    requires { Checked words.now pairs.now text.now × Ready write out.old pos (synonym_body words.now pairs.now text.now at) }
    ensures { Went write out.old pos (synonym_body words.now pairs.now text.now at) out.new result }
{
    let p = buffer::lay(write, b" = ", out, pos);
    let (next, end) = text_pass::lay_type(write, words, pairs, text, at, out, p)?;
    Ok((next, buffer::lay(write, b";", out, end)))
}

// A struct, an enum or a type synonym behind its front.
fn lay_body(
    write: bool,
    words: &[u32],
    pairs: &[u32],
    text: &[u8],
    head: u32,
    level: u32,
    at: usize,
    out: &mut [u8],
    pos: usize,
) -> Result<(usize, usize), Refusal>
    requires { Checked words.now pairs.now text.now × (level < 2 ^ 30) × Ready write out.old pos (body_at words.now pairs.now text.now head level at) }
    ensures { Went write out.old pos (body_at words.now pairs.now text.now head level at) out.new result }
{
    match head {
        STRUCT => lay_fields(write, words, pairs, text, level, at, out, pos),
        ENUM => lay_enum_body(write, words, pairs, text, level, at, out, pos),
        _ => lay_synonym_body(write, words, pairs, text, at, out, pos),
    }
}

// A struct, an enum or a type synonym behind its head.
fn lay_fronted(
    write: bool,
    words: &[u32],
    pairs: &[u32],
    text: &[u8],
    head: u32,
    level: u32,
    at: usize,
    out: &mut [u8],
    pos: usize,
) -> Result<(usize, usize), Refusal>
    requires { Checked words.now pairs.now text.now × (level < 2 ^ 30) × Ready write out.old pos (fronted_at words.now pairs.now text.now head level at) }
    ensures { Went write out.old pos (fronted_at words.now pairs.now text.now head level at) out.new result }
{
    let (next, p) = lay_front(write, words, pairs, text, head, level, at, out, pos)?;
    lay_body(write, words, pairs, text, head, level, next, out, p)
}

// A use line behind its head.
fn lay_use(
    write: bool,
    words: &[u32],
    pairs: &[u32],
    text: &[u8],
    at: usize,
    out: &mut [u8],
    pos: usize,
) -> Result<(usize, usize), Refusal>
    requires { Checked words.now pairs.now text.now × Ready write out.old pos (use_at words.now pairs.now text.now at) }
    ensures { Went write out.old pos (use_at words.now pairs.now text.now at) out.new result }
{
    let (q, p) = text_pass::lay_visibility(write, words, at, out, pos)?;
    let p = buffer::lay(write, b"use ", out, p);
    let (next, p) = text_pass::lay_path(write, words, pairs, text, q, out, p)?;
    Ok((next, buffer::lay(write, b";", out, p)))
}

// What follows the head.
fn lay_after(
    write: bool,
    words: &[u32],
    pairs: &[u32],
    text: &[u8],
    head: u32,
    level: u32,
    at: usize,
    out: &mut [u8],
    pos: usize,
) -> Result<(usize, usize), Refusal>
    requires { Checked words.now pairs.now text.now × (level < 2 ^ 30) × Ready write out.old pos (after_at words.now pairs.now text.now head level at) }
    ensures { Went write out.old pos (after_at words.now pairs.now text.now head level at) out.new result }
{
    match head {
        STRUCT..=TYPE_SYNONYM => lay_fronted(write, words, pairs, text, head, level, at, out, pos),
        USE => lay_use(write, words, pairs, text, at, out, pos),
        _ => Err(Refusal::UnknownWord),
    }
}

// The declaration at `at`.
pub fn lay_declaration(
    write: bool,
    words: &[u32],
    pairs: &[u32],
    text: &[u8],
    level: u32,
    at: usize,
    out: &mut [u8],
    pos: usize,
) -> Result<(usize, usize), Refusal>
    requires { Checked words.now pairs.now text.now × (level < 2 ^ 30) × Ready write out.old pos (declaration_text_at words.now pairs.now text.now level at) }
    ensures { Went write out.old pos (declaration_text_at words.now pairs.now text.now level at) out.new result }
{
    let (value, next) = encoding::scan_word(words, at)?;
    lay_after(write, words, pairs, text, value, level, next, out, pos)
}

// Lists of fields, with names or without.
#![tactic(auto)]

ghost use Rattle.std.specs.Prelude.{◌≡◌, true, ◌+◌, ◌^◌, ◌<◌, ◌≤◌, length};
ghost use Rattle.rast.specs.DeclarationToString.{separator_text};
ghost use Rattle.rast.specs.Indent.{indent};
ghost use Rattle.buffer.specs.Wrote.{Wrote};
ghost use Rattle.text_pass.specs.Passes.{Checked, Ready, Came, Counts};
ghost use Rattle.text_pass.specs.Texts.{type_text_at};
ghost use Rattle.text_formal.specs.Labels.{Labelled, LabelWritten};
ghost use Rattle.text_fields.specs.Texts.{are_named, entry_gap, list_front, list_end, no_fields, rest_at, field_at, entries_at, some_at, list_at};

use accepted_types::Spot;
use encoding::Refusal;
use text_formal::Label;
use text_type::Part;

// What a list is of: named fields, which stand on lines of their own, or fields without names, one behind the other or on lines of their own.
#[derive(Clone, Copy, Debug, PartialEq, Eq)]
pub enum Entry {
    Named,
    Inline,
    Lined,
}

// Whether they have names.
fn is_named(entry: Entry) -> bool
    ensures { result ≡ are_named entry }
{
    matches!(entry, Entry::Named)
}

// Kept: one function for counting and for writing a part is no plainer: counting may refuse and has no buffer, and writing is never refused.

// ---- counting

// What stands before a field's type, if it has a name.
fn count_label(
    words: &[u32],
    pairs: &[u32],
    text: &[u8],
    named: bool,
    at: usize,
    pos: usize,
) -> Result<Label, Refusal>
    requires { Checked words.now pairs.now text.now }
    ensures { Labelled (type_text_at words.now pairs.now text.now) pos (rest_at words.now pairs.now text.now named at) result }
{
    if named {
        return text_formal::count_label(words, pairs, text, at, pos);
    }
    Ok(Label::Open { next: at, pos })
}

// A field behind its visibility: its name and type, or its type alone. All types of fields are counted by this one call.
fn count_rest(
    words: &[u32],
    pairs: &[u32],
    text: &[u8],
    named: bool,
    at: usize,
    pos: usize,
) -> Result<(usize, usize), Refusal>
    requires { Checked words.now pairs.now text.now }
    ensures { Counts pos (rest_at words.now pairs.now text.now named at) result }
{
    let label = count_label(words, pairs, text, named, at, pos)?;
    match label {
        Label::Open { next, pos: p } => text_pass::count_field_type(words, pairs, text, next, p),
        Label::Whole { next, pos: p } => Ok((next, p)),
    }
}

// A field, counted.
fn count_field(
    words: &[u32],
    pairs: &[u32],
    text: &[u8],
    named: bool,
    at: usize,
    pos: usize,
) -> Result<(usize, usize), Refusal>
    requires { Checked words.now pairs.now text.now }
    ensures { Counts pos (field_at words.now pairs.now text.now named at) result }
{
    let (next, p) = text_pass::count_visibility(words, at, pos)?;
    count_rest(words, pairs, text, named, next, p)
}

// What stands between two of them.
fn gap_length(entry: Entry, level: u32) -> usize
    requires { level < 2 ^ 31 }
    ensures { (result ≡ length (entry_gap entry level)) × (result < 2 ^ 40) }
{
    match entry {
        Entry::Inline => 2,
        Entry::Named | Entry::Lined => 6 + 4 * level as usize,
    }
}

// What stands before the first field.
fn front_length(named: bool, level: u32) -> usize
    requires { level < 2 ^ 31 }
    ensures { (result ≡ length (list_front named level)) × (result < 2 ^ 40) }
{
    if named {
        return 7 + 4 * level as usize;
    }
    1
}

// What stands behind the last one.
fn end_length(named: bool, level: u32) -> usize
    requires { level < 2 ^ 31 }
    ensures { (result ≡ length (list_end named level)) × (result < 2 ^ 40) }
{
    if named {
        return 2 + 4 * level as usize;
    }
    1
}

// What stands for no fields.
fn none_length(named: bool) -> usize
    ensures { (result ≡ length (no_fields named)) × (result < 2 ^ 40) }
{
    if named {
        return 3;
    }
    2
}

// `n` of them, one at least, counted.
fn count_entries(
    words: &[u32],
    pairs: &[u32],
    text: &[u8],
    entry: Entry,
    level: u32,
    n: u32,
    at: usize,
    pos: usize,
) -> Result<(usize, usize), Refusal>
    requires { Checked words.now pairs.now text.now × (0 < n) × (level < 2 ^ 31) }
    ensures { Counts pos (entries_at words.now pairs.now text.now entry level n at) result }
{
    let named = is_named(entry);
    let mut place = at;
    let mut p = pos;
    for i in 0..n {
        if 0 < i {
            p = buffer::count_few(p, gap_length(entry, level));
        }
        let (next, end) = count_field(words, pairs, text, named, place, p)?;
        place = next;
        p = end;
    }
    Ok((place, p))
}

// `n` fields with what stands around them.
fn count_some(
    words: &[u32],
    pairs: &[u32],
    text: &[u8],
    entry: Entry,
    level: u32,
    n: u32,
    at: usize,
    pos: usize,
) -> Result<(usize, usize), Refusal>
    requires { Checked words.now pairs.now text.now × (0 < n) × (level < 2 ^ 31) }
    ensures { Counts pos (some_at words.now pairs.now text.now entry level n at) result }
{
    let named = is_named(entry);
    let p = buffer::count_few(pos, front_length(named, level));
    let (next, end) = count_entries(words, pairs, text, entry, level, n, at, p)?;
    Ok((next, buffer::count_few(end, end_length(named, level))))
}

// The fields behind the word that says whether they have names.
pub fn count_list(
    words: &[u32],
    pairs: &[u32],
    text: &[u8],
    entry: Entry,
    level: u32,
    at: usize,
    pos: usize,
) -> Result<(usize, usize), Refusal>
    requires { Checked words.now pairs.now text.now × (level < 2 ^ 31) }
    ensures { Counts pos (list_at words.now pairs.now text.now entry level at) result }
{
    let (value, next) = encoding::scan_word(words, at)?;
    if value == 0 {
        return Ok((next, buffer::count_few(pos, none_length(is_named(entry)))));
    }
    count_some(words, pairs, text, entry, level, value, next, pos)
}

// ---- writing what was accepted

// What stands before a field's type, if it has a name.
fn write_label(
    words: &[u32],
    pairs: &[u32],
    text: &[u8],
    named: bool,
    at: usize,
    out: &mut [u8],
    pos: usize,
) -> Part
    requires { Checked words.now pairs.now text.now × Ready true out.old pos (rest_at words.now pairs.now text.now named at) }
    ensures { LabelWritten (type_text_at words.now pairs.now text.now) out.old pos (rest_at words.now pairs.now text.now named at) out.new result }
{
    if named {
        return text_formal::write_label(words, pairs, text, at, out, pos);
    }
    Part::Rest(Spot { next: at, pos })
}

// A field behind its visibility: its name and type, or its type alone. All types of fields are written by this one call.
fn write_rest(
    words: &[u32],
    pairs: &[u32],
    text: &[u8],
    named: bool,
    at: usize,
    out: &mut [u8],
    pos: usize,
) -> Spot
    requires { Checked words.now pairs.now text.now × Ready true out.old pos (rest_at words.now pairs.now text.now named at) }
    ensures { Came true out.old pos (rest_at words.now pairs.now text.now named at) out.new result.next result.pos }
{
    match write_label(words, pairs, text, named, at, out, pos) {
        Part::Rest(spot) => text_pass::write_field_type(
            words, pairs, text, spot.next, out, spot.pos,
        ),
        Part::Done(spot) => spot,
    }
}

// A field.
fn write_field(
    words: &[u32],
    pairs: &[u32],
    text: &[u8],
    named: bool,
    at: usize,
    out: &mut [u8],
    pos: usize,
) -> Spot
    requires { Checked words.now pairs.now text.now × Ready true out.old pos (field_at words.now pairs.now text.now named at) }
    ensures { Came true out.old pos (field_at words.now pairs.now text.now named at) out.new result.next result.pos }
{
    let p = text_pass::write_visibility(words, at, out, pos);
    write_rest(words, pairs, text, named, at + 1, out, p)
}

// A comma, and the next line of the fields.
fn write_comma_line(level: u32, out: &mut [u8], pos: usize) -> usize
    requires { (level < 2 ^ 31) × (pos + length (separator_text (indent level) true) ≤ length out.old) }
    ensures { Wrote out.old pos (separator_text (indent level) true) out.new result }
{
    let p = buffer::put(b",", out, pos);
    text_doc::put_line(level + 1, out, p)
}

// What stands between two of them.
fn write_gap(entry: Entry, level: u32, out: &mut [u8], pos: usize) -> usize
    requires { (level < 2 ^ 31) × (pos + length (entry_gap entry level) ≤ length out.old) }
    ensures { Wrote out.old pos (entry_gap entry level) out.new result }
{
    match entry {
        Entry::Inline => buffer::put(b", ", out, pos),
        Entry::Named | Entry::Lined => write_comma_line(level, out, pos),
    }
}

// `n` of them, one at least.
fn write_entries(
    words: &[u32],
    pairs: &[u32],
    text: &[u8],
    entry: Entry,
    level: u32,
    n: u32,
    at: usize,
    out: &mut [u8],
    pos: usize,
) -> Spot
    requires { Checked words.now pairs.now text.now × (0 < n) × (level < 2 ^ 31) × Ready true out.old pos (entries_at words.now pairs.now text.now entry level n at) }
    ensures { Came true out.old pos (entries_at words.now pairs.now text.now entry level n at) out.new result.next result.pos }
{
    let named = is_named(entry);
    let mut spot = Spot { next: at, pos };
    for i in 0..n {
        if 0 < i {
            spot.pos = write_gap(entry, level, out, spot.pos);
        }
        spot = write_field(words, pairs, text, named, spot.next, out, spot.pos);
    }
    spot
}

// What stands before the first field.
fn write_front(named: bool, level: u32, out: &mut [u8], pos: usize) -> usize
    requires { (level < 2 ^ 31) × (pos + length (list_front named level) ≤ length out.old) }
    ensures { Wrote out.old pos (list_front named level) out.new result }
{
    if named {
        let p = buffer::put(b" {", out, pos);
        return text_doc::put_line(level + 1, out, p);
    }
    buffer::put(b"(", out, pos)
}

// What stands behind the last one.
fn write_end(named: bool, level: u32, out: &mut [u8], pos: usize) -> usize
    requires { pos + length (list_end named level) ≤ length out.old }
    ensures { Wrote out.old pos (list_end named level) out.new result }
{
    if named {
        let p = text_doc::put_line(level, out, pos);
        return buffer::put(b"}", out, p);
    }
    buffer::put(b")", out, pos)
}

// What stands for no fields.
fn write_none(named: bool, out: &mut [u8], pos: usize) -> usize
    requires { pos + length (no_fields named) ≤ length out.old }
    ensures { Wrote out.old pos (no_fields named) out.new result }
{
    if named {
        return buffer::put(b" {}", out, pos);
    }
    buffer::put(b"()", out, pos)
}

// `n` fields with what stands around them.
fn write_some(
    words: &[u32],
    pairs: &[u32],
    text: &[u8],
    entry: Entry,
    level: u32,
    n: u32,
    at: usize,
    out: &mut [u8],
    pos: usize,
) -> Spot
    requires { Checked words.now pairs.now text.now × (0 < n) × (level < 2 ^ 31) × Ready true out.old pos (some_at words.now pairs.now text.now entry level n at) }
    ensures { Came true out.old pos (some_at words.now pairs.now text.now entry level n at) out.new result.next result.pos }
{
    let named = is_named(entry);
    let p = write_front(named, level, out, pos);
    let spot = write_entries(words, pairs, text, entry, level, n, at, out, p);
    Spot {
        next: spot.next,
        pos: write_end(named, level, out, spot.pos),
    }
}

// The fields behind the word that says whether they have names.
pub fn write_list(
    words: &[u32],
    pairs: &[u32],
    text: &[u8],
    entry: Entry,
    level: u32,
    at: usize,
    out: &mut [u8],
    pos: usize,
) -> Spot
    requires { Checked words.now pairs.now text.now × (level < 2 ^ 31) × Ready true out.old pos (list_at words.now pairs.now text.now entry level at) }
    ensures { Came true out.old pos (list_at words.now pairs.now text.now entry level at) out.new result.next result.pos }
{
    let n = words[at];
    if n == 0 {
        return Spot {
            next: at + 1,
            pos: write_none(is_named(entry), out, pos),
        };
    }
    // Both were only handed on so far: `encoding::all` says why they are made again.
    let pairs = encoding::all(pairs);
    let text = encoding::all(text);
    write_some(words, pairs, text, entry, level, n, at + 1, out, pos)
}

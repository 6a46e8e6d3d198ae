// One pass that accepts or refuses a declaration: a function for each part, which says where the part ends.
#![tactic(auto)]

ghost use Rattle.std.specs.Prelude.{◌≡◌, ◌≤◌, length};
ghost use Rattle.encoding.specs.Words.{max_words};
ghost use Rattle.encoding.specs.Tested.{Good};
ghost use Rattle.encoding.specs.Types.{type_at};
ghost use Rattle.encoding.specs.Declarations.{read_list, read_counted, declaration_at};
ghost use Rattle.encoding.specs.Scans.{ended};
ghost use Rattle.accept_declaration.specs.Ends.{parameter_at, formal_at, field_end, each_field_end, fields_at, case_at, signature_end, heading_end, struct_at, enum_at, synonym_at, use_end, held_at};

use encoding::Refusal;
use encoding::words::{ENUM, FIELD_KINDS, NAMED, STRUCT, TYPE_SYNONYM, USE, VISIBILITIES};

// `count` types.
fn scan_types(
    words: &[u32],
    pairs: &[u32],
    text: &[u8],
    at: usize,
    count: u32,
) -> Result<usize, Refusal>
    requires { Good pairs.now text.now × (length words.now ≤ max_words) }
    ensures { result ≡ ended (read_list (type_at words.now pairs.now text.now) count at) }
{
    declaration_walk::scan_each(at, count, |p| accept_type::scan_type(words, pairs, text, p))
}

// A parameter: a name, how many constraints, and these.
fn scan_parameter(words: &[u32], pairs: &[u32], text: &[u8], at: usize) -> Result<usize, Refusal>
    requires { Good pairs.now text.now × (length words.now ≤ max_words) }
    ensures { result ≡ ended (parameter_at words.now pairs.now text.now at) }
{
    let (_, second, next) = declaration_walk::scan_entry(words, encoding::name_count(pairs), at)?;
    scan_types(words, pairs, text, next, second)
}

// `count` parameters.
fn scan_each_parameter(
    words: &[u32],
    pairs: &[u32],
    text: &[u8],
    at: usize,
    count: u32,
) -> Result<usize, Refusal>
    requires { Good pairs.now text.now × (length words.now ≤ max_words) }
    ensures { result ≡ ended (read_list (parameter_at words.now pairs.now text.now) count at) }
{
    declaration_walk::scan_each(at, count, |p| scan_parameter(words, pairs, text, p))
}

// A name and a type.
fn scan_formal(words: &[u32], pairs: &[u32], text: &[u8], at: usize) -> Result<usize, Refusal>
    requires { Good pairs.now text.now × (length words.now ≤ max_words) }
    ensures { result ≡ ended (formal_at words.now pairs.now text.now at) }
{
    let (_, next) = encoding::scan_below(words, encoding::name_count(pairs), at)?;
    accept_type::scan_type(words, pairs, text, next)
}

// A field, named if `kind` is 0.
fn scan_field(
    words: &[u32],
    pairs: &[u32],
    text: &[u8],
    kind: u32,
    at: usize,
) -> Result<usize, Refusal>
    requires { Good pairs.now text.now × (length words.now ≤ max_words) }
    ensures { result ≡ field_end words.now pairs.now text.now kind at }
{
    let (_, next) = encoding::scan_below(words, VISIBILITIES, at)?;
    if kind == NAMED {
        return scan_formal(words, pairs, text, next);
    }
    accept_type::scan_type(words, pairs, text, next)
}

// `count` fields.
fn scan_each_field(
    words: &[u32],
    pairs: &[u32],
    text: &[u8],
    kind: u32,
    at: usize,
    count: u32,
) -> Result<usize, Refusal>
    requires { Good pairs.now text.now × (length words.now ≤ max_words) }
    ensures { result ≡ each_field_end words.now pairs.now text.now kind count at }
{
    declaration_walk::scan_each(at, count, |p| scan_field(words, pairs, text, kind, p))
}

// Fields: their kind, how many, and these.
fn scan_fields(words: &[u32], pairs: &[u32], text: &[u8], at: usize) -> Result<usize, Refusal>
    requires { Good pairs.now text.now × (length words.now ≤ max_words) }
    ensures { result ≡ ended (fields_at words.now pairs.now text.now at) }
{
    let (first, second, next) = declaration_walk::scan_entry(words, FIELD_KINDS, at)?;
    scan_each_field(words, pairs, text, first, next, second)
}

// A case: doc, name, fields.
fn scan_case(words: &[u32], pairs: &[u32], text: &[u8], at: usize) -> Result<usize, Refusal>
    requires { Good pairs.now text.now × (length words.now ≤ max_words) }
    ensures { result ≡ ended (case_at words.now pairs.now text.now at) }
{
    let bound = encoding::name_count(pairs);
    let (_, _, next) = declaration_walk::scan_two(words, bound, bound, at)?;
    scan_fields(words, pairs, text, next)
}

// `count` cases.
fn scan_each_case(
    words: &[u32],
    pairs: &[u32],
    text: &[u8],
    at: usize,
    count: u32,
) -> Result<usize, Refusal>
    requires { Good pairs.now text.now × (length words.now ≤ max_words) }
    ensures { result ≡ ended (read_list (case_at words.now pairs.now text.now) count at) }
{
    declaration_walk::scan_each(at, count, |p| scan_case(words, pairs, text, p))
}

// Cases: how many, and these.
fn scan_cases(words: &[u32], pairs: &[u32], text: &[u8], at: usize) -> Result<usize, Refusal>
    requires { Good pairs.now text.now × (length words.now ≤ max_words) }
    ensures { result ≡ ended (read_counted words.now (case_at words.now pairs.now text.now) at) }
{
    let (value, next) = encoding::scan_word(words, at)?;
    scan_each_case(words, pairs, text, next, value)
}

// A name, how many parameters, and these.
fn scan_signature(words: &[u32], pairs: &[u32], text: &[u8], at: usize) -> Result<usize, Refusal>
    requires { Good pairs.now text.now × (length words.now ≤ max_words) }
    ensures { result ≡ signature_end words.now pairs.now text.now at }
{
    let (_, second, next) = declaration_walk::scan_entry(words, encoding::name_count(pairs), at)?;
    scan_each_parameter(words, pairs, text, next, second)
}

// What a struct, an enum and a type synonym begin with behind the head: doc, attributes, name, parameters.
fn scan_heading(words: &[u32], pairs: &[u32], text: &[u8], at: usize) -> Result<usize, Refusal>
    requires { Good pairs.now text.now × (length words.now ≤ max_words) }
    ensures { result ≡ heading_end words.now pairs.now text.now at }
{
    let bound = encoding::name_count(pairs);
    let (_, next) = encoding::scan_below(words, bound, at)?;
    let end = declaration_walk::scan_attributes(words, bound, next)?;
    scan_signature(words, pairs, text, end)
}

// A struct behind its head: what it begins with, and fields.
fn scan_struct(words: &[u32], pairs: &[u32], text: &[u8], at: usize) -> Result<usize, Refusal>
    requires { Good pairs.now text.now × (length words.now ≤ max_words) }
    ensures { result ≡ ended (struct_at words.now pairs.now text.now at) }
{
    let next = scan_heading(words, pairs, text, at)?;
    scan_fields(words, pairs, text, next)
}

// An enum: the same, and cases.
fn scan_enum(words: &[u32], pairs: &[u32], text: &[u8], at: usize) -> Result<usize, Refusal>
    requires { Good pairs.now text.now × (length words.now ≤ max_words) }
    ensures { result ≡ ended (enum_at words.now pairs.now text.now at) }
{
    let next = scan_heading(words, pairs, text, at)?;
    scan_cases(words, pairs, text, next)
}

// A type synonym: the same, and a type.
fn scan_synonym(words: &[u32], pairs: &[u32], text: &[u8], at: usize) -> Result<usize, Refusal>
    requires { Good pairs.now text.now × (length words.now ≤ max_words) }
    ensures { result ≡ ended (synonym_at words.now pairs.now text.now at) }
{
    let next = scan_heading(words, pairs, text, at)?;
    accept_type::scan_type(words, pairs, text, next)
}

// A use behind its head: visibility and path.
fn scan_use(words: &[u32], bound: usize, at: usize) -> Result<usize, Refusal>
    ensures { result ≡ use_end bound words.now at }
{
    let (_, next) = encoding::scan_below(words, VISIBILITIES, at)?;
    let (_, end) = encoding::scan_path(words, bound, next)?;
    Ok(end)
}

// Where the declaration at `at` ends, or the refusal that is met first.
pub fn accept_declaration(
    words: &[u32],
    pairs: &[u32],
    text: &[u8],
    at: usize,
) -> Result<usize, Refusal>
    requires { Good pairs.now text.now × (length words.now ≤ max_words) }
    ensures { result ≡ ended (declaration_at words.now pairs.now text.now at) }
{
    let (value, next) = encoding::scan_word(words, at)?;
    match value {
        STRUCT => scan_struct(words, pairs, text, next),
        ENUM => scan_enum(words, pairs, text, next),
        TYPE_SYNONYM => scan_synonym(words, pairs, text, next),
        USE => scan_use(words, encoding::name_count(pairs), next),
        _ => Err(Refusal::UnknownWord),
    }
}

// What an encoding holds.
#[derive(Clone, Copy, Debug, PartialEq, Eq)]
pub enum Whole {
    AType,
    ADeclaration,
}

// Where the type or the declaration at 0 ends, or the refusal that is met first.
pub fn accept(what: Whole, words: &[u32], pairs: &[u32], text: &[u8]) -> Result<usize, Refusal>
    requires { Good pairs.now text.now × (length words.now ≤ max_words) }
    ensures { result ≡ ended (held_at what words.now pairs.now text.now) }
{
    match what {
        Whole::AType => accept_type::scan_type(words, pairs, text, 0),
        Whole::ADeclaration => accept_declaration(words, pairs, text, 0),
    }
}

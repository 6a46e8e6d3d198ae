// A declaration as a run of own words and types: a walk that finds the types one behind the other.
#![tactic(auto)]

ghost use Rattle.std.specs.Prelude.{◌≡◌, true, ◌^◌, ◌≤◌, ◌<◌};
ghost use Rattle.encoding.specs.Declarations.{read_list};
ghost use Rattle.encoding.specs.Forms.{present};
ghost use Rattle.encoding.specs.Scans.{ended};
ghost use Rattle.declaration_walk.specs.declared.After.TheVariants.{FieldList, CaseList, NoMore};
ghost use Rattle.declaration_walk.specs.Walks.{read_entry, read_two, two_scan, moved, in_field, FieldNext, field_type, past_field, Stepped, EachScanned, read_one_attribute, read_attributes, read_using, read_opening, started_at, titled, started};

use encoding::Refusal;
use encoding::words::{ENUM, FIELD_KINDS, NAMED, STRUCT, TYPE_SYNONYM, USE, VISIBILITIES};

// What a type is in its declaration.
#[derive(Clone, Copy, Debug, PartialEq, Eq)]
pub enum Role {
    Constraint,
    StructField,
    CaseField,
    Aliased,
}

// What follows the parameters: fields, whose types have a role; cases; a type; or nothing.
#[derive(Clone, Copy, Debug, PartialEq, Eq)]
pub enum After {
    FieldList(Role),
    CaseList,
    OneType,
    NoMore,
}

// Where a walk has come to: `types` types are due at `place`, then `parameters` parameters, then what `after` says, or so many fields
// (`kind` 0 named, 1 nameless) and cases. The types that are due, those of the parameters and those of the fields have the role `role`. Counts may be as large as a word, since no more is known of them.
#[derive(Clone, Copy, Debug, PartialEq, Eq)]
pub struct Walk {
    pub place: usize,
    pub role: Role,
    pub types: u32,
    pub parameters: u32,
    pub after: After,
    // Kept: a word of the encoding, whose form the C interface fixes.
    pub kind: u32,
    pub fields: u32,
    pub cases: u32,
}

// The next step of a walk: own words up to the walk's place; a type at its place, with its role and the walk behind it but for the place; or the end.
#[derive(Clone, Copy, Debug, PartialEq, Eq)]
pub enum Next {
    OwnWords(Walk),
    TypeDue(Role, Walk),
    Ended,
}

// A word below `bound`, and any other behind it.
pub fn scan_entry(words: &[u32], bound: usize, at: usize) -> Result<(u32, u32, usize), Refusal>
    ensures { result ≡ two_scan (read_entry bound words.now at) }
{
    let (first, next) = encoding::scan_below(words, bound, at)?;
    let (second, end) = encoding::scan_word(words, next)?;
    Ok((first, second, end))
}

// Two words, each below its bound.
pub fn scan_two(
    words: &[u32],
    bound: usize,
    other: usize,
    at: usize,
) -> Result<(u32, u32, usize), Refusal>
    ensures { result ≡ two_scan (read_two bound other words.now at) }
{
    let (first, next) = encoding::scan_below(words, bound, at)?;
    let (second, end) = encoding::scan_below(words, other, next)?;
    Ok((first, second, end))
}

// ---- steps

// A parameter's own words.
fn open_parameter(words: &[u32], bound: usize, walk: Walk) -> Result<Next, Refusal>
    requires { (walk.types ≡ 0) × (0 < walk.parameters) }
    ensures { Stepped bound words.now walk result }
{
    let (_, types, place) = scan_entry(words, bound, walk.place)?;
    Ok(Next::OwnWords(Walk {
        place,
        types,
        parameters: walk.parameters - 1,
        ..walk
    }))
}

// The own words before fields.
fn open_fields(words: &[u32], bound: usize, walk: Walk, role: Role) -> Result<Next, Refusal>
    requires { (walk.types ≡ 0) × (walk.parameters ≡ 0) × (walk.after ≡ FieldList role) }
    ensures { Stepped bound words.now walk result }
{
    let (kind, fields, place) = scan_entry(words, FIELD_KINDS, walk.place)?;
    Ok(Next::OwnWords(Walk {
        place,
        role,
        types: 0,
        parameters: 0,
        after: After::NoMore,
        kind,
        fields,
        cases: walk.cases,
    }))
}

// How many cases there are.
fn open_cases(words: &[u32], bound: usize, walk: Walk) -> Result<Next, Refusal>
    requires { (walk.types ≡ 0) × (walk.parameters ≡ 0) × (walk.after ≡ CaseList) }
    ensures { Stepped bound words.now walk result }
{
    let (cases, place) = encoding::scan_word(words, walk.place)?;
    Ok(Next::OwnWords(Walk {
        place,
        role: Role::CaseField,
        types: 0,
        parameters: 0,
        after: After::NoMore,
        kind: 0,
        fields: 0,
        cases,
    }))
}

// The walk in a field, whose type follows at `next`.
fn in_field(walk: Walk, next: usize) -> Walk
    requires { 0 < walk.fields }
    ensures { result ≡ in_field walk next }
{
    Walk {
        types: 1,
        ..past_field(walk, next)
    }
}

// A field's own words: visibility, and a name if fields have names.
fn open_field(words: &[u32], bound: usize, walk: Walk) -> Result<Next, Refusal>
    requires { (walk.types ≡ 0) × (walk.parameters ≡ 0) × (walk.after ≡ NoMore) × (0 < walk.fields) }
    ensures { Stepped bound words.now walk result }
{
    if walk.kind == NAMED {
        let (_, _, next) = scan_two(words, VISIBILITIES, bound, walk.place)?;
        return Ok(Next::OwnWords(in_field(walk, next)));
    }
    let (_, next) = encoding::scan_below(words, VISIBILITIES, walk.place)?;
    Ok(Next::OwnWords(in_field(walk, next)))
}

// A case's doc and name.
fn open_case(words: &[u32], bound: usize, walk: Walk) -> Result<Next, Refusal>
    requires { (walk.types ≡ 0) × (walk.parameters ≡ 0) × (walk.after ≡ NoMore) × (walk.fields ≡ 0) × (0 < walk.cases) }
    ensures { Stepped bound words.now walk result }
{
    let (_, _, place) = scan_two(words, bound, bound, walk.place)?;
    Ok(Next::OwnWords(Walk {
        place,
        role: Role::CaseField,
        types: 0,
        parameters: 0,
        after: After::FieldList(Role::CaseField),
        kind: 0,
        fields: 0,
        cases: walk.cases - 1,
    }))
}

// A field or a case, if one is due.
fn next_member(words: &[u32], bound: usize, walk: Walk) -> Result<Next, Refusal>
    requires { (walk.types ≡ 0) × (walk.parameters ≡ 0) × (walk.after ≡ NoMore) }
    ensures { Stepped bound words.now walk result }
{
    if walk.fields != 0 {
        return open_field(words, bound, walk);
    }
    if walk.cases != 0 {
        return open_case(words, bound, walk);
    }
    Ok(Next::Ended)
}

// Whether a walk stands between fields and cases, with no type and no parameter due.
pub fn is_at_members(walk: Walk) -> bool
    ensures { result ≡ true → (walk.types ≡ 0) × (walk.parameters ≡ 0) × (walk.after ≡ NoMore) }
{
    walk.types == 0 && walk.parameters == 0 && matches!(walk.after, After::NoMore)
}

// Whether a field comes next.
pub fn is_field_next(walk: Walk) -> bool
    ensures { result ≡ true → FieldNext walk }
{
    walk.fields != 0 && is_at_members(walk)
}

// Where the type of the next field stands: behind its visibility, and behind its name if fields have names.
pub fn field_type(walk: Walk) -> usize
    requires { walk.place ≤ 2 ^ 62 }
    ensures { result ≡ field_type walk }
{
    if walk.kind == NAMED {
        return walk.place + 2;
    }
    walk.place + 1
}

// The walk behind the next field, which ends at `place`.
pub fn past_field(walk: Walk, place: usize) -> Walk
    requires { 0 < walk.fields }
    ensures { result ≡ past_field walk place }
{
    Walk {
        place,
        types: 0,
        parameters: 0,
        after: After::NoMore,
        fields: walk.fields - 1,
        ..walk
    }
}

// The next step of a walk; `bound` is the number of names.
pub fn next_piece(words: &[u32], bound: usize, walk: Walk) -> Result<Next, Refusal>
    ensures { Stepped bound words.now walk result }
{
    if walk.types != 0 {
        let behind = Walk {
            types: walk.types - 1,
            ..walk
        };
        return Ok(Next::TypeDue(walk.role, behind));
    }
    if walk.parameters != 0 {
        return open_parameter(words, bound, walk);
    }
    match walk.after {
        After::FieldList(fields) => open_fields(words, bound, walk, fields),
        After::CaseList => open_cases(words, bound, walk),
        After::OneType => Ok(Next::TypeDue(
            Role::Aliased,
            Walk {
                place: walk.place,
                role: Role::Aliased,
                types: 0,
                parameters: 0,
                after: After::NoMore,
                kind: 0,
                fields: 0,
                cases: 0,
            },
        )),
        After::NoMore => next_member(words, bound, walk),
    }
}

// The walk at another place.
pub fn move_to(walk: Walk, place: usize) -> Walk
    ensures { result ≡ moved walk place }
{
    Walk { place, ..walk }
}

// ---- the start

// An attribute: a name, how many names, and these.
fn scan_attribute(words: &[u32], bound: usize, at: usize) -> Result<usize, Refusal>
    ensures { result ≡ ended (read_one_attribute bound words.now at) }
{
    let (_, second, next) = scan_entry(words, bound, at)?;
    encoding::scan_names(words, bound, next, second)
}

// `count` things that begin at `at`, one behind the other: `one` says where each ends.
pub fn scan_each<F: Fn(usize) -> Result<usize, Refusal>>(
    at: usize,
    count: u32,
    one: F,
) -> Result<usize, Refusal>
    requires { F.IsAlwaysCallable one }
    ensures { EachScanned (F.post one) count at result }
{
    let mut pos = at;
    for _ in 0..count {
        pos = one(pos)?;
    }
    Ok(pos)
}

// `count` attributes.
fn scan_each_attribute(words: &[u32], bound: usize, at: usize, count: u32) -> Result<usize, Refusal>
    ensures { result ≡ ended (read_list (read_one_attribute bound words.now) count at) }
{
    scan_each(at, count, |p| scan_attribute(words, bound, p))
}

// Attributes: how many, and these.
pub fn scan_attributes(words: &[u32], bound: usize, at: usize) -> Result<usize, Refusal>
    ensures { result ≡ ended (read_attributes bound words.now at) }
{
    let (value, next) = encoding::scan_word(words, at)?;
    scan_each_attribute(words, bound, next, value)
}

// The walk behind a title whose name and number of parameters stand at `at`.
fn start_parameters(words: &[u32], bound: usize, after: After, at: usize) -> Result<Walk, Refusal>
    ensures { result ≡ started_at after (read_entry bound words.now at) }
{
    let (_, second, next) = scan_entry(words, bound, at)?;
    Ok(Walk {
        place: next,
        role: Role::Constraint,
        types: 0,
        parameters: second,
        after,
        kind: 0,
        fields: 0,
        cases: 0,
    })
}

// What a struct, an enum and a type synonym begin with behind the head: doc, attributes, name, number of parameters.
fn start_title(words: &[u32], bound: usize, after: After, at: usize) -> Result<Walk, Refusal>
    ensures { result ≡ titled after bound words.now at }
{
    let (_, next) = encoding::scan_below(words, bound, at)?;
    let end = scan_attributes(words, bound, next)?;
    start_parameters(words, bound, after, end)
}

// A use behind its head: visibility and path, and nothing after them.
fn start_use(words: &[u32], bound: usize, at: usize) -> Result<Walk, Refusal>
    ensures { result ≡ started (read_using present.use_head bound words.now at) }
{
    let (_, next) = encoding::scan_below(words, VISIBILITIES, at)?;
    let (_, end) = encoding::scan_path(words, bound, next)?;
    Ok(Walk {
        place: end,
        role: Role::Constraint,
        types: 0,
        parameters: 0,
        after: After::NoMore,
        kind: 0,
        fields: 0,
        cases: 0,
    })
}

// The walk behind the first own words of the declaration at `at`.
pub fn start_walk(words: &[u32], bound: usize, at: usize) -> Result<Walk, Refusal>
    ensures { result ≡ started (read_opening present bound words.now at) }
{
    let (value, next) = encoding::scan_word(words, at)?;
    match value {
        STRUCT => start_title(words, bound, After::FieldList(Role::StructField), next),
        ENUM => start_title(words, bound, After::CaseList, next),
        TYPE_SYNONYM => start_title(words, bound, After::OneType, next),
        USE => start_use(words, bound, next),
        _ => Err(Refusal::UnknownWord),
    }
}

// Paths that RAST's shapes and parts name, and the applications of such paths.
#![tactic(auto)]

ghost use Rattle.std.specs.Prelude.{◌≡◌, ◌<◌, false, [], slice_index_or};
ghost use Rattle.rast.specs.Bytes.{among, same, begins, ascii};
ghost use Rattle.encoding.specs.Words.{first_pair};
ghost use Rattle.encoding.specs.Tables.{fixed_names, name_bytes, name_count};
ghost use Rattle.encoding.specs.Tested.{Good};
ghost use Rattle.encoding.specs.HeadWords.{InsidePath};
ghost use Rattle.encoding.specs.Types.{path_of, type_at};
ghost use Rattle.accepted_types.specs.Accepted.{Readable};
ghost use Rattle.known_paths.specs.declared.Class.TheVariants.{Counted};
ghost use Rattle.unwrap.specs.Asked.{Judges};
ghost use Rattle.known_paths.specs.Asked.{InRuntime, Finds};
ghost use Rattle.known_paths.specs.Classes.{is_set, in_class, member_in, arity, name_count_of, is_of, first};
ghost use Rattle.known_paths.specs.Paths.{same_path, in_std, runtime_member};

use encoding::words::{
    ARC, BOX, BOXED, DAFNY_RUNTIME, FIRST_PAIR, GLOBAL, MAYBE_PLACEBO, MAYBE_UNINIT, MEM, OBJECT,
    PTR, RC, RC_MODULE, STD, SYNC, TYPE_APP, TYPE_FROM_PATH,
};
use encoding::{Head, PathAt};

// The paths whose applications are told apart: `Rc` and `Arc`, `Box`, `MaybeUninit`, and members of `dafny_runtime`.
#[derive(Clone, Copy, Debug, PartialEq, Eq)]
pub enum Class {
    Counted,
    Boxed,
    Uninit,
    Placebo,
    ObjectClass,
    PtrClass,
    ArrayClass,
    Collection,
    MapClass,
}

// ---- names and paths

// Whether a name has these bytes, which no fixed name has.
fn is_other_name(pairs: &[u32], text: &[u8], name: u32, bytes: &[u8]) -> bool
    requires { (name < name_count pairs.now) × Good pairs.now text.now × (among bytes.now fixed_names ≡ false) }
    ensures { result ≡ same (name_bytes pairs.now text.now name) bytes.now }
{
    if name < FIRST_PAIR {
        return false;
    }
    encoding::same_bytes(encoding::pair_bytes(pairs, text, name), bytes)
}

// Whether a name begins with `Array`, which no fixed name does.
fn is_array_name(pairs: &[u32], text: &[u8], name: u32) -> bool
    requires { (name < name_count pairs.now) × Good pairs.now text.now }
    ensures { result ≡ begins (ascii "Array") (name_bytes pairs.now text.now name) }
{
    if name < FIRST_PAIR {
        return false;
    }
    encoding::pair_bytes(pairs, text, name).starts_with(b"Array")
}

// Whether a name is `Set`, `Sequence` or `Multiset`.
fn is_set_name(pairs: &[u32], text: &[u8], name: u32) -> bool
    requires { (name < name_count pairs.now) × Good pairs.now text.now }
    ensures { result ≡ is_set (name_bytes pairs.now text.now name) }
{
    if is_other_name(pairs, text, name, b"Set") {
        return true;
    }
    if is_other_name(pairs, text, name, b"Sequence") {
        return true;
    }
    is_other_name(pairs, text, name, b"Multiset")
}

// Whether a path is the member `third` of the member `second` of `std`, two fixed names with their bytes.
fn is_in_std(
    words: &[u32],
    pairs: &[u32],
    text: &[u8],
    path: PathAt,
    second: u32,
    middle: &[u8],
    third: u32,
    last: &[u8],
) -> bool
    requires { InsidePath (name_count pairs.now) words.now path × Good pairs.now text.now
        × (second < first_pair) × (middle.now ≡ slice_index_or fixed_names second []) × (third < first_pair) × (last.now ≡ slice_index_or fixed_names third []) }
    ensures { result ≡ same_path (path_of words.now (name_bytes pairs.now text.now) path)
        (in_std (slice_index_or fixed_names second []) (slice_index_or fixed_names third [])) }
{
    if path.root != GLOBAL {
        return false;
    }
    if path.count != 3 {
        return false;
    }
    let start = path.start;
    if !encoding::is_name(pairs, text, words[start], STD, b"std") {
        return false;
    }
    if !encoding::is_name(pairs, text, words[start + 1], second, middle) {
        return false;
    }
    encoding::is_name(pairs, text, words[start + 2], third, last)
}

// Whether a path is a member of `dafny_runtime`: the second of its two names is then the member's.
fn is_in_runtime(words: &[u32], pairs: &[u32], text: &[u8], path: PathAt) -> bool
    requires { InsidePath (name_count pairs.now) words.now path × Good pairs.now text.now }
    ensures { InRuntime words.now pairs.now text.now path result }
{
    if path.root != GLOBAL {
        return false;
    }
    if path.count != 2 {
        return false;
    }
    let start = path.start;
    encoding::is_name(pairs, text, words[start], DAFNY_RUNTIME, b"dafny_runtime")
}

// Whether the member `name` of `dafny_runtime` is of the class.
fn is_member(pairs: &[u32], text: &[u8], class: Class, name: u32) -> bool
    requires { (name < name_count pairs.now) × Good pairs.now text.now }
    ensures { result ≡ member_in class (name_bytes pairs.now text.now name) }
{
    match class {
        Class::Counted | Class::Boxed | Class::Uninit => false,
        Class::Placebo => encoding::is_name(pairs, text, name, MAYBE_PLACEBO, b"MaybePlacebo"),
        Class::ObjectClass => encoding::is_name(pairs, text, name, OBJECT, b"Object"),
        Class::PtrClass => encoding::is_name(pairs, text, name, PTR, b"Ptr"),
        Class::ArrayClass => is_array_name(pairs, text, name),
        Class::Collection => is_set_name(pairs, text, name),
        Class::MapClass => is_other_name(pairs, text, name, b"Map"),
    }
}

// Whether a path is a member of `dafny_runtime` of the class.
fn is_runtime_class(words: &[u32], pairs: &[u32], text: &[u8], class: Class, path: PathAt) -> bool
    requires { InsidePath (name_count pairs.now) words.now path × Good pairs.now text.now }
    ensures { result ≡ runtime_member (member_in class) (path_of words.now (name_bytes pairs.now text.now) path) }
{
    let start = path.start;
    if !is_in_runtime(words, pairs, text, path) {
        return false;
    }
    is_member(pairs, text, class, words[start + 1])
}

// Whether a path is `::std::rc::Rc` or `::std::sync::Arc`.
fn is_counted(words: &[u32], pairs: &[u32], text: &[u8], path: PathAt) -> bool
    requires { InsidePath (name_count pairs.now) words.now path × Good pairs.now text.now }
    ensures { result ≡ in_class Counted (path_of words.now (name_bytes pairs.now text.now) path) }
{
    if is_in_std(words, pairs, text, path, RC_MODULE, b"rc", RC, b"Rc") {
        return true;
    }
    is_in_std(words, pairs, text, path, SYNC, b"sync", ARC, b"Arc")
}

// Whether a path is of the class. It is made again from its parts: as a whole it would be copied at once, and wait for the stores that made it.
fn is_in_class(words: &[u32], pairs: &[u32], text: &[u8], class: Class, path: PathAt) -> bool
    requires { InsidePath (name_count pairs.now) words.now path × Good pairs.now text.now }
    ensures { result ≡ in_class class (path_of words.now (name_bytes pairs.now text.now) path) }
{
    let path = PathAt {
        root: path.root,
        start: path.start,
        count: path.count,
    };
    match class {
        Class::Counted => is_counted(words, pairs, text, path),
        Class::Boxed => is_in_std(words, pairs, text, path, BOXED, b"boxed", BOX, b"Box"),
        Class::Uninit => is_in_std(
            words,
            pairs,
            text,
            path,
            MEM,
            b"mem",
            MAYBE_UNINIT,
            b"MaybeUninit",
        ),
        Class::Placebo
        | Class::ObjectClass
        | Class::PtrClass
        | Class::ArrayClass
        | Class::Collection
        | Class::MapClass => is_runtime_class(words, pairs, text, class, path),
    }
}

// How many arguments an application has, and how many names its path has.
#[derive(Clone, Copy, Debug, PartialEq, Eq)]
struct PathForm {
    arguments: u32,
    names: u32,
}

// The form of the applications of a class.
fn form_of(class: Class) -> PathForm
    ensures { (result.arguments ≡ arity class) × (result.names ≡ name_count_of class) }
{
    match class {
        Class::Counted | Class::Boxed | Class::Uninit => PathForm {
            arguments: 1,
            names: 3,
        },
        Class::Placebo
        | Class::ObjectClass
        | Class::PtrClass
        | Class::ArrayClass
        | Class::Collection => PathForm {
            arguments: 1,
            names: 2,
        },
        Class::MapClass => PathForm {
            arguments: 2,
            names: 2,
        },
    }
}

// ---- on an accepted type

// The first argument of an application of a path of the class.
pub fn first_argument(
    words: &[u32],
    pairs: &[u32],
    text: &[u8],
    class: Class,
    at: usize,
) -> Option<usize>
    requires { Good pairs.now text.now × Readable (type_at words.now pairs.now text.now at) }
    ensures { Finds (first class) (type_at words.now pairs.now text.now) at result }
{
    let bound = encoding::name_count(pairs);
    let Ok((head, base)) = encoding::scan_head(words, bound, at) else {
        return None;
    };
    let Head::Apply(n) = head else {
        return None;
    };
    if n != form_of(class).arguments {
        return None;
    }
    let Ok((name, next)) = encoding::scan_head(words, bound, base) else {
        return None;
    };
    let Head::FromPath(path) = name else {
        return None;
    };
    if is_in_class(words, pairs, text, class, path) {
        return Some(next);
    }
    None
}

// Whether a type is an application of a path of the class. Shapes only ask this, and most types are no application: it is seen by the words, without taking heads.
pub fn is_of(words: &[u32], pairs: &[u32], text: &[u8], class: Class, at: usize) -> bool
    requires { Good pairs.now text.now × Readable (type_at words.now pairs.now text.now at) }
    ensures { Judges (is_of class) (type_at words.now pairs.now text.now at) result }
{
    if words[at] != TYPE_APP {
        return false;
    }
    let form = form_of(class);
    if words[at + 1] != form.arguments {
        return false;
    }
    let base = at + 2;
    if words[base] != TYPE_FROM_PATH {
        return false;
    }
    if words[base + 2] != form.names {
        return false;
    }
    let path = PathAt {
        root: words[base + 1],
        start: base + 3,
        count: words[base + 2],
    };
    is_in_class(words, pairs, text, class, path)
}

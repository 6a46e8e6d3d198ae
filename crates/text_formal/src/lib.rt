// A named field's name and type: `Formal.ToString`. A field named `self` may show without its type. The type itself is left to the caller, so that it is counted
// and written at one place, whether a field has a name or not.
#![tactic(auto)]

ghost use Rattle.rast.specs.DeclarationToString.{is_self_owned};
ghost use Rattle.encoding.specs.Tables.{name_bytes, name_count};
ghost use Rattle.encoding.specs.Tested.{Good};
ghost use Rattle.encoding.specs.Types.{type_at};
ghost use Rattle.text_measure.specs.Lengths.{measure_of};
ghost use Rattle.accepted_types.specs.Accepted.{Readable};
ghost use Rattle.unwrap.specs.Asked.{Judges};
ghost use Rattle.std.specs.Prelude.{Ok, ◌≡◌, true, false, ◌<◌};
ghost use Rattle.rast.specs.Bytes.{ascii, same};
ghost use Rattle.text_pass.specs.Passes.{Checked, Ready};
ghost use Rattle.text_pass.specs.Texts.{type_text_at};
ghost use Rattle.text_formal.specs.Texts.{formal_at, formal_of, typed_at};
ghost use Rattle.text_formal.specs.Labels.{Labelled, LabelWritten};
ghost use Rattle.text_formal.specs.Receivers.{receiver_of, NoReceiver, BorrowKind, is_self_borrowed_as, Tells};

use accepted_types::Spot;
use encoding::Refusal;
use encoding::words::{
    BORROWED, BORROWED_MUT, SELF_NAME, SELF_ROOT, T_IDENTIFIER, TYPE_FROM_PATH, UNDERSCORE,
};
use text_type::Part;

// How far a named field was counted, in the words and in the text: up to its type, or whole.
#[derive(Clone, Copy, Debug, PartialEq, Eq)]
pub enum Label {
    Open { next: usize, pos: usize },
    Whole { next: usize, pos: usize },
}

// How a field named `self` shows: the name alone, behind `&` or `&mut `, or with its type.
#[derive(Clone, Copy, Debug, PartialEq, Eq)]
enum Receiver {
    ByValue,
    ByRef,
    ByMut,
    Typed,
}

// Whether an accepted type is `Self`.
fn is_self_type(words: &[u32], pairs: &[u32], text: &[u8], at: usize) -> bool
    requires { Readable (type_at words.now pairs.now text.now at) }
    ensures { Judges is_self_owned (type_at words.now pairs.now text.now at) result }
{
    if words[at] != TYPE_FROM_PATH {
        return false;
    }
    if words[at + 1] != SELF_ROOT {
        return false;
    }
    words[at + 2] == 0
}

// Whether an accepted type is a borrow of that kind, of `Self`: `&Self` or `&mut Self`.
fn is_self_borrowed(words: &[u32], pairs: &[u32], text: &[u8], kind: u32, at: usize) -> bool
    requires { BorrowKind kind × Readable (type_at words.now pairs.now text.now at) }
    ensures { Judges (is_self_borrowed_as kind) (type_at words.now pairs.now text.now at) result }
{
    if words[at] != kind {
        return false;
    }
    is_self_type(words, pairs, text, at + 1)
}

// Whether the type `_` stands at `at`, accepted or not.
fn is_underscore(words: &[u32], pairs: &[u32], text: &[u8], at: usize) -> bool
    requires { Good pairs.now text.now }
    ensures { Tells (type_at words.now pairs.now text.now at) at result }
{
    if words.len() <= at {
        return false;
    }
    if words[at] != T_IDENTIFIER {
        return false;
    }
    match encoding::scan_below(words, encoding::name_count(pairs), at + 1) {
        Ok((value, _)) => encoding::is_name(pairs, text, value, UNDERSCORE, b"_"),
        Err(_) => false,
    }
}

// How a field named `self` shows, by its accepted type.
fn self_form(words: &[u32], pairs: &[u32], text: &[u8], at: usize) -> Receiver
    requires { Good pairs.now text.now × Readable (type_at words.now pairs.now text.now at) }
    ensures { Judges receiver_of (type_at words.now pairs.now text.now at) result }
{
    if is_self_type(words, pairs, text, unwrap::expand(words, pairs, text, at)) {
        return Receiver::ByValue;
    }
    if is_self_borrowed(words, pairs, text, BORROWED, at) {
        return Receiver::ByRef;
    }
    if is_self_borrowed(words, pairs, text, BORROWED_MUT, at) {
        return Receiver::ByMut;
    }
    if is_underscore(words, pairs, text, at) {
        return Receiver::ByValue;
    }
    Receiver::Typed
}

// Whether an accepted type is `_`.
// Kept: one function for this and `is_underscore` is no plainer, it would take a flag that says whether the type was accepted, and test what is known here.
fn is_accepted_underscore(words: &[u32], pairs: &[u32], text: &[u8], at: usize) -> bool
    requires { Good pairs.now text.now × Readable (type_at words.now pairs.now text.now at) }
    ensures { Tells (type_at words.now pairs.now text.now at) at result }
{
    if words[at] != T_IDENTIFIER {
        return false;
    }
    encoding::is_name(pairs, text, words[at + 1], UNDERSCORE, b"_")
}

// ---- counting

// A name, before the type at `at`.
fn count_open(words: &[u32], pairs: &[u32], text: &[u8], name: u32, at: usize, pos: usize) -> Label
    requires { Checked words.now pairs.now text.now × (name < name_count pairs.now) }
    ensures { Labelled (type_text_at words.now pairs.now text.now) pos (typed_at words.now pairs.now text.now name at) (Ok result) }
{
    Label::Open {
        next: at,
        pos: buffer::count_few(pos, encoding::name_length(pairs, name) + 2),
    }
}

// Whether a field may show as a receiver: it is named `self`, and its type is neither plain nor a name, which show the same whatever the field is called.
fn may_receive(words: &[u32], pairs: &[u32], text: &[u8], name: u32, at: usize) -> bool
    requires { (name < name_count pairs.now) × Good pairs.now text.now }
    ensures { (result ≡ true → same (name_bytes pairs.now text.now name) (ascii "self") ≡ true)
        × (result ≡ false → NoReceiver (name_bytes pairs.now text.now name) (type_at words.now pairs.now text.now at)) }
{
    if encoding::is_name(pairs, text, name, SELF_NAME, b"self") {
        if at < words.len() {
            return T_IDENTIFIER < words[at];
        }
    }
    false
}

// A field that is no receiver.
fn count_typed(words: &[u32], pairs: &[u32], text: &[u8], name: u32, at: usize, pos: usize) -> Label
    requires { Checked words.now pairs.now text.now × (name < name_count pairs.now) × NoReceiver (name_bytes pairs.now text.now name) (type_at words.now pairs.now text.now at) }
    ensures { Labelled (type_text_at words.now pairs.now text.now) pos (formal_of words.now pairs.now text.now name at) (Ok result) }
{
    if is_underscore(words, pairs, text, at) {
        return Label::Whole {
            next: at + 2,
            pos: buffer::count_few(pos, encoding::name_length(pairs, name)),
        };
    }
    count_open(words, pairs, text, name, at, pos)
}

// A name and the type behind it, which was measured: it ends at `end`, and its text has `bytes` bytes.
fn count_measured(
    words: &[u32],
    pairs: &[u32],
    text: &[u8],
    name: u32,
    end: usize,
    bytes: usize,
    at: usize,
    pos: usize,
) -> Label
    requires { Checked words.now pairs.now text.now × (name < name_count pairs.now) × (Ok (end, bytes) ≡ measure_of (type_at words.now pairs.now text.now at)) }
    ensures { Labelled (type_text_at words.now pairs.now text.now) pos (typed_at words.now pairs.now text.now name at) (Ok result) }
{
    let open = buffer::count_few(pos, encoding::name_length(pairs, name) + 2);
    Label::Whole {
        next: end,
        pos: buffer::count_on(open, bytes),
    }
}

// A field named `self`, whose type was measured.
fn count_receiver(
    words: &[u32],
    pairs: &[u32],
    text: &[u8],
    name: u32,
    end: usize,
    bytes: usize,
    at: usize,
    pos: usize,
) -> Label
    requires { Checked words.now pairs.now text.now × (name < name_count pairs.now) × (same (name_bytes pairs.now text.now name) (ascii "self") ≡ true) × (Ok (end, bytes) ≡ measure_of (type_at words.now pairs.now text.now at)) }
    ensures { Labelled (type_text_at words.now pairs.now text.now) pos (formal_of words.now pairs.now text.now name at) (Ok result) }
{
    let front = match self_form(words, pairs, text, at) {
        Receiver::ByValue => 0,
        Receiver::ByRef => 1,
        Receiver::ByMut => 5,
        Receiver::Typed => {
            return count_measured(words, pairs, text, name, end, bytes, at, pos);
        }
    };
    Label::Whole {
        next: end,
        pos: buffer::count_few(pos, front + encoding::name_length(pairs, name)),
    }
}

// A field named `self`. Its type is measured before it is looked at, and not again where it shows.
fn count_self(
    words: &[u32],
    pairs: &[u32],
    text: &[u8],
    name: u32,
    at: usize,
    pos: usize,
) -> Result<Label, Refusal>
    requires { Checked words.now pairs.now text.now × (name < name_count pairs.now) × (same (name_bytes pairs.now text.now name) (ascii "self") ≡ true) }
    ensures { Labelled (type_text_at words.now pairs.now text.now) pos (formal_of words.now pairs.now text.now name at) result }
{
    let (next, bytes) = text_measure::measure_type(words, pairs, text, at)?;
    Ok(count_receiver(words, pairs, text, name, next, bytes, at, pos))
}

// A field's name and type, `Formal.ToString`, or all of it but the type.
pub fn count_label(
    words: &[u32],
    pairs: &[u32],
    text: &[u8],
    at: usize,
    pos: usize,
) -> Result<Label, Refusal>
    requires { Checked words.now pairs.now text.now }
    ensures { Labelled (type_text_at words.now pairs.now text.now) pos (formal_at words.now pairs.now text.now at) result }
{
    let (name, next) = encoding::scan_below(words, encoding::name_count(pairs), at)?;
    if may_receive(words, pairs, text, name, next) {
        return count_self(words, pairs, text, name, next, pos);
    }
    Ok(count_typed(words, pairs, text, name, next, pos))
}

// ---- writing what was accepted

// A name, before the type at `at`.
fn write_open(
    words: &[u32],
    pairs: &[u32],
    text: &[u8],
    name: u32,
    at: usize,
    out: &mut [u8],
    pos: usize,
) -> Part
    requires { Checked words.now pairs.now text.now × (name < name_count pairs.now) × Ready true out.old pos (typed_at words.now pairs.now text.now name at) }
    ensures { LabelWritten (type_text_at words.now pairs.now text.now) out.old pos (typed_at words.now pairs.now text.now name at) out.new result }
{
    let p = encoding::put_name(pairs, text, name, out, pos);
    Part::Rest(Spot {
        next: at,
        pos: buffer::put(b": ", out, p),
    })
}

// A field named `self`.
fn write_receiver(
    words: &[u32],
    pairs: &[u32],
    text: &[u8],
    name: u32,
    at: usize,
    out: &mut [u8],
    pos: usize,
) -> Part
    requires { Checked words.now pairs.now text.now × (name < name_count pairs.now) × (same (name_bytes pairs.now text.now name) (ascii "self") ≡ true) × Ready true out.old pos (formal_of words.now pairs.now text.now name at) }
    ensures { LabelWritten (type_text_at words.now pairs.now text.now) out.old pos (formal_of words.now pairs.now text.now name at) out.new result }
{
    let p = match self_form(words, pairs, text, at) {
        Receiver::ByValue => pos,
        Receiver::ByRef => buffer::put(b"&", out, pos),
        Receiver::ByMut => buffer::put(b"&mut ", out, pos),
        Receiver::Typed => {
            return write_open(words, pairs, text, name, at, out, pos);
        }
    };
    Part::Done(Spot {
        next: accepted_types::skip_type(words, pairs, text, at),
        pos: encoding::put_name(pairs, text, name, out, p),
    })
}

// A field's name and type, `Formal.ToString`, or all of it but the type. One function for all names but `self`: with one more the slices would be copied for each
// field.
pub fn write_label(
    words: &[u32],
    pairs: &[u32],
    text: &[u8],
    at: usize,
    out: &mut [u8],
    pos: usize,
) -> Part
    requires { Checked words.now pairs.now text.now × Ready true out.old pos (formal_at words.now pairs.now text.now at) }
    ensures { LabelWritten (type_text_at words.now pairs.now text.now) out.old pos (formal_at words.now pairs.now text.now at) out.new result }
{
    let name = words[at];
    let next = at + 1;
    if encoding::is_name(pairs, text, name, SELF_NAME, b"self") {
        return write_receiver(words, pairs, text, name, next, out, pos);
    }
    if is_accepted_underscore(words, pairs, text, next) {
        return Part::Done(Spot {
            next: next + 2,
            pos: encoding::put_name(pairs, text, name, out, pos),
        });
    }
    write_open(words, pairs, text, name, next, out, pos)
}

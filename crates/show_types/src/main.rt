// Prints some types, a line each: a first look at the library.
//
// An encoding holds a type as words, a table of pairs and a text. The words are the type's tree, each type before its parts: the number of its
// kind, then what that kind asks for. A name is a number too: some are fixed, as `std`, `rc` and `Rc`, and the others are the pairs'. `encoding::words` has names for
// all these numbers.
#![tactic(auto)]

use encoding::words::{
    ARRAY, BOOL, BORROWED, FIRST_PAIR, FN_TYPE, GLOBAL, I32, RC, RC_MODULE, STD, STRUCT,
    T_IDENTIFIER, T_SYNONYM, TUPLE_TYPE, TYPE_APP, TYPE_FROM_PATH, U8,
};
use std::io;

// A pair is where a name starts in the text, and its length. These are `Gauge`, `Meters` and `4`.
const PAIRS: [u32; 6] = [0, 5, 5, 6, 11, 1];

const GAUGE: u32 = FIRST_PAIR;

const METERS: u32 = FIRST_PAIR + 1;

const FOUR: u32 = FIRST_PAIR + 2;

// An array's size is written as a name's number plus 1, no size as 0.
const NO_SIZE: u32 = 0;

const SIZE_FOUR: u32 = FOUR + 1;

// A path has a root and, here, 3 names.
const COUNTED: [u32; 10] = [
    TYPE_APP,
    1,
    TYPE_FROM_PATH,
    GLOBAL,
    3,
    STD,
    RC_MODULE,
    RC,
    T_IDENTIFIER,
    GAUGE,
];

fn print(rt: &impl Print, bytes: &[u8]) -> io::Result<()> {
    rt.write_all(bytes)
}

// A line of what a type is, and its text. The call fills the front of the buffer and answers how long the text is, or why there is none.
// Its contract says that the length lies within the buffer, so `&buffer[..n]` needs no test.
fn show(rt: &impl Print, what: &str, words: &[u32]) -> io::Result<()> {
    let names = b"GaugeMeters4";
    let mut buffer = [0u8; 64];
    print!(rt; "{what}: ")?;
    match text_calls::type_text(words, &PAIRS, names, 0, &mut buffer) {
        Ok(n) => print(rt, &buffer[..n])?,
        Err(r) => print!(rt; "refused {}", u32::from(r))?,
    }
    print(rt, b"\n")
}

fn main(rt: HostRuntime) -> io::Result<()> {
    // A type that is applied, to 1 argument.
    show(
        &rt,
        "a type with an argument",
        &[TYPE_APP, 1, T_IDENTIFIER, GAUGE, U8],
    )?;
    show(&rt, "a borrowed slice", &[BORROWED, ARRAY, NO_SIZE, I32])?;
    show(&rt, "a counted reference", &COUNTED)?;
    // A function of 2 arguments. Its return type comes last.
    show(
        &rt,
        "a function",
        &[FN_TYPE, 2, U8, BORROWED, T_IDENTIFIER, GAUGE, BOOL],
    )?;
    // A tuple of 2 types. The first is a synonym: its name, and then the type that it stands for.
    show(
        &rt,
        "a tuple with a synonym",
        &[TUPLE_TYPE, 2, T_SYNONYM, T_IDENTIFIER, METERS, I32, BOOL],
    )?;
    show(&rt, "an array with a size", &[ARRAY, SIZE_FOUR, U8])?;
    // A struct is no type.
    show(&rt, "an unknown word", &[BORROWED, STRUCT])
}

// Runs test vectors: each record of standard input is a call of the library, whose answer is printed.
//
// A record is a header of six numbers (the call, the level, how many words, numbers in the pair table, text bytes and buffer bytes), then the
// words, the pair table and the text. Each number is a u32, little-endian. The answer is a line `done N` or `refused N` and the whole buffer,
// which held `.` bytes before the call; of a soundness call it is `yes`, `no` or `refused N`. A call that prints a file has the file for its
// text, and the answer is what is printed.
//
// A call that rebuilds a tree or lists positions counts its buffer in words, and the buffer is printed as a line of decimals. Where it takes
// rules, the level is the number of their words, which follow the text. Of a shape or a part the level says which. A shape is answered as
// soundness is; a part by a line `part START LENGTH` and a line of its words, or a line `refused N` and an empty line.
//
// What is no such record ends the run with the line `bad record`. A read or a write that fails ends it with an error.
#![tactic(auto)]

ghost use Rattle.std.specs.Prelude.{◌≡◌, ◌≤◌, length};
ghost use Rattle.std.specs.Io.{ReadsAtMost};
ghost use Rattle.vectors.specs.Header.{header_of};

use encoding::Refusal;
use parts::Span;
use std::io;
use std::io::Read;

// Kept: numbers, since each call is what a record's first number says; `run_call` alone tells them apart, and refuses the others.
const TYPE_TEXT: u32 = 1;

const PATH_TEXT: u32 = 2;

const TYPE_IS_SOUND: u32 = 3;

const DECLARATION_TEXT: u32 = 4;

const PRINTED_FILE: u32 = 5;

const TYPE_REBUILD: u32 = 6;

const DECLARATION_REBUILD: u32 = 7;

const TYPE_AT_INITIALIZATION: u32 = 8;

const TYPE_VISIT: u32 = 9;

const DECLARATION_VISIT: u32 = 10;

const SHAPE: u32 = 11;

const PART: u32 = 12;

// What a buffer of words holds before the call: `.` bytes.
const DOTS: u32 = 774778414;

const LAST_PART: u32 = 10;

// The most that a record may hold: a little more than the limits of an encoding and of a file, so that these can be passed.
const MOST_WORDS: usize = 8256;

// Counted in numbers, two to a pair.
const MOST_PAIRS: usize = 2112;

const MOST_TEXT: usize = 57600;

const MOST_BUFFER: usize = 4096;

const HEADER_BYTES: usize = 24;

const WORD_BYTES: usize = 4 * MOST_WORDS;

// The numbers before a record's words: the call, the level, and four lengths.
#[derive(Clone, Copy, Debug, PartialEq, Eq)]
struct Header {
    call: u32,
    level: u32,
    words: usize,
    pairs: usize,
    text: usize,
    buffer: usize,
}

fn header_of(bytes: &[u8; HEADER_BYTES]) -> Header
    ensures { result ≡ header_of bytes.now }
{
    Header {
        call: little_endian::number_at(bytes, 0),
        level: little_endian::number_at(bytes, 4),
        words: little_endian::number_at(bytes, 8) as usize,
        pairs: little_endian::number_at(bytes, 12) as usize,
        text: little_endian::number_at(bytes, 16) as usize,
        buffer: little_endian::number_at(bytes, 20) as usize,
    }
}

// Reads until `bytes` is full or the input ends. The answer is how many bytes were read.
fn read_bytes(input: &mut impl Read, bytes: &mut [u8]) -> io::Result<usize>
    ensures { ReadsAtMost result bytes.new }
{
    let mut done = 0;
    // Kept: `while`, since each read says how far it came; `read_exact` says nothing of where an input ends early.
    while done < bytes.len() {
        let more = input.read(&mut bytes[done..])?;
        if more == 0 {
            break;
        }
        done += more;
    }
    Ok(done)
}

// Fills `out` from standard input. False if the input ends before that.
fn read_numbers(rt: &impl Input, out: &mut [u32]) -> io::Result<bool>
    requires { length out.old ≤ MOST_WORDS }
{
    let mut bytes = [0u8; WORD_BYTES];
    let size = 4 * out.len();
    if read_bytes(&mut rt.reader(), &mut bytes[..size])? < size {
        return Ok(false);
    }
    little_endian::read_numbers(&bytes, 0, out);
    Ok(true)
}

fn read_text(rt: &impl Input, out: &mut [u8]) -> io::Result<bool> {
    let size = out.len();
    Ok(read_bytes(&mut rt.reader(), out)? == size)
}

fn print(rt: &impl Print, bytes: &[u8]) -> io::Result<()> {
    rt.write_all(bytes)
}

// A line of a word and a number.
fn print_numbered(rt: &impl Print, word: &str, number: u64) -> io::Result<()> {
    println!(rt; "{word} {number}")
}

fn print_refusal(rt: &impl Print, r: Refusal) -> io::Result<()> {
    print_numbered(rt, "refused", u32::from(r) as u64)
}

// A line of decimals with a space between each two.
fn print_words(rt: &impl Print, words: &[u32]) -> io::Result<()> {
    for (i, word) in words.iter().enumerate() {
        print_word(rt, i, *word)?;
    }
    print(rt, b"\n")
}

fn print_word(rt: &impl Print, i: usize, word: u32) -> io::Result<()> {
    if i > 0 {
        print(rt, b" ")?;
    }
    print!(rt; "{word}")
}

// A line `done N` or `refused N`.
fn print_count_answer(rt: &impl Print, answer: Result<usize, Refusal>) -> io::Result<()> {
    match answer {
        Ok(n) => print_numbered(rt, "done", n as u64),
        Err(r) => print_refusal(rt, r),
    }
}

fn print_truth_answer(rt: &impl Print, answer: Result<bool, Refusal>) -> io::Result<()> {
    match answer {
        Ok(true) => print(rt, b"yes\n"),
        Ok(false) => print(rt, b"no\n"),
        Err(r) => print_refusal(rt, r),
    }
}

fn print_part_answer(rt: &impl Print, answer: Result<Span, Refusal>) -> io::Result<()> {
    match answer {
        Ok(Span { start, length }) => println!(rt; "part {start} {length}"),
        Err(r) => print_refusal(rt, r),
    }
}

fn call_text(
    call: u32,
    words: &[u32],
    pairs: &[u32],
    text: &[u8],
    level: u32,
    out: &mut [u8],
) -> Result<usize, Refusal> {
    match call {
        TYPE_TEXT => text_calls::type_text(words, pairs, text, level, out),
        PATH_TEXT => text_calls::path_text(words, pairs, text, level, out),
        _ => text_declaration_call::declaration_text(words, pairs, text, level, out),
    }
}

// Makes a text call with a buffer of `.` bytes, and prints its answer.
fn run_text_call(
    rt: &impl Print,
    h: Header,
    words: &[u32],
    pairs: &[u32],
    text: &[u8],
) -> io::Result<()>
    requires { h.buffer ≤ MOST_BUFFER }
{
    let mut buffer = [b'.'; MOST_BUFFER];
    let size = h.buffer;
    let answer = call_text(h.call, words, pairs, text, h.level, &mut buffer[..size]);
    print_count_answer(rt, answer)?;
    print(rt, &buffer[..size])?;
    print(rt, b"\n")
}

// Prints what `printdecl` would print for a file.
fn print_file(rt: &impl Print, file: &[u8]) -> io::Result<()> {
    let mut out = [0u8; 65537];
    let n = file::print_file(file, &mut out);
    print(rt, &out[..n])
}

fn call_words(
    call: u32,
    words: &[u32],
    pairs: &[u32],
    text: &[u8],
    rules: &[u32],
    out: &mut [u32],
) -> Result<usize, Refusal> {
    match call {
        TYPE_AT_INITIALIZATION => rebuild_initial::type_at_initialization(words, pairs, text, out),
        DECLARATION_REBUILD => rebuild_calls::declaration_rebuild(words, pairs, text, rules, out),
        TYPE_VISIT => visits::type_visit(words, pairs, text, out),
        DECLARATION_VISIT => visits::declaration_visit(words, pairs, text, out),
        _ => rebuild_calls::type_rebuild(words, pairs, text, rules, out),
    }
}

// Makes a call whose answer is words, with a buffer of `.` bytes, and prints its answer. A call that lists positions takes no rules.
fn run_words_call(
    rt: &impl Print,
    h: Header,
    words: &[u32],
    pairs: &[u32],
    text: &[u8],
    rules: &[u32],
) -> io::Result<()>
    requires { h.buffer ≤ MOST_BUFFER }
{
    let mut buffer = [DOTS; MOST_BUFFER];
    let size = h.buffer;
    let answer = call_words(h.call, words, pairs, text, rules, &mut buffer[..size]);
    print_count_answer(rt, answer)?;
    print_words(rt, &buffer[..size])
}

// Reads the rules, none for a call that takes none, and makes the call. False if the record is bad.
fn run_rebuild_call(
    rt: &(impl Input + Print),
    h: Header,
    words: &[u32],
    pairs: &[u32],
    text: &[u8],
) -> io::Result<bool>
    requires { h.buffer ≤ MOST_BUFFER }
{
    let count = h.level as usize;
    if MOST_WORDS < count {
        return Ok(false);
    }
    let mut rules = [0u32; MOST_WORDS];
    if !read_numbers(rt, &mut rules[..count])? {
        return Ok(false);
    }
    run_words_call(rt, h, words, pairs, text, &rules[..count])?;
    Ok(true)
}

// Nothing if there is no such shape. Kept: numbers, as for the calls.
fn shape_of(
    which: u32,
    words: &[u32],
    pairs: &[u32],
    text: &[u8],
) -> Option<Result<bool, Refusal>> {
    Some(match which {
        0 => shapes::ends_with_name_that_can_accept_generics(words, pairs, text),
        1 => shapes::is_auto_size(words, pairs, text),
        2 => shapes::can_read_without_clone(words, pairs, text),
        3 => shapes::is_rc_or_borrowed_rc(words, pairs, text),
        4 => shapes::is_multi_array(words, pairs, text),
        5 => shapes::is_maybe_uninit(words, pairs, text),
        6 => shapes::is_uninit_array(words, pairs, text),
        7 => shapes::is_box(words, pairs, text),
        8 => shapes::needs_as_ref_for_borrow(words, pairs, text),
        9 => shapes::is_object(words, pairs, text),
        10 => shapes::is_pointer(words, pairs, text),
        11 => shapes::is_object_or_pointer(words, pairs, text),
        12 => shapes::is_builtin_collection(words, pairs, text),
        13 => shapes::is_rc(words, pairs, text),
        14 => shapes::is_box_dyn(words, pairs, text),
        _ => return None,
    })
}

// False if there is no such shape.
fn run_shape_call(
    rt: &impl Print,
    which: u32,
    words: &[u32],
    pairs: &[u32],
    text: &[u8],
) -> io::Result<bool> {
    let Some(answer) = shape_of(which, words, pairs, text) else {
        return Ok(false);
    };
    print_truth_answer(rt, answer)?;
    Ok(true)
}

fn part_of(which: u32, words: &[u32], pairs: &[u32], text: &[u8]) -> Result<Span, Refusal> {
    match which {
        0 => parts::remove_synonyms_at(words, pairs, text),
        1 => parts::expand_at(words, pairs, text),
        2 => parts::to_owned_at(words, pairs, text),
        3 => parts::multi_array_underlying_at(words, pairs, text),
        4 => parts::box_underlying_at(words, pairs, text),
        5 => parts::object_or_pointer_underlying_at(words, pairs, text),
        6 => parts::rc_underlying_at(words, pairs, text),
        7 => parts::box_dyn_underlying_at(words, pairs, text),
        8 => parts::get_builtin_collection_element_at(words, pairs, text),
        9 => parts::extract_maybe_placebo_at(words, pairs, text),
        _ => parts::extract_maybe_uninit_array_element_at(words, pairs, text),
    }
}

fn part_words<'a>(which: u32, words: &'a [u32], pairs: &[u32], text: &[u8]) -> &'a [u32] {
    match which {
        0 => parts::remove_synonyms(words, pairs, text),
        1 => parts::expand(words, pairs, text),
        2 => parts::to_owned(words, pairs, text),
        3 => parts::multi_array_underlying(words, pairs, text),
        4 => parts::box_underlying(words, pairs, text),
        5 => parts::object_or_pointer_underlying(words, pairs, text),
        6 => parts::rc_underlying(words, pairs, text),
        7 => parts::box_dyn_underlying(words, pairs, text),
        8 => parts::get_builtin_collection_element(words, pairs, text),
        9 => parts::extract_maybe_placebo(words, pairs, text),
        _ => parts::extract_maybe_uninit_array_element(words, pairs, text),
    }
}

// False if there is no such part.
fn run_part_call(
    rt: &impl Print,
    which: u32,
    words: &[u32],
    pairs: &[u32],
    text: &[u8],
) -> io::Result<bool> {
    if LAST_PART < which {
        return Ok(false);
    }
    print_part_answer(rt, part_of(which, words, pairs, text))?;
    print_words(rt, part_words(which, words, pairs, text))?;
    Ok(true)
}

// Makes the call that a header names, and prints its answer. False if there is no such call, or its rules are missing.
fn run_call(
    rt: &(impl Input + Print),
    h: Header,
    words: &[u32],
    pairs: &[u32],
    text: &[u8],
) -> io::Result<bool>
    requires { h.buffer ≤ MOST_BUFFER }
{
    let call = h.call;
    match call {
        TYPE_TEXT | PATH_TEXT | DECLARATION_TEXT => run_text_call(rt, h, words, pairs, text)?,
        TYPE_IS_SOUND => print_truth_answer(rt, sound_type::type_is_sound(words, pairs, text))?,
        PRINTED_FILE => print_file(rt, text)?,
        TYPE_REBUILD | DECLARATION_REBUILD | TYPE_AT_INITIALIZATION => {
            return run_rebuild_call(rt, h, words, pairs, text);
        }
        TYPE_VISIT | DECLARATION_VISIT => run_words_call(rt, h, words, pairs, text, &[])?,
        SHAPE => return run_shape_call(rt, h.level, words, pairs, text),
        PART => return run_part_call(rt, h.level, words, pairs, text),
        _ => return Ok(false),
    }
    Ok(true)
}

// Reads what follows a header, and makes the call. False if the record is bad.
fn run_record(rt: &(impl Input + Print), h: Header) -> io::Result<bool> {
    let word_count = h.words;
    let pair_length = h.pairs;
    let text_length = h.text;
    if MOST_WORDS < word_count {
        return Ok(false);
    }
    if MOST_PAIRS < pair_length {
        return Ok(false);
    }
    if MOST_TEXT < text_length {
        return Ok(false);
    }
    if MOST_BUFFER < h.buffer {
        return Ok(false);
    }
    let mut words = [0u32; MOST_WORDS];
    let mut pairs = [0u32; MOST_PAIRS];
    let mut text = [0u8; MOST_TEXT];
    if !read_numbers(rt, &mut words[..word_count])? {
        return Ok(false);
    }
    if !read_numbers(rt, &mut pairs[..pair_length])? {
        return Ok(false);
    }
    if !read_text(rt, &mut text[..text_length])? {
        return Ok(false);
    }
    run_call(
        rt,
        h,
        &words[..word_count],
        &pairs[..pair_length],
        &text[..text_length],
    )
}

// Runs the next record. False at the end of the input, and after a bad record.
fn run_next(rt: &(impl Input + Print)) -> io::Result<bool> {
    let mut bytes = [0u8; HEADER_BYTES];
    let got = read_bytes(&mut rt.reader(), &mut bytes)?;
    if got == 0 {
        return Ok(false);
    }
    if got == HEADER_BYTES {
        if run_record(rt, header_of(&bytes))? {
            return Ok(true);
        }
    }
    print(rt, b"bad record\n")?;
    Ok(false)
}

// Every loop is proved to end, and nothing says that the input does: so the turns are counted, up to a number that no input uses up.
fn main(rt: HostRuntime) -> io::Result<()> {
    for _ in 0..u64::MAX {
        if !run_next(&rt)? {
            break;
        }
    }
    Ok(())
}

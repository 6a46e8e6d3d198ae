// A file that holds a declaration's encoding, and the bytes that are printed for it.
//
// A file is a header of three numbers (how many pairs, words and text bytes), then the pairs, two numbers each, the words and the text. Each
// number is a u32, little-endian. Document 01 calls an encoding a sheet.
#![tactic(auto)]

ghost use Rattle.std.specs.Prelude.{◌≡◌, ◌+◌, ◌*◌, ◌≤◌, ◌<◌, length};
ghost use Rattle.std.specs.Io.{ReadsAtMost};
ghost use Rattle.buffer.specs.Wrote.{Wrote};
ghost use Rattle.encoding.specs.Words.{max_words, max_pairs, max_text};
ghost use Rattle.encoding.specs.Filled.{filled};
ghost use Rattle.file.specs.File.{decimal, refusal_line, encoded_text, file_text, printed_file, at_front};

use encoding::Refusal;
use encoding::words::{MAX_PAIRS, MAX_TEXT, MAX_WORDS};
use std::io;
use std::io::Read;

const HEADER_BYTES: usize = 12;

// The longest text that is printed. The newline behind it is not counted.
const MOST_PRINTED: usize = 65536;

// Reads until `bytes` is full or the input ends. The answer is how many bytes were read.
// For callers of this library, who lend the reader: the programs read by functions of their own (docs/DECISIONS.md, "How crates are cut and named").
pub fn read_bytes(input: &mut impl Read, bytes: &mut [u8]) -> io::Result<usize>
    ensures { ReadsAtMost result bytes.new }
{
    let mut done = 0;
    // Kept: `while`, since each read says how far it came; `read_exact` says nothing of where an input ends early.
    while done < bytes.len() {
        let more = input.read(&mut bytes[done..])?;
        if more == 0 {
            break;
        }
        done += more;
    }
    Ok(done)
}

// The text of the declaration in a file of the length that its header gives, in the front of `out`.
fn encoded_text(
    file: &[u8],
    pairs: usize,
    words: usize,
    size: usize,
    out: &mut [u8],
) -> Result<usize, Refusal>
    requires { (pairs ≤ max_pairs) × (words ≤ max_words) × (size ≤ max_text) × (length file.now ≡ 12 + 8 * pairs + 4 * words + size) }
    ensures { (result, out.new) ≡ filled out.old (encoded_text pairs words file.now) }
{
    let mut pair_array = [0u32; 2 * MAX_PAIRS];
    let mut word_array = [0u32; MAX_WORDS];
    let mut text_array = [0u8; MAX_TEXT];
    let pair_numbers = 2 * pairs;
    let words_at = HEADER_BYTES + 8 * pairs;
    let text_at = words_at + 4 * words;
    little_endian::read_numbers(file, HEADER_BYTES, &mut pair_array[..pair_numbers]);
    little_endian::read_numbers(file, words_at, &mut word_array[..words]);
    buffer::put_part(file, text_at, size, &mut text_array[..size], 0);
    text_declaration_call::declaration_text(
        &word_array[..words],
        &pair_array[..pair_numbers],
        &text_array[..size],
        0,
        out,
    )
}

// The text of a file's declaration, in the front of `out`. The limits are tested before the file's length, as document 01 asks.
fn file_text(file: &[u8], out: &mut [u8]) -> Result<usize, Refusal>
    ensures { (result, out.new) ≡ filled out.old (file_text file.now) }
{
    if file.len() < HEADER_BYTES {
        return Err(Refusal::BadFileLength);
    }
    let pairs = little_endian::number_at(file, 0) as usize;
    let words = little_endian::number_at(file, 4) as usize;
    let size = little_endian::number_at(file, 8) as usize;
    if MAX_PAIRS < pairs {
        return Err(Refusal::Overlong);
    }
    if MAX_WORDS < words {
        return Err(Refusal::Overlong);
    }
    if MAX_TEXT < size {
        return Err(Refusal::Overlong);
    }
    if file.len() != HEADER_BYTES + 8 * pairs + 4 * words + size {
        return Err(Refusal::BadFileLength);
    }
    encoded_text(file, pairs, words, size, out)
}

// A number below 100, in decimal. The answer is the position behind it.
// Kept: `write!` would ask for a writer over the slice, a type and its proofs for two digits.
fn put_decimal(n: u32, out: &mut [u8], pos: usize) -> usize
    requires { (n < 100) × (pos + 2 ≤ length out.old) }
    ensures { Wrote out.old pos (decimal n) out.new result }
{
    if n < 10 {
        out[pos] = b'0' + n as u8;
        return pos + 1;
    }
    out[pos] = b'0' + (n / 10) as u8;
    out[pos + 1] = b'0' + (n % 10) as u8;
    pos + 2
}

fn put_refusal(r: Refusal, out: &mut [u8]) -> usize
    requires { 11 ≤ length out.old }
    ensures { Wrote out.old 0 (refusal_line r) out.new result }
{
    let digits = buffer::put(b"refused ", out, 0);
    let end = put_decimal(u32::from(r), out, digits);
    buffer::put(b"\n", out, end)
}

// As `print_file`, into a slice: the text goes into all of it but the last byte, which leaves room for the newline.
fn print_into(file: &[u8], out: &mut [u8]) -> usize
    requires { 65537 ≡ length out.old }
    ensures { (result, out.new) ≡ at_front (printed_file file.now) out.old }
{
    match file_text(file, &mut out[..MOST_PRINTED]) {
        Ok(n) => buffer::put(b"\n", out, n),
        Err(r) => put_refusal(r, out),
    }
}

// What is printed for a file, in the front of `out`: its declaration's text at level 0, or the refusal, and a newline. The answer is its length.
pub fn print_file(file: &[u8], out: &mut [u8; 65537]) -> usize
    ensures { (result, out.new) ≡ at_front (printed_file file.now) out.old }
{
    print_into(file, out)
}

#[cfg(test)]
mod tests {
    use super::*;
    use std::io::{Error, ErrorKind};
    use std::test::Fail;

    #[derive(Drop)]
    struct Broken;

    impl Read for Broken {
        fn read(&mut self, _buf: &mut [u8]) -> io::Result<usize> {
            Err(Error::from(ErrorKind::TimedOut))
        }
    }

    // An input in two pieces: a read gives no more than what is left of a piece. No contract says that `read_bytes` goes on behind it.
    #[test]
    fn reads_until_full_or_the_end(rt: HostRuntime) -> Result<(), Fail> {
        let high: &[u8] = b"high";
        let water: &[u8] = b"water";
        let mut input = high.chain(water);
        let mut bytes = [b'.'; 6];
        assert_eq!(rt; read_bytes(&mut input, &mut [])?, 0);
        assert_eq!(rt; read_bytes(&mut input, &mut bytes)?, 6);
        assert_eq!(rt; bytes, *b"highwa");
        assert_eq!(rt; read_bytes(&mut input, &mut bytes)?, 3);
        assert_eq!(rt; bytes, *b"terhwa");
        assert_eq!(rt; read_bytes(&mut input, &mut bytes)?, 0);
        Ok(())
    }

    #[test]
    fn hands_on_what_failed(rt: HostRuntime) {
        let low: &[u8] = b"low";
        let mut input = low.chain(Broken);
        let mut bytes = [b'.'; 6];
        match read_bytes(&mut input, &mut bytes) {
            Ok(n) => assert!(rt; false, "{n} bytes"),
            Err(e) => assert_eq!(rt; e.kind(), ErrorKind::TimedOut),
        }
        assert_eq!(rt; bytes, *b"low...");
    }
}

// Which names and sizes are sound: document 01's "sound", of bytes.
#![tactic(auto)]

ghost use Rattle.std.specs.Prelude.{◌≡◌, true, [], ◌+◌, ◌-◌, ◌≤◌, ◌<◌, length, take, drop, get_or};
ghost use Rattle.rast.specs.Bytes.{same, each, among};
ghost use Rattle.rast.specs.Sound.{within, is_word_start, is_word_byte, is_word, excluded, sound_name, sound_size};
ghost use Rattle.encoding.specs.Refusals.{pick};
ghost use Rattle.encoding.specs.Tables.{name_bytes, name_count};
ghost use Rattle.encoding.specs.Tested.{Good};
ghost use Rattle.encoding.specs.Types.{size_of};
ghost use Rattle.sound_names.specs.Words.{letters, word_starts, word_lengths, begins_excluded, WordBytes};

use encoding::words::{EMPTY, FIRST_PAIR};

// A letter or an underscore.
fn is_word_start(b: u8) -> bool
    ensures { result ≡ is_word_start b }
{
    if b < b'A' {
        return false;
    }
    if b <= b'Z' {
        return true;
    }
    if b == b'_' {
        return true;
    }
    if b < b'a' {
        return false;
    }
    b <= b'z'
}

// A letter, an underscore or a digit.
fn is_word_byte(b: u8) -> bool
    ensures { result ≡ is_word_byte b }
{
    if is_word_start(b) {
        return true;
    }
    if b < b'0' {
        return false;
    }
    b <= b'9'
}

// There are only letters, underscores and digits.
fn all_word_bytes(bytes: &[u8]) -> bool
    ensures { result ≡ each is_word_byte bytes.now }
{
    for &b in bytes {
        if !is_word_byte(b) {
            return false;
        }
    }
    true
}

// 1 for a byte from `low` to `high`, else 0.
fn lies(b: u8, low: u8, high: u8) -> u8
    ensures { (result ≡ pick (within low high b) 1 0) × (result ≤ 1) }
{
    if b < low {
        return 0;
    }
    if high < b {
        return 0;
    }
    1
}

// 1 for a byte that is no letter, underscore or digit, else 0. All bytes are asked the same, so that it can be done for sixteen at once.
fn strange(b: u8) -> u8
    ensures { (result ≡ pick (is_word_byte b) 0 1) × (result ≤ 1) }
{
    if lies(b, b'A', b'Z') + lies(b, b'a', b'z') + lies(b, b'_', b'_') + lies(b, b'0', b'9') == 0 {
        return 1;
    }
    0
}

// The sixteen bytes from `at` on are letters, underscores and digits.
fn sixteen_word_bytes(text: &[u8], at: usize) -> bool
    requires { at + 16 ≤ length text.now }
    ensures { result ≡ true → WordBytes text.now at (at + 16) }
{
    let mut sum = 0u8;
    for j in 0..16 {
        sum += strange(text[at + j]);
    }
    sum == 0
}

// The bytes from `start` to `end` are letters, underscores and digits. Sixteen at a time are looked at, those behind `end` too where that says enough: what follows
// a name in the text is often another.
fn are_word_bytes(text: &[u8], start: usize, end: usize) -> bool
    requires { (start ≤ end) × (end ≤ length text.now) }
    ensures { result ≡ each is_word_byte (take (end - start) (drop start text.now)) }
{
    for i in (start..end).step_by(16) {
        if text.len() - i < 16 {
            return all_word_bytes(encoding::part(text, i, end));
        }
        if !sixteen_word_bytes(text, i) {
            return all_word_bytes(encoding::part(text, i, end));
        }
    }
    true
}

// From `start` to `end`: a letter or an underscore, and then letters, underscores and digits.
fn is_word(text: &[u8], start: usize, end: usize) -> bool
    requires { (start ≤ end) × (end ≤ length text.now) }
    ensures { result ≡ is_word (take (end - start) (drop start text.now)) }
{
    if end <= start {
        return false;
    }
    if is_word_start(text[start]) {
        return are_word_bytes(text, start + 1, end);
    }
    false
}

// The words that are no names stand one behind the other in `is_listed`: where each starts, and how long it is.
const STARTS: [u8; 17] = [
    0, 2, 5, 8, 11, 15, 17, 20, 23, 26, 30, 35, 39, 42, 46, 49, 54,
];

const LENGTHS: [u8; 17] = [2, 3, 3, 3, 4, 2, 3, 3, 3, 4, 5, 4, 3, 4, 3, 5, 4];

// `bytes` stands at `start` among the letters of these words.
fn stands_at(all: &[u8; 58], bytes: &[u8], start: usize) -> bool
    requires { (all.now ≡ letters) × (start + length bytes.now ≤ 58) }
    ensures { result ≡ same bytes.now (take (length bytes.now) (drop start letters)) }
{
    encoding::same_bytes(bytes, encoding::part(all, start, start + bytes.len()))
}

// `bytes` is excluded word `k`, by the tables of these words.
fn is_excluded_word(
    all: &[u8; 58],
    starts: &[u8; 17],
    lengths: &[u8; 17],
    bytes: &[u8],
    k: usize,
) -> bool
    requires { (all.now ≡ letters) × (starts.now ≡ word_starts) × (lengths.now ≡ word_lengths) × (k < 17) }
    ensures { result ≡ same bytes.now (get_or excluded k []) }
{
    if bytes.len() != lengths[k] as usize {
        return false;
    }
    stands_at(all, bytes, starts[k] as usize)
}

// `bytes` is one of the words that are no names, found by comparing with each. The tables are laid out once for all of them: what is read from one that was just
// laid out waits for that.
fn is_listed(bytes: &[u8]) -> bool
    ensures { result ≡ among bytes.now excluded }
{
    let all = *b"u8u16u32u64u128i8i16i32i64i128usizeboolmutimpldyncrateSelf";
    let starts = STARTS;
    let lengths = LENGTHS;
    for k in 0..17 {
        if is_excluded_word(&all, &starts, &lengths, bytes, k) {
            return true;
        }
    }
    false
}

// Each of these words begins with one of seven letters.
fn begins_excluded(b: u8) -> bool
    ensures { result ≡ begins_excluded b }
{
    match b {
        b'S' => true,
        b'b' => true,
        b'c' => true,
        b'd' => true,
        b'i' => true,
        b'm' => true,
        b'u' => true,
        _ => false,
    }
}

// `bytes` is one of the words that are no names. Most names are told apart by their length or first letter.
fn is_excluded(bytes: &[u8]) -> bool
    ensures { result ≡ among bytes.now excluded }
{
    if bytes.len() == 0 {
        return false;
    }
    if 5 < bytes.len() {
        return false;
    }
    if begins_excluded(bytes[0]) {
        return is_listed(bytes);
    }
    false
}

// Of the fixed names only the empty one is unsound.
pub fn sound_name(pairs: &[u32], text: &[u8], name: u32) -> bool
    requires { (name < name_count pairs.now) × Good pairs.now text.now }
    ensures { result ≡ sound_name (name_bytes pairs.now text.now name) }
{
    if name < FIRST_PAIR {
        return name != EMPTY;
    }
    let start = encoding::pair_word(pairs, name, 0);
    let end = start + encoding::pair_word(pairs, name, 1);
    if is_word(text, start, end) {
        return !is_excluded(encoding::part(text, start, end));
    }
    false
}

// The sizes that the empty name and the first pair stand for: a name's number plus 1.
const EMPTY_SIZE: u32 = EMPTY + 1;

const FIRST_PAIR_SIZE: u32 = FIRST_PAIR + 1;

// An array's size: 0 for none, else a name's number plus 1.
pub fn sound_size(pairs: &[u32], text: &[u8], size: u32) -> bool
    requires { (size < name_count pairs.now + 1) × Good pairs.now text.now }
    ensures { result ≡ sound_size (size_of (name_bytes pairs.now text.now) size) }
{
    if size < FIRST_PAIR_SIZE {
        return size != EMPTY_SIZE;
    }
    let bytes = encoding::pair_bytes(pairs, text, size - 1);
    if bytes.len() == 0 {
        return false;
    }
    all_word_bytes(bytes)
}

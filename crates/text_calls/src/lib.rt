// The text of a type and of a path, at a level, into a lent buffer.
#![tactic(auto)]

ghost use Rattle.std.specs.Prelude.{◌≡◌, ◌≤◌, length};
ghost use Rattle.encoding.specs.Words.{max_words};
ghost use Rattle.encoding.specs.Tested.{Good};
ghost use Rattle.encoding.specs.Filled.{filled};
ghost use Rattle.text_calls.specs.Calls.{type_text, path_text};
ghost use Rattle.text_calls.specs.Wholes.{whole_type_text, whole_path_text};

use encoding::Refusal;

// A type is accepted and measured before a byte is written, since a refusal leaves the buffer unchanged.
fn fill_type(words: &[u32], pairs: &[u32], text: &[u8], out: &mut [u8]) -> Result<usize, Refusal>
    requires { Good pairs.now text.now × (length words.now ≤ max_words) }
    ensures { (result, out.new) ≡ filled out.old (whole_type_text words.now pairs.now text.now) }
{
    let (next, bytes) = text_measure::measure_type(words, pairs, text, 0)?;
    if next != words.len() {
        return Err(Refusal::LeftOver);
    }
    if out.len() < bytes {
        return Err(Refusal::BufferTooShort);
    }
    text_type::write_type(words, pairs, text, 0, out, 0);
    Ok(bytes)
}

// Kept: no plainer as one function with `fill_type`, which would take the measure and the writer as closures, with a contract over both.
fn fill_path(words: &[u32], pairs: &[u32], text: &[u8], out: &mut [u8]) -> Result<usize, Refusal>
    requires { Good pairs.now text.now × (length words.now ≤ max_words) }
    ensures { (result, out.new) ≡ filled out.old (whole_path_text words.now pairs.now text.now) }
{
    let (path, next, size) = text_measure::measure_path(words, pairs, text, 0)?;
    if next != words.len() {
        return Err(Refusal::LeftOver);
    }
    if out.len() < size {
        return Err(Refusal::BufferTooShort);
    }
    text_leaf::put_path(words, pairs, text, path, out, 0);
    Ok(size)
}

// The text of the type that an encoding holds, in the front of `out`.
pub fn type_text(
    words: &[u32],
    pairs: &[u32],
    text: &[u8],
    level: u32,
    out: &mut [u8],
) -> Result<usize, Refusal>
    ensures { (result, out.new) ≡ filled out.old (type_text words.now pairs.now text.now level) }
{
    encoding::check_call(words, pairs, text, level)?;
    fill_type(words, pairs, text, out)
}

// The text of the path that an encoding holds, in the front of `out`. The level shows nowhere: it is a parameter so that all text calls are alike.
pub fn path_text(
    words: &[u32],
    pairs: &[u32],
    text: &[u8],
    level: u32,
    out: &mut [u8],
) -> Result<usize, Refusal>
    ensures { (result, out.new) ≡ filled out.old (path_text words.now pairs.now text.now level) }
{
    encoding::check_call(words, pairs, text, level)?;
    fill_path(words, pairs, text, out)
}

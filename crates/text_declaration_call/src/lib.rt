// The text of a declaration, at a level, into a lent buffer.
//
// The call counts first, which accepts or refuses the declaration, and then writes.
#![tactic(auto)]

ghost use Rattle.std.specs.Prelude.{◌≡◌, ◌^◌, ◌<◌};
ghost use Rattle.encoding.specs.Filled.{filled};
ghost use Rattle.text_pass.specs.Passes.{Checked};
ghost use Rattle.text_declaration_call.specs.Calls.{declaration_text};
ghost use Rattle.text_declaration_call.specs.Wholes.{whole_declaration_text};

use encoding::Refusal;

// A declaration is accepted and its text counted before a byte is written, since a refusal leaves the buffer unchanged. Both turns make the same call, so that it is
// inlined.
// Kept: a `for` over the two turns is no plainer, an answer that is never given would stand behind it.
fn fill(
    words: &[u32],
    pairs: &[u32],
    text: &[u8],
    level: u32,
    out: &mut [u8],
) -> Result<usize, Refusal>
    requires { Checked words.now pairs.now text.now × (level < 2 ^ 30) }
    ensures { (result, out.new) ≡ filled out.old (whole_declaration_text words.now pairs.now text.now level) }
{
    let mut write = false;
    loop {
        let (next, bytes) = text_declaration::lay_declaration(
            write, words, pairs, text, level, 0, out, 0,
        )?;
        if write {
            return Ok(bytes);
        }
        if next != words.len() {
            return Err(Refusal::LeftOver);
        }
        if out.len() < bytes {
            return Err(Refusal::BufferTooShort);
        }
        write = true;
    }
}

// The text of the declaration that an encoding holds, in the front of `out`.
pub fn declaration_text(
    words: &[u32],
    pairs: &[u32],
    text: &[u8],
    level: u32,
    out: &mut [u8],
) -> Result<usize, Refusal>
    ensures { (result, out.new) ≡ filled out.old (declaration_text words.now pairs.now text.now level) }
{
    encoding::check_call(words, pairs, text, level)?;
    fill(words, pairs, text, level, out)
}

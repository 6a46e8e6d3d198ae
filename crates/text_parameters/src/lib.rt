// The parameters of a declaration, each with its constraints.
#![tactic(auto)]

ghost use Rattle.std.specs.Prelude.{◌<◌};
ghost use Rattle.text_pass.specs.Passes.{Checked, Ready, Went};
ghost use Rattle.text_parameters.specs.Texts.{some_constraints, constraints_at, parameter_at, some_parameters, parameters_at};

use encoding::Refusal;

// `n` constraints, one at least.
// Kept: the twin of `lay_parameters`. One function over a closure is no plainer: its contract says of every buffer what the closure asks and does, in more lines than it saves.
fn lay_constraints(
    write: bool,
    words: &[u32],
    pairs: &[u32],
    text: &[u8],
    n: u32,
    at: usize,
    out: &mut [u8],
    pos: usize,
) -> Result<(usize, usize), Refusal>
    requires { Checked words.now pairs.now text.now × (0 < n) × Ready write out.old pos (some_constraints words.now pairs.now text.now n at) }
    ensures { Went write out.old pos (some_constraints words.now pairs.now text.now n at) out.new result }
{
    let mut place = at;
    let mut p = pos;
    for i in 0..n {
        (place, p) = text_pass::lay_type(write, words, pairs, text, place, out, p)?;
        if i + 1 < n {
            p = buffer::lay(write, b" + ", out, p);
        }
    }
    Ok((place, p))
}

// The constraints of a parameter, their count first. None have no text.
fn lay_constraint_list(
    write: bool,
    words: &[u32],
    pairs: &[u32],
    text: &[u8],
    at: usize,
    out: &mut [u8],
    pos: usize,
) -> Result<(usize, usize), Refusal>
    requires { Checked words.now pairs.now text.now × Ready write out.old pos (constraints_at words.now pairs.now text.now at) }
    ensures { Went write out.old pos (constraints_at words.now pairs.now text.now at) out.new result }
{
    let (value, next) = encoding::scan_word(words, at)?;
    if value == 0 {
        return Ok((next, pos));
    }
    let p = buffer::lay(write, b": ", out, pos);
    lay_constraints(write, words, pairs, text, value, next, out, p)
}

// A parameter.
fn lay_parameter(
    write: bool,
    words: &[u32],
    pairs: &[u32],
    text: &[u8],
    at: usize,
    out: &mut [u8],
    pos: usize,
) -> Result<(usize, usize), Refusal>
    requires { Checked words.now pairs.now text.now × Ready write out.old pos (parameter_at words.now pairs.now text.now at) }
    ensures { Went write out.old pos (parameter_at words.now pairs.now text.now at) out.new result }
{
    let (next, p) = text_pass::lay_name(write, words, pairs, text, at, out, pos)?;
    lay_constraint_list(write, words, pairs, text, next, out, p)
}

// `n` parameters, one at least.
fn lay_parameters(
    write: bool,
    words: &[u32],
    pairs: &[u32],
    text: &[u8],
    n: u32,
    at: usize,
    out: &mut [u8],
    pos: usize,
) -> Result<(usize, usize), Refusal>
    requires { Checked words.now pairs.now text.now × (0 < n) × Ready write out.old pos (some_parameters words.now pairs.now text.now n at) }
    ensures { Went write out.old pos (some_parameters words.now pairs.now text.now n at) out.new result }
{
    let mut place = at;
    let mut p = pos;
    for i in 0..n {
        (place, p) = lay_parameter(write, words, pairs, text, place, out, p)?;
        if i + 1 < n {
            p = buffer::lay(write, b", ", out, p);
        }
    }
    Ok((place, p))
}

// The parameters of a declaration, their count first. None have no text.
pub fn lay_parameter_list(
    write: bool,
    words: &[u32],
    pairs: &[u32],
    text: &[u8],
    at: usize,
    out: &mut [u8],
    pos: usize,
) -> Result<(usize, usize), Refusal>
    requires { Checked words.now pairs.now text.now × Ready write out.old pos (parameters_at words.now pairs.now text.now at) }
    ensures { Went write out.old pos (parameters_at words.now pairs.now text.now at) out.new result }
{
    let (value, next) = encoding::scan_word(words, at)?;
    if value == 0 {
        return Ok((next, pos));
    }
    let p = buffer::lay(write, b"<", out, pos);
    let (end, q) = lay_parameters(write, words, pairs, text, value, next, out, p)?;
    Ok((end, buffer::lay(write, b">", out, q)))
}

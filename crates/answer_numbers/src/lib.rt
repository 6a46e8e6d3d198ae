// The numbers that the exported calls give for their answers: below 2^63 the answer itself, from there on a refusal.
//
// They stand apart from the calls so that a wrong number is refused by a small crate.
#![tactic(auto)]

ghost use Rattle.std.specs.Prelude.{◌≡◌};
ghost use Rattle.answer_numbers.specs.Numbers.{refused_number, count_number, truth_number, part_number};
ghost use Rattle.answer_numbers.specs.Limits.{Small};

use encoding::Refusal;
use parts::Span;

// 2^63 and the refusal's number.
fn refused(r: Refusal) -> u64
    ensures { result ≡ refused_number r }
{
    9223372036854775808 + u32::from(r) as u64
}

// A length or a count.
pub fn count_number(answer: Result<usize, Refusal>) -> u64
    ensures { result ≡ count_number answer }
{
    match answer {
        Ok(n) => n as u64,
        Err(r) => refused(r),
    }
}

// Yes or no.
pub fn truth_number(answer: Result<bool, Refusal>) -> u64
    ensures { result ≡ truth_number answer }
{
    match answer {
        Ok(true) => 1,
        Ok(false) => 0,
        Err(r) => refused(r),
    }
}

// A part lies within the words, of which there are at most `MAX_WORDS`, so its start and its length fit in one number.
pub fn part_number(answer: Result<Span, Refusal>) -> u64
    requires { Small answer }
    ensures { result ≡ part_number answer }
{
    match answer {
        Ok(Span { start, length }) => start as u64 * 65536 + length as u64,
        Err(r) => refused(r),
    }
}

// A type that was accepted: where it ends. Nothing is tested again.
#![tactic(auto)]

ghost use Rattle.encoding.specs.Types.{type_at};
ghost use Rattle.accepted_types.specs.Accepted.{Readable, EndsAt};

// Where a pass over accepted types has come to: in the words, and in what it fills.
#[derive(Clone, Copy, Debug, PartialEq, Eq)]
pub struct Spot {
    pub next: usize,
    pub pos: usize,
}

// Where the type at `at`, which was accepted, ends: each type read leaves as many due as follow its head.
pub fn skip_type(words: &[u32], pairs: &[u32], text: &[u8], at: usize) -> usize
    requires { Readable (type_at words.now pairs.now text.now at) }
    ensures { EndsAt (type_at words.now pairs.now text.now at) result }
{
    let mut due: usize = 1;
    let mut place = at;
    // Kept: the new form is no plainer, since each head says anew how many types are due.
    while 0 < due {
        let onward = encoding::pass_head(words, place, due);
        due = onward.due;
        place = onward.next;
    }
    place
}

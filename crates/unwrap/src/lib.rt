// Following the wrappers of an accepted type.
#![tactic(auto)]

ghost use Rattle.encoding.specs.Types.{type_at};
ghost use Rattle.accepted_types.specs.Accepted.{Readable};
ghost use Rattle.unwrap.specs.Asked.{ExpandsAt};

use encoding::words::{T_META_DATA, T_SYNONYM};

// Where the type that `Expand` gives of an accepted type stands: behind every wrapper, a synonym's base being followed.
pub fn expand(words: &[u32], pairs: &[u32], text: &[u8], at: usize) -> usize
    requires { Readable (type_at words.now pairs.now text.now at) }
    ensures { ExpandsAt (type_at words.now pairs.now text.now) at result }
{
    let mut place = at;
    // Kept: no plainer as a `for`, since no range is counted: a turn follows a type into the type, and the word there says which is the last.
    loop {
        let w = words[place];
        if w == T_SYNONYM {
            place = accepted_types::skip_type(words, pairs, text, place + 1);
        } else if w == T_META_DATA {
            place += 2;
        } else {
            return place;
        }
    }
}

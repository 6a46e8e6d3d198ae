// Writing bytes into a lent buffer that is known to have room for them, or only counting them.
#![tactic(auto)]

ghost use Rattle.std.specs.Prelude.{◌≡◌, ◌+◌, ◌^◌, ◌≤◌, ◌<◌, take, drop, length};
ghost use Rattle.std.proofs.lemmas.List.Edits.{sets};
ghost use Rattle.buffer.specs.Wrote.{Wrote};
ghost use Rattle.buffer.specs.Laid.{clamp, Laid, Fits, spaces};

// A count that reaches this, which no buffer's length does, stays there.
const LIMIT: usize = 9223372036854775808;

// The most bytes that are copied through a chunk: all that a name can have.
const CHUNK: usize = 16384;

// `count` bytes of `bytes` from `start` on, copied to `pos` in `out` one by one.
// Kept: the two indices; with `copy_from_slice`, slower (a few known bytes, one or two moves here, are tested for overlap there and laid out twice).
fn copy(bytes: &[u8], start: usize, count: usize, out: &mut [u8], pos: usize)
    requires { (start + count ≤ length bytes.now) × (pos + count ≤ length out.old) }
    ensures { out.new ≡ sets out.old pos (take count (drop start bytes.now)) }
{
    for i in 0..count {
        out[pos + i] = bytes[start + i];
    }
}

// The same. What is read before anything is written compiles to one move, for which no chunk is laid out.
fn copy_chunk(bytes: &[u8], start: usize, count: usize, out: &mut [u8], pos: usize)
    requires { (count ≤ 16384) × (start + count ≤ length bytes.now) × (pos + count ≤ length out.old) }
    ensures { out.new ≡ sets out.old pos (take count (drop start bytes.now)) }
{
    let mut chunk = [0u8; CHUNK];
    copy(bytes, start, count, &mut chunk, 0);
    copy(&chunk, 0, count, out, pos);
}

// The same, as the first `half` bytes and the last `half`, which may overlap: two moves whatever the count.
fn copy_ends(bytes: &[u8], start: usize, half: usize, count: usize, out: &mut [u8], pos: usize)
    requires { (half ≤ 16384) × (half ≤ count) × (count ≤ half + half) × (start + count ≤ length bytes.now) × (pos + count ≤ length out.old) }
    ensures { out.new ≡ sets out.old pos (take count (drop start bytes.now)) }
{
    copy_chunk(bytes, start, half, out, pos);
    copy_chunk(
        bytes,
        start + (count - half),
        half,
        out,
        pos + (count - half),
    );
}

// The same, for fewer than eight bytes.
fn copy_few(bytes: &[u8], start: usize, count: usize, out: &mut [u8], pos: usize)
    requires { (count < 8) × (start + count ≤ length bytes.now) × (pos + count ≤ length out.old) }
    ensures { out.new ≡ sets out.old pos (take count (drop start bytes.now)) }
{
    if 4 <= count {
        return copy_ends(bytes, start, 4, count, out, pos);
    }
    if 2 <= count {
        return copy_ends(bytes, start, 2, count, out, pos);
    }
    copy(bytes, start, count, out, pos)
}

// `count` bytes of `bytes` from `start` on, fewer than eight, written from `pos` on. The answer is the position behind them. It calls nothing, so that a caller
// saves no registers for it.
pub fn put_few(bytes: &[u8], start: usize, count: usize, out: &mut [u8], pos: usize) -> usize
    requires { (count < 8) × (start + count ≤ length bytes.now) × (pos + count ≤ length out.old) }
    ensures { Wrote out.old pos (take count (drop start bytes.now)) out.new result }
{
    copy_few(bytes, start, count, out, pos);
    pos + count
}

// The same, for a long run: one of more than a chunk as its first chunk, and the rest. What calls itself is not inlined, so that a caller with a short run
// saves no registers for a long one. The call stands last, so that only the end is kept while a chunk is moved.
fn put_long(bytes: &[u8], start: usize, count: usize, out: &mut [u8], pos: usize) -> usize
    requires { (start + count ≤ length bytes.now) × (pos + count ≤ length out.old) }
    ensures { Wrote out.old pos (take count (drop start bytes.now)) out.new result }
{
    if count <= CHUNK {
        let end = pos + count;
        copy_chunk(bytes, start, count, out, pos);
        return end;
    }
    let all = bytes;
    copy(all, start, CHUNK, out, pos);
    put_long(all, start + CHUNK, count - CHUNK, out, pos + CHUNK)
}

// The same, for any count. Most runs are names, and short. The slice is copied for a long run alone.
pub fn put_part(bytes: &[u8], start: usize, count: usize, out: &mut [u8], pos: usize) -> usize
    requires { (start + count ≤ length bytes.now) × (pos + count ≤ length out.old) }
    ensures { Wrote out.old pos (take count (drop start bytes.now)) out.new result }
{
    if count < 8 {
        return put_few(bytes, start, count, out, pos);
    }
    if count <= 16 {
        copy_ends(bytes, start, 8, count, out, pos);
        return pos + count;
    }
    if count <= 32 {
        copy_ends(bytes, start, 16, count, out, pos);
        return pos + count;
    }
    let all = bytes;
    put_long(all, start, count, out, pos)
}

// All of `bytes`: where they are few and known, no loop is left.
pub fn put(bytes: &[u8], out: &mut [u8], pos: usize) -> usize
    requires { pos + length bytes.now ≤ length out.old }
    ensures { Wrote out.old pos bytes.now out.new result }
{
    copy(bytes, 0, bytes.len(), out, pos);
    pos + bytes.len()
}

// `count` spaces, one by one.
fn fill_spaces(count: usize, out: &mut [u8], pos: usize) -> usize
    requires { pos + count ≤ length out.old }
    ensures { Wrote out.old pos (spaces count) out.new result }
{
    out[pos..pos + count].fill(b' ');
    pos + count
}

// The same, as the first eight and the last eight, which may overlap.
fn put_space_ends(count: usize, out: &mut [u8], pos: usize) -> usize
    requires { (8 ≤ count) × (count ≤ 16) × (pos + count ≤ length out.old) }
    ensures { Wrote out.old pos (spaces count) out.new result }
{
    put(b"        ", out, pos);
    put(b"        ", out, pos + (count - 8))
}

// The same, for any count: an indent is mostly of few levels, for which a call that fills memory costs more than a move or two.
pub fn put_spaces(count: usize, out: &mut [u8], pos: usize) -> usize
    requires { pos + count ≤ length out.old }
    ensures { Wrote out.old pos (spaces count) out.new result }
{
    if count == 0 {
        return pos;
    }
    if count == 4 {
        return put(b"    ", out, pos);
    }
    if 8 <= count {
        if count <= 16 {
            return put_space_ends(count, out, pos);
        }
    }
    fill_spaces(count, out, pos)
}

// ---- a pass that writes, or only counts

// `count` bytes further.
pub fn count_on(pos: usize, count: usize) -> usize
    ensures { result ≡ clamp (pos + count) }
{
    if LIMIT <= pos {
        return LIMIT;
    }
    if LIMIT - pos <= count {
        return LIMIT;
    }
    pos + count
}

// The same for fewer than the limit, with one test: a count that has reached the limit stays where it is.
pub fn count_few(pos: usize, count: usize) -> usize
    requires { count < 2 ^ 63 }
    ensures { clamp result ≡ clamp (pos + count) }
{
    if LIMIT <= pos {
        return pos;
    }
    pos + count
}

// `count` bytes of `bytes` from `start` on.
pub fn lay_part(
    write: bool,
    bytes: &[u8],
    start: usize,
    count: usize,
    out: &mut [u8],
    pos: usize,
) -> usize
    requires { (start + count ≤ length bytes.now) × Fits write out.old pos (take count (drop start bytes.now)) }
    ensures { Laid write out.old pos (take count (drop start bytes.now)) out.new result }
{
    if write {
        return put_part(bytes, start, count, out, pos);
    }
    count_few(pos, count)
}

// All of `bytes`.
pub fn lay(write: bool, bytes: &[u8], out: &mut [u8], pos: usize) -> usize
    requires { Fits write out.old pos bytes.now }
    ensures { Laid write out.old pos bytes.now out.new result }
{
    if write {
        return put(bytes, out, pos);
    }
    count_few(pos, bytes.len())
}

// Words of lists and of lent buffers.
#![tactic(auto)]

ghost use Rattle.std.specs.Prelude.{◌≡◌, [], ◌∷◌, ◌+◌, ◌<◌, ◌≤◌, length, get_or, set};
ghost use Rattle.std.proofs.lemmas.List.Edits.{sets};
ghost use Rattle.rules.specs.Word.{id_of, header_of};

// A word of a list. Whatever stands above gets the words of a list here.
pub fn fetch(list: &[u32], at: usize) -> u32
    requires { at < length list.now }
    ensures { result ≡ get_or list.now at 0 }
{
    list[at]
}

pub fn id_of(word: u32) -> u8
    ensures { result ≡ id_of word }
{
    (word >> 24) as u8
}

pub fn header_of(word: u32) -> u32
    ensures { result ≡ header_of word }
{
    word % 0x1000000
}

// A word as a size.
pub fn wide(word: u32) -> usize
    ensures { result ≡ word }
{
    word as usize
}

// A word past the end is not written.
pub fn put(out: &mut [u32], n: usize, w: u32)
    ensures { out.new ≡ set out.old n w }
{
    // stays: tried, get_mut does not say what the buffer holds afterwards
    if n < out.len() {
        out[n] = w;
    }
}

// Items from a position on.
pub fn put_all<T: Copy, const N: usize>(out: &mut [T], at: usize, items: [T; N])
    requires { at + N ≤ length out.old }
    ensures { out.new ≡ sets out.old at items }
{
    // stays: tried, reading misses its bar by `copy_from_slice`, which compares addresses at each call: 1.06 of the time before
    for (i, item) in items.iter().enumerate() {
        out[at + i] = *item;
    }
}

// Four words from a position on.
pub fn put4(out: &mut [u32], at: usize, a: u32, b: u32, c: u32, d: u32)
    requires { at + 4 ≤ length out.old }
    ensures { out.new ≡ sets out.old at (a ∷ b ∷ c ∷ d ∷ []) }
{
    put_all(out, at, [a, b, c, d]);
}

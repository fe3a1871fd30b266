// The little-endian words of some bytes, and the bytes of some words.
#![tactic(auto)]

ghost use Rattle.std.specs.Prelude.{◌≡◌, ◌+◌, ◌*◌, ◌≤◌, length};
ghost use Rattle.std.proofs.lemmas.List.Edits.{sets};
ghost use Rattle.rules.specs.Word.{little_endian};
ghost use Rattle.endian.specs.Words.{words_of, word_bytes, bytes_of};

pub fn little_endian(a: u8, b: u8, c: u8, d: u8) -> u32
    ensures { result ≡ little_endian a b c d }
{
    u32::from_le_bytes([a, b, c, d])
}

// The words of some bytes go to the front of `words`, as many as there is room for. Bytes that make no whole word are left
// out.
pub fn load(input: &[u8], words: &mut [u32])
    ensures { words.new ≡ sets words.old 0 (words_of input.now) }
{
    let (chunks, _) = input.as_chunks::<4>();
    for (i, bytes) in chunks.iter().enumerate() {
        let [a, b, c, d] = *bytes;
        words::put(words, i, little_endian(a, b, c, d));
    }
}

// The bytes of some words go to the front of `out`.
pub fn store(words: &[u32], out: &mut [u8])
    requires { 4 * length words.now ≤ length out.old }
    ensures { out.new ≡ sets out.old 0 (bytes_of words.now) }
{
    for (i, word) in words.iter().enumerate() {
        words::put_all(out, 4 * i, word.to_le_bytes());
    }
}

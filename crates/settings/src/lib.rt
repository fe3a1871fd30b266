// The settings that a normal form puts out: of those set since the last work command, the ones that differ from what the
// form has built.
//
// A setting's words still stand in the list, so positions say where they are. A word past the end of a buffer is not written.
#![tactic(auto)]

ghost use Rattle.std.specs.Prelude.{◌≡◌, ◌+◌, ◌-◌, ◌<◌, ◌≤◌, length, get_or, drop, replicate};
ghost use Rattle.std.proofs.lemmas.List.Edits.{sets};
ghost use Rattle.rules.specs.Word.{id_of};
ghost use Rattle.rules.specs.Form.{equal};
ghost use Rattle.settings.specs.Numbers.{numbers};
ghost use Rattle.settings.specs.Output.{put, longest, is_built, emit_one, emit_all, emit_changed, CanEmit, CanEmitAll, CanEmitChanged};
ghost use Rattle.settings.specs.Remembered.{latest_of, sent_of};

// Where the commands of a setting stand in the list: the latest, and the one that the form put out last (0: none yet, else
// its position + 1). Stays: tried, with an `Option<u16>` normalising took 1.03 to 1.05 of the time.
#[derive(Clone, Copy)]
pub struct Places {
    pub latest: u16,
    pub sent: u16,
}

// What a form remembers of the settings, by their numbers.
#[derive(Drop)]
pub struct Memory {
    pub places: [Places; 64],
}

// Words that have room from a position on. Stays: tried, with `copy_from_slice` normalising took 1.04 to 1.09 of the time.
#[tactic(auto, using(theory::proofs::Image::put_more))]
fn copy(words: &[u32], out: &mut [u32], n: usize)
    requires { n + length words.now ≤ length out.old }
    ensures { out.new ≡ sets out.old n words.now }
{
    for (i, word) in words.iter().enumerate() {
        out[n + i] = *word;
    }
}

// Words from a position on, as far as the buffer goes.
#[tactic(auto, using(crate::proofs::Slices::put_part, crate::proofs::Slices::put_none))]
pub fn put_words(words: &[u32], out: &mut [u32], n: usize)
    requires { (n ≤ longest) × (length words.now ≤ longest) }
    ensures { out.new ≡ sets out.old n words.now }
{
    if n + words.len() <= out.len() {
        copy(words, out, n);
    } else if n < out.len() {
        copy(&words[..out.len() - n], out, n);
    }
}

// Two slices of one length have the same words. Stays: tried, with `==`, which is a call here, normalising took 1.08 to 1.18 of
// the time.
#[tactic(auto, using(crate::proofs::Slices::equal_more))]
fn same_words(a: &[u32], b: &[u32]) -> bool
    requires { length a.now ≡ length b.now }
    ensures { result ≡ equal a.now b.now }
{
    let mut same = true;
    for (i, word) in a.iter().enumerate() {
        same &= *word == b[i];
    }
    same
}

// The form has built the setting of a command: the command that it put out last has the same words, or, before any, the
// starting image has them.
#[tactic(auto, using(crate::proofs::Slices::built_at_start, crate::proofs::Slices::built_last))]
fn is_built(command: &[u32], list: &[u32], image: &[u32], before: usize) -> bool
    requires { (0 < length command.now) × (id_of (get_or command.now 0 0) + length command.now ≤ length image.now) × (before + length command.now ≤ length list.now + 1) }
    ensures { result ≡ is_built (length command.now - 1) list.now image.now (get_or command.now 0 0) (drop 1 command.now) before }
{
    if before == 0 { // not put out yet
        let id = words::id_of(command[0]) as usize;
        return (image[id] == words::header_of(command[0]))
            & same_words(&image[id + 1..id + command.len()], &command[1..]);
    }
    same_words(&list[before - 1..before - 1 + command.len()], command)
}

// List, image, buffer and place stay parameters: a struct of them is no plainer, since callers use the four apart before and
// after.
impl Memory {
    // Nothing set, and nothing put out.
    pub fn new() -> Self
        ensures { (latest_of result ≡ replicate 64 0) × (sent_of result ≡ replicate 64 0) }
    {
        Memory {
            places: [Places { latest: 0, sent: 0 }; 64],
        }
    }

    // The setting with a number, of one word and some more, where it differs from what the form has built.
    fn emit_one<const MORE: usize>(
        &mut self,
        list: &[u32],
        image: &[u32],
        out: &mut [u32],
        n: usize,
        number: u32,
    ) -> usize
        requires { CanEmit MORE list.now image.now (latest_of self.old) number (put n (sent_of self.old) out.old) }
        ensures value { put result (sent_of self.new) out.new ≡ emit_one MORE list.now image.now (latest_of self.old) number (put n (sent_of self.old) out.old) }
        ensures kept { latest_of self.new ≡ latest_of self.old }
    {
        let k = number as usize;
        let at = self.places[k].latest as usize;
        let command = &list[at..at + 1 + MORE];
        if is_built(command, list, image, self.places[k].sent as usize) {
            return n;
        }
        self.places[k].sent = (at + 1) as u16;
        put_words(command, out, n);
        n + 1 + MORE
    }

    // The settings of a set, in rising id. Its lowest bit stands for the number `FIRST`.
    fn emit_all<const MORE: usize, const FIRST: u32>(
        &mut self,
        list: &[u32],
        image: &[u32],
        out: &mut [u32],
        n: usize,
        set: u64,
    ) -> usize
        requires { CanEmitAll MORE list.now image.now (latest_of self.old) (numbers 64 FIRST set) (put n (sent_of self.old) out.old) }
        ensures value { put result (sent_of self.new) out.new ≡ emit_all MORE list.now image.now (latest_of self.old) (numbers 64 FIRST set) (put n (sent_of self.old) out.old) }
        ensures kept { latest_of self.new ≡ latest_of self.old }
    {
        let mut m = n;
        let mut left = set;
        // stays: an iterator over the numbers is no plainer, since it is a type with this loop's body as its `next`
        while left != 0 {
            let lowest = left.trailing_zeros();
            left = left & (left - 1);
            m = self.emit_one::<MORE>(list, image, out, m, FIRST + lowest);
        }
        m
    }

    // A command for each setting of a set that differs, in rising id: first those of one word, then those of four. A call, so
    // that its callers have only the test of `emit_settings`.
    #[inline(never)]
    fn emit_changed(
        &mut self,
        changed: u64,
        list: &[u32],
        image: &[u32],
        out: &mut [u32],
        n: usize,
    ) -> usize
        requires { CanEmitChanged changed list.now image.now (latest_of self.old) (put n (sent_of self.old) out.old) }
        ensures value { put result (sent_of self.new) out.new ≡ emit_changed changed list.now image.now (latest_of self.old) (put n (sent_of self.old) out.old) }
        ensures kept { latest_of self.new ≡ latest_of self.old }
    {
        let m = self.emit_all::<0, 0>(list, image, out, n, changed % 65536);
        self.emit_all::<3, 16>(list, image, out, m, changed >> 16)
    }

    // The same, called only where something changed: many work commands follow each other with no setting in between.
    #[tactic(auto, using(crate::proofs::Emitting::emit_none))]
    pub fn emit_settings(
        &mut self,
        changed: u64,
        list: &[u32],
        image: &[u32],
        out: &mut [u32],
        n: usize,
    ) -> usize
        requires { CanEmitChanged changed list.now image.now (latest_of self.old) (put n (sent_of self.old) out.old) }
        ensures value { put result (sent_of self.new) out.new ≡ emit_changed changed list.now image.now (latest_of self.old) (put n (sent_of self.old) out.old) }
        ensures kept { latest_of self.new ≡ latest_of self.old }
    {
        if changed == 0 {
            return n;
        }
        self.emit_changed(changed, list, image, out, n)
    }
}

// One command of a list taken into a normal form in the making.
#![tactic(auto)]

ghost use Rattle.std.specs.Prelude.{◌≡◌, ◌<◌, ◌≤◌, List, ℕ};
ghost use Rattle.settings.specs.Numbers.{number_of};
ghost use Rattle.settings.specs.Output.{longest};
ghost use Rattle.draft.specs.Drafts.{made, behind_setting, after_work, after_command, CanWork, CanTake};

use settings::Memory;
use table::Settings;

// Where the form stands: the position in the list, the words written, and the settings set since the last work command, a bit
// for each number; rising bits are rising ids. Apart from `Memory`, which is lent to calls, so that these stay in registers.
#[derive(Clone, Copy)]
pub struct Draft {
    pub at: usize,
    pub written: usize,
    pub changed: u64,
}

impl Draft {
    // Before the first command.
    pub fn new() -> Self
        ensures { result ≡ record { at = 0; written = 0; changed = 0 } }
    {
        Draft {
            at: 0,
            written: 0,
            changed: 0,
        }
    }

    // A work command: the differing settings, then the command unchanged.
    fn emit_work(&mut self, memory: &mut Memory, list: &[u32], image: &[u32], out: &mut [u32])
        requires { CanWork list.now image.now (made self.old memory.old out.old) }
        ensures { made self.new memory.new out.new ≡ after_work list.now image.now (made self.old memory.old out.old) }
    {
        let work = &list[self.at..self.at + command::size_at::<source::List>(list, self.at)];
        let n = memory.emit_settings(self.changed, list, image, out, self.written);
        settings::put_words(work, out, n);
        self.at += work.len();
        self.written = n + work.len();
        self.changed = 0;
    }

    // A setting: its command is the latest of its number, which is below 64, rises with the id, and is below 16 for one word.
    fn take_setting(&mut self, memory: &mut Memory, id: u8, words: usize)
        requires { (self.old.at ≤ longest) × (words ≤ longest) × (number_of id < 64) }
        ensures { (out : List ℕ) → made self.new memory.new out ≡ behind_setting id words (made self.old memory.old out) }
    {
        let number = (id / 4 + id % 2) as usize;
        memory.places[number].latest = self.at as u16;
        self.changed |= 1 << number;
        self.at += words;
    }

    // One command of an accepted list.
    #[tactic(auto, using(crate::proofs::Taking::setting_number))]
    pub fn take_command(
        &mut self,
        memory: &mut Memory,
        list: &[u32],
        image: &[u32],
        out: &mut [u32],
    )
        requires { CanTake list.now image.now (made self.old memory.old out.old) }
        ensures { made self.new memory.new out.new ≡ after_command list.now image.now (made self.old memory.old out.old) }
    {
        let id = words::id_of(words::fetch(list, self.at));
        // stays: what may not change, kinds as associated constants of `Settings`
        let kind = Settings::kind(id);
        if kind == Settings::GROUP {
            return self.take_setting(memory, id, 4);
        }
        if kind == Settings::SINGLE {
            return self.take_setting(memory, id, 1);
        }
        self.emit_work(memory, list, image, out);
    }
}

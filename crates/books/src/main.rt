// Runs the second program's cases of scene books (second/README.md, "The books file") through the functions that they are for,
// and compares a digest of all that these give. A wrong digest, and so a damaged file, shows as a difference.
#![tactic(auto)]

use rules::Scene;
use stored::{Case, DIGEST, Runner, Tally, fill_buffer, mix, mix_number, mix_words, run_cases};

#[derive(Clone, Copy)]
enum Function {
    FindScene,
    WriteBook,
}

const FUNCTIONS: usize = 2;

// What is told of a scene, and the stretch that is handed back.
fn run_find(book: &[u32], number: u32, tally: &mut Tally<FUNCTIONS>) -> u32 {
    let (verdict, place) = match book::find(book, number) {
        Ok(scene) => (0, scene),
        Err(reason) => (
            reason.number(),
            Scene {
                start: 0,
                length: 0,
            },
        ),
    };
    tally.add(Function::FindScene as usize, verdict);
    let mut told = 0;
    let stretch = book::scene(book, number, &mut told);
    let digest = mix(mix(mix(DIGEST, verdict), place.start), place.length);
    mix_words(mix_number(mix(digest, told), stretch.len()), stretch)
}

// The answer, and the whole buffer.
fn run_write(
    table: &[u32],
    words: &[u32],
    buffer: &mut [u32],
    tally: &mut Tally<FUNCTIONS>,
) -> u32 {
    fill_buffer(buffer);
    let (verdict, size) = match book::write_book(table, words, buffer) {
        Ok(size) => (0, size),
        Err(reason) => (reason.number(), 0),
    };
    tally.add(Function::WriteBook as usize, verdict);
    mix_words(mix_number(mix(DIGEST, verdict), size), buffer)
}

// The buffer of the writer.
#[derive(Drop)]
struct Books {
    buffer: [u32; 9000],
}

impl Runner<1, FUNCTIONS> for Books {
    // Of an unknown tag the digest is that of no function. A room that is too large is cut, so that the digest is wrong.
    fn run(&mut self, case: &Case<'_>, sizes: &[u32; 1], tally: &mut Tally<FUNCTIONS>) -> u32 {
        let [room] = *sizes;
        match (case.tag, case.arguments) {
            (0, [number, ..]) => run_find(case.words, *number, tally),
            (1, table) => {
                let n = self.buffer.len().min(room as usize);
                run_write(table, case.words, &mut self.buffer[..n], tally)
            }
            _ => DIGEST,
        }
    }
}

fn main(rt: HostRuntime) {
    let mut words = [0u32; 8200];
    let mut arguments = [0u32; 1600];
    let mut books = Books { buffer: [0; 9000] };
    let tally = run_cases(rt, &mut words, &mut arguments, &mut books);
    tally.print(rt, "books", "find_scene write_book");
}

// What is said of a single word, for C: its number is returned, its places stand in a block.
ghost use Rattle.std.specs.Prelude.{◌≡◌, ◌∷◌, [], Ok, length};
ghost use Rattle.rules.specs.Numbers.{word_number};
ghost use Rattle.rules.specs.Block.{in_bytes};
ghost use Rattle.word.specs.Said.{said};
ghost use Rattle.probe.specs.Calls.{places_bytes, said_places};

use block::put::put_numbers;
use word::locate::Answer;
use word::refusal::DONE;

// The number where no codeword is near enough.
const BEYOND: u32 = 9;

// How many places were changed, the first and the second; none for a refusal.
const NO_PLACES: [usize; 3] = [0, 0, 0];

pub(crate) fn put_refused(number: u32, block: &mut [u8]) -> u32
    requires { length block.old ≡ places_bytes }
    ensures { (result ≡ number) × (block.new ≡ in_bytes (0 ∷ 0 ∷ 0 ∷ [])) }
{
    put_numbers(&NO_PLACES, block);
    number
}

pub(crate) fn put_answer(answer: Answer, block: &mut [u8]) -> u32
    requires { length block.old ≡ places_bytes }
    ensures { (result ≡ word_number (said (Ok answer))) × (block.new ≡ in_bytes (said_places (said (Ok answer)))) }
{
    let (number, places) = match answer {
        Answer::Codeword => (DONE, NO_PLACES),
        Answer::OnePlace(p) => (DONE, [1, p, 0]),
        Answer::TwoPlaces(p, q) => (DONE, [2, p, q]),
        Answer::Beyond => (BEYOND, NO_PLACES),
    };
    put_numbers(&places, block);
    number
}

// A printed line: a word, then each number after a space, in decimal, and a line feed. It is written at the front of a
// lent rest, and the writer tells how many bytes it took. The line of a refusal, which any part of the program may print.
// `as` stands where std has no `From` (32 bits to usize, usize to u64), or where it is proved that nothing is lost (d).
#![tactic(auto)]

ghost use Rattle.std.specs.Prelude.{◌≤◌, [], ◌∷◌, length};
ghost use Rattle.laws.specs.Lists.{flat};
ghost use Rattle.paper.specs.Limits.{refused_line_room};
ghost use Rattle.paper.specs.Text.{print_line, refused_word};
ghost use Rattle.paper.specs.Outcome.{Puts, number_of, place_of};
ghost use Rattle.number_print.specs.Spaced.{spaced};

use number_print::print_number;
use paper::Refusal;
use record_write::put_bytes;

// Each number after a space.
fn print_numbers(out: &mut [u8], numbers: &[u64]) -> usize
    requires { length (flat spaced numbers.now) ≤ length out.old }
    ensures { Puts (flat spaced numbers.now) out.old out.new result }
{
    let mut at = 0;
    for n in numbers {
        at += print_number(&mut out[at..], *n);
    }
    at
}

// A line with its word and its numbers.
pub fn print_line(out: &mut [u8], word: &[u8], numbers: &[u64]) -> usize
    requires { length (print_line word.now numbers.now) ≤ length out.old }
    ensures { Puts (print_line word.now numbers.now) out.old out.new result }
{
    put_bytes(out, word);
    let at = word.len();
    let end = at + print_numbers(&mut out[at..], numbers);
    out[end] = b'\n';
    end + 1
}

// A refusal by any number and place: the two, as they are.
pub fn print_refused_numbers(out: &mut [u8], number: u32, place: usize) -> usize
    requires { refused_line_room ≤ length out.old }
    ensures { Puts (print_line refused_word (number ∷ place ∷ [])) out.old out.new result }
{
    let number = u64::from(number);
    let place = place as u64;
    let numbers = [number, place];
    print_line(out, b"refused", &numbers)
}

// A refusal: number, place.
pub fn print_refused(out: &mut [u8], why: Refusal) -> usize
    requires { refused_line_room ≤ length out.old }
    ensures { Puts (print_line refused_word (number_of why ∷ place_of why ∷ [])) out.old out.new result }
{
    print_refused_numbers(out, why.number(), why.place())
}

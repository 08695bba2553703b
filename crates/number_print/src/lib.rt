// A number printed in decimal after a space, at the front of a lent rest; the writer tells how many bytes it took.
// `as` stands where std has no `From` (32 bits to usize, usize to u64), or where it is proved that nothing is lost (d).
#![tactic(auto)]

ghost use Rattle.std.specs.Prelude.{◌≡◌, ◌≤◌, length};
ghost use Rattle.paper.specs.Limits.{word_digits};
ghost use Rattle.paper.specs.Text.{decimal};
ghost use Rattle.paper.specs.Outcome.{Puts};
ghost use Rattle.number_print.specs.Spaced.{spaced};

// How many digits a number has in decimal. Not by the kit's `itoa` (a): the wrong
// program `leading_zero` has no place in it.
fn digit_count(n: u64) -> usize
    ensures { (result ≡ length (decimal n)) × (result ≤ word_digits) }
{
    let mut count = 1;
    let mut left = n;
    while 10 <= left {
        left /= 10;
        count += 1;
    }
    count
}

// A space and a number: the digits are stored from the last to the first.
pub fn print_number(out: &mut [u8], n: u64) -> usize
    requires { length (spaced n) ≤ length out.old }
    ensures { Puts (spaced n) out.old out.new result }
{
    let count = digit_count(n);
    let mut left = n;
    for k in (0..count).rev() {
        out[k + 1] = b'0' + (left % 10) as u8;
        left /= 10;
    }
    out[0] = b' ';
    count + 1
}

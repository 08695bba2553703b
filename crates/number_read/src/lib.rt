// A number in the plan program's input: 1 to 9 decimal digits, judged and read.
#![tactic(auto)]

ghost use Rattle.std.specs.Prelude.{◌≡◌, true};
ghost use Rattle.std.specs.List.{list_all};
ghost use Rattle.std.specs.Char.{is_ascii_digit};
ghost use Rattle.paper.specs.Text.{is_number, value};

use paper::limits::MOST_DIGITS;

// Whether all of the bytes are digits.
fn all_digits(c: &[u8]) -> bool
    ensures { result ≡ list_all is_ascii_digit c.now }
{
    c.iter().all(|x| x.is_ascii_digit())
}

// Whether the bytes write a number: 1 to 9 digits and no leading zero, save `0` itself.
pub fn is_number(c: &[u8]) -> bool
    ensures { result ≡ is_number c.now }
{
    if c.is_empty() {
        return false;
    }
    (c.len() <= MOST_DIGITS) & all_digits(c) & ((c.len() == 1) | (c[0] != b'0'))
}

// The number that the bytes write. Nine digits fit 32 bits.
pub fn value_of(c: &[u8]) -> u32
    requires { is_number c.now ≡ true }
    ensures { result ≡ value c.now }
{
    let mut v = 0;
    for x in c {
        v = v * 10 + u32::from(*x - b'0');
    }
    v
}

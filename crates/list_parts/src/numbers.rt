// Numbers of a keyword list: the given `str::parse::<u32>`.
ghost use Rattle.std.specs.Prelude.{◌≡◌};
ghost use Rattle.list_parts.specs.Numbers.{digits_of, number_of};

// `+`, `0` and `9`.
const PLUS: u32 = 43;

const ZERO: u32 = 48;

const NINE: u32 = 57;

// The value of one or more digits, if all are digits and it is below 2^32.
fn digits(p: &[u32]) -> Option<u32>
    ensures { result ≡ digits_of p.now }
{
    if p.len() == 0 {
        return None;
    }
    let mut sum: u64 = 0;
    for x in p {
        if *x < ZERO {
            return None;
        }
        if NINE < *x {
            return None;
        }
        sum = sum * 10 + (*x - ZERO) as u64;
        if 0xffff_ffff < sum {
            return None;
        }
    }
    Some(sum as u32)
}

// The number that p is: one optional `+`, then digits.
pub fn read_number(p: &[u32]) -> Option<u32>
    ensures { result ≡ number_of p.now }
{
    if p.len() == 0 {
        return None;
    }
    if p[0] == PLUS {
        return digits(&p[1..]);
    }
    digits(p)
}

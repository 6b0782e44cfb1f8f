ghost use Rattle.std.specs.Prelude.{◌≡◌, ◌≤◌, drop, length};
ghost use Rattle.std.specs.Fmt.{decimal};

use std::marker::Model;

// The digits of the greatest `u64`.
const MOST: usize = 20;

/// A number in plain decimal digits. It takes no memory.
#[derive(Drop)]
pub struct Digits {
    buffer: [u8; MOST],
    start: usize,
}

impl Model for Digits {
    ghost use Rattle.std.specs.Prelude.{◌≤◌, ℕ, List, drop};
    ghost use Rattle.spectro_io.specs.declared.digits.TheConstants.{MOST};

    ghost Value = { List ℕ };

    ghost view = { λ d. drop d.start d.buffer };

    ghost invariant = { λ d. d.start ≤ MOST };
}

impl Digits {
    pub fn of(n: u64) -> Digits
        ensures { result ≡ decimal n }
    {
        let mut buffer = [0u8; MOST];
        let start = put_digits(n, &mut buffer);
        Digits { buffer, start }
    }

    pub fn as_bytes(&self) -> &[u8]
        ensures { result.now ≡ self.now }
    {
        &self.buffer[self.start..]
    }
}

// Puts the decimal digits at the end of the buffer, and answers where they begin.
fn put_digits(n: u64, buffer: &mut [u8]) -> usize
    requires { length buffer.old ≡ MOST }
    ensures within { result ≤ MOST }
    ensures digits { drop result buffer.new ≡ decimal n }
{
    let mut rest = n;
    let mut start = MOST;
    while rest >= 10 {
        start -= 1;
        buffer[start] = b'0' + (rest % 10) as u8;
        rest /= 10;
    }
    start -= 1;
    buffer[start] = b'0' + rest as u8;
    start
}

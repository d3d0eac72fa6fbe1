// Writing bytes, numbers and words into a lent buffer.
ghost use Rattle.std.specs.Prelude.{◌≡◌, [], ◌∷◌, ◌+◌, ◌*◌, ◌%◌, ◌^◌};
ghost use Rattle.listing.specs.Page.{emits};
ghost use Rattle.listing.specs.Decimal.{decimal, integer};

// A lent buffer, where its next byte goes, and where the counting stops.
#[derive(Drop)]
pub struct Page<'a> {
    pub out: &'a mut [u8],
    pub at: usize,
    pub room: usize,
}

impl<'a> Page<'a> {
    // One byte. Past the end of the buffer it is counted and not written; at the end of the room nothing happens.
    pub fn put_byte(&mut self, b: u8)
        ensures { self.new ≡ emits (b ∷ []) self.old }
    {
        if self.room <= self.at {
            return;
        }
        if self.at < self.out.len() {
            self.out[self.at] = b;
        }
        self.at += 1;
    }

    // A fixed byte string.
    pub fn put_bytes(&mut self, word: &[u8])
        ensures { self.new ≡ emits word.now self.old }
    {
        for &b in word {
            self.put_byte(b);
        }
    }

    // A number in decimal. By hand, since what is past the end is counted too, where a Display ends with an error.
    pub fn put_number(&mut self, n: u64)
        ensures { self.new ≡ emits (decimal n) self.old }
    {
        if 10 <= n {
            self.put_number(n / 10);
        }
        self.put_byte(b'0' + (n % 10) as u8);
    }

    // The integer whose 64 bits, two's complement, are these words, the lower one first.
    pub fn put_integer(&mut self, low: u32, high: u32)
        ensures { self.new ≡ emits (integer (low + 2 ^ 32 * high)) self.old }
    {
        let bits = u64::from(low) + 0x1_0000_0000 * u64::from(high);
        if bits < 0x8000_0000_0000_0000 {
            self.put_number(bits);
        } else {
            self.put_byte(b'-');
            self.put_number(0xffff_ffff_ffff_ffff - bits + 1);
        }
    }
}

// The bytes of a spelling without its underscores, read where they stand.
ghost use Rattle.std.specs.Prelude.{◌≡◌};
ghost use Rattle.std.specs.Iterator.{YieldsFirst, item_count};
ghost use Rattle.ints.specs.Spelling.{kept};
ghost use Rattle.ints.specs.Reading.{unread};

#[derive(Clone, Copy)]
pub struct Kept<'a> {
    rest: &'a [u8],
}

impl<'a> Kept<'a> {
    pub fn of(s: &'a [u8]) -> Kept<'a>
        ensures { unread result ≡ kept s.now }
    {
        Kept { rest: s }
    }
}

impl Iterator for Kept<'_> {
    type Item = u8;

    ghost next_gives = { YieldsFirst unread };

    ghost remaining = { item_count unread };

    fn next(&mut self) -> Option<u8> {
        while let Some((&b, rest)) = self.rest.split_first() {
            self.rest = rest;
            if b != b'_' {
                return Some(b);
            }
        }
        None
    }
}

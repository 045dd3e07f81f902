// A text that is put piece by piece into a lent buffer, as far as it fits.
ghost use Rattle.listing.specs.Decimal.{field};
ghost use Rattle.listing.specs.Writing.{Wrote};

// The buffer, and the place behind what was put.
#[derive(Drop)]
pub(crate) struct Writer<'a> {
    pub out: &'a mut [u8],
    pub at: usize,
}

impl<'a> Writer<'a> {
    // Puts text. The place stops at the largest number, which the text for a file never comes to.
    pub(crate) fn put(&mut self, text: &[u8])
        ensures { Wrote text.now self.old self.new }
    {
        numbers::put_bytes(self.out, self.at, text);
        self.at = self.at.saturating_add(text.len());
    }

    // Puts a number in decimal digits, and the character that ends it.
    pub(crate) fn put_field(&mut self, n: u64, end: u8)
        ensures { Wrote (field n end) self.old self.new }
    {
        let mut digits = [0u8; 20];
        let k = io::decimal(n, &mut digits);
        self.put(&digits[..k]);
        self.put(&[end]);
    }
}

ghost use Rattle.std.specs.Prelude.{◌≡◌, pos, neg_ℤ};
ghost use Rattle.sheet_text.specs.Fields.{letter, magnitude as worth, at_most, number};
ghost use Rattle.sheet_text.specs.Lines.{raw};

// A field of the text, with its place in the input: bare, or quoted and without the quotation
// marks around it, doubled ones inside it as they stand.
#[derive(Clone, Copy)]
pub(crate) enum Field<'a> {
    Bare { bytes: &'a [u8], at: usize },
    Quoted { bytes: &'a [u8], at: usize },
}

impl<'a> Field<'a> {
    // The bytes of the field.
    pub(crate) fn bytes(self) -> &'a [u8]
        ensures { result.now ≡ raw self.entry }
    {
        match self {
            Field::Bare { bytes, at: _ } | Field::Quoted { bytes, at: _ } => bytes,
        }
    }
}

// The letter that these bytes are: the byte as a char, by its literals.
pub(crate) fn letter_of(bytes: &[u8]) -> Option<char>
    ensures { result ≡ letter bytes.now }
{
    let [byte] = bytes else {
        return None;
    };
    match char::from(*byte) {
        letter @ ('T' | 'S' | 'N' | 'E') => Some(letter),
        _ => None,
    }
}

// The number that one to ten digits write.
fn magnitude_of(digits: &[u8]) -> Option<u64>
    ensures { result ≡ worth digits.now }
{
    if digits.is_empty() || digits.len() > 10 {
        return None;
    }
    // no `fold` or `try_fold`: the closure would not know that ten digits fit
    let mut n: u64 = 0;
    for digit in digits {
        if !digit.is_ascii_digit() {
            return None;
        }
        n = n * 10 + u64::from(*digit - b'0');
    }
    Some(n)
}

// A magnitude below zero, down to -2^31.
fn negative(magnitude: Option<u64>) -> Option<i64>
    ensures { result ≡ at_most 2147483648 (λ m. neg_ℤ (pos m)) magnitude }
{
    let number = -i64::try_from(magnitude?).ok()?;
    i32::try_from(number).ok().map(i64::from)
}

// A magnitude from zero up, to 2^32 - 1.
fn positive(magnitude: Option<u64>) -> Option<i64>
    ensures { result ≡ at_most 4294967295 pos magnitude }
{
    u32::try_from(magnitude?).ok().map(i64::from)
}

// The number that these bytes are: taken apart by its sign, which a text's number may have only in front.
pub(crate) fn number_of(bytes: &[u8]) -> Option<i64>
    ensures { result ≡ number bytes.now }
{
    match bytes {
        [b'-', digits @ ..] => negative(magnitude_of(digits)),
        digits => positive(magnitude_of(digits)),
    }
}

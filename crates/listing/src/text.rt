ghost use Rattle.std.specs.Prelude.{◌≡◌, ◌==◌, length};
ghost use Rattle.std.specs.Iterator.{YieldsFirstRef, at_most};
ghost use Rattle.std.specs.List.{position};
ghost use Rattle.listing.specs.Text.{decimal_number, lines};

// Where a byte stands first, if it does.
pub(crate) fn place_of(byte: u8, text: &[u8]) -> Option<usize>
    ensures { result ≡ position (λ b. b == byte) text.now }
{
    text.iter().position(|b| *b == byte)
}

// The lines of a text, each without its line feed. The slice's `split` would add an empty line after the last feed. The pieces of
// its `split_inclusive` keep their feeds, and what is known of them hangs on the closure.
#[derive(Drop)]
pub(crate) struct Lines<'a>(pub(crate) &'a [u8]);

impl<'a> Iterator for Lines<'a> {
    type Item = &'a [u8];

    ghost next_gives = { YieldsFirstRef (λ s. lines s.0.now) };

    ghost remaining = { λ s. at_most (length s.0.now) };

    #[tactic(auto, using(crate::proofs::TextSteps::line_fed, crate::proofs::TextSteps::line_unfed))]
    fn next(&mut self) -> Option<&'a [u8]> {
        let text = self.0;
        if text.is_empty() {
            return None;
        }
        match place_of(b'\n', text) {
            Some(end) => {
                self.0 = &text[end + 1..];
                Some(&text[..end])
            }
            None => {
                self.0 = &[];
                Some(text)
            }
        }
    }
}

/// The number that one or more decimal digits write, and nothing else; 2^32 - 1 for any above that.
pub fn number(text: &[u8]) -> Option<u32>
    ensures { result ≡ decimal_number text.now }
{
    if text.is_empty() {
        return None;
    }
    let mut value: u32 = 0;
    for &b in text {
        if !b.is_ascii_digit() {
            return None;
        }
        value = value.saturating_mul(10).saturating_add(u32::from(b - b'0'));
    }
    Some(value)
}

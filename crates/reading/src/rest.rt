// What is left of a text that is read from left to right.
ghost use Rattle.std.specs.Prelude.{◌≡◌, ◌≤◌, length, drop};
ghost use Rattle.reading.specs.Numbers.{run, digits_of};
ghost use Rattle.reading.specs.Tokens.{TokenOf, byte_at, symbol, token_digits, token_symbol, token_place};

use super::digits::Digits;
use super::tokens::Token;

// What is left of a text, and the place where it stands.
#[derive(Clone, Copy)]
pub(super) struct Rest<'a> {
    pub(super) text: &'a [u8],
    pub(super) at: usize,
}

impl<'a> Rest<'a> {
    // The token at the front.
    #[tactic(auto, using(crate::proofs::Steps::token_rules))]
    pub(super) fn token(self) -> Token<'a>
        ensures token { TokenOf self.entry.at self.entry.text.now result }
        ensures digits { token_digits result ≡ digits_of self.entry.text.now }
        ensures reach { length (token_digits result) ≡ run self.entry.text.now }
        ensures symbol { token_symbol result ≡ symbol self.entry.text.now }
        ensures place { token_place result ≡ self.entry.at }
    {
        let Rest { text, at } = self;
        let digits = digits_at_front(text);
        if !digits.text.is_empty() {
            Token::Number { digits, at }
        } else if !text.is_empty() {
            Token::Mark {
                mark: &text[..1],
                at,
            }
        } else {
            Token::End { at }
        }
    }

    // What is left behind the first n bytes. Places end with the largest that fits.
    pub(super) fn after(self, n: usize) -> Rest<'a>
        ensures text { result.text.now ≡ drop n self.entry.text.now }
        ensures place { result.at ≡ byte_at self.entry.at n }
    {
        Rest {
            text: self.text.get(n..).unwrap_or(&[]),
            at: self.at.saturating_add(n),
        }
    }
}

// The longest run of digits at the front of a text.
#[tactic(auto, using(crate::proofs::Steps::run_digits))]
fn digits_at_front(text: &[u8]) -> Digits<'_>
    ensures { result.text.now ≡ digits_of text.now }
{
    let length = run_of_digits(text);
    Digits {
        text: &text[..length],
    }
}

// How many bytes at the front are digits.
fn run_of_digits(text: &[u8]) -> usize
    ensures value { result ≡ run text.now }
    ensures within { result ≤ length text.now }
{
    text.iter().take_while(|byte| byte.is_ascii_digit()).count()
}

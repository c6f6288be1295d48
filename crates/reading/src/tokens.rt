// The words of a text.
ghost use Rattle.std.specs.Prelude.{◌≡◌};
ghost use Rattle.std.specs.List.{slice_get};
ghost use Rattle.reading.specs.Tokens.{token_digits, token_symbol, token_place};

use super::digits::Digits;

// A word of a text: the part of the text that it is, and the place where it stands.
#[derive(Clone, Copy)]
pub(super) enum Token<'a> {
    // the longest run of digits
    Number { digits: Digits<'a>, at: usize },
    // one byte that is no digit
    Mark { mark: &'a [u8], at: usize },
    // nothing is left
    End { at: usize },
}

impl<'a> Token<'a> {
    // The digits of a number, else none.
    pub(super) fn digits(&self) -> Digits<'a>
        ensures { result.text.now ≡ token_digits self.now }
    {
        match self {
            Token::Number { digits, .. } => *digits,
            Token::Mark { .. } | Token::End { .. } => Digits { text: &[] },
        }
    }

    // The character of a mark.
    pub(super) fn symbol(&self) -> Option<char>
        ensures { result ≡ token_symbol self.now }
    {
        match self {
            Token::Mark { mark, .. } => mark.first().map(|byte| char::from(*byte)),
            Token::Number { .. } | Token::End { .. } => None,
        }
    }

    // Where the token stands.
    pub(super) fn place(&self) -> usize
        ensures { result ≡ token_place self.now }
    {
        match self {
            Token::Number { at, .. } | Token::Mark { at, .. } | Token::End { at } => *at,
        }
    }
}

// Digits of a text.
ghost use Rattle.std.specs.Prelude.{◌≡◌, true};
ghost use Rattle.std.specs.Str.{all_ascii_digits};

// A part of a text in which each byte is a digit.
#[derive(Clone, Copy)]
pub(super) struct Digits<'a> {
    pub(super) text: &'a [u8],
    ghost all: { all_ascii_digits text.now ≡ true },
}

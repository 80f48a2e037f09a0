// What one token says of a character.
ghost use Rattle.std.specs.Prelude.{◌≡◌};
ghost use Rattle.letters.specs.Letters.{is_letter};
ghost use Rattle.vim_grammar.specs.Tokens.{speaks};

use crate::VimToken;

// No token: what every place of a new table holds.
pub const EMPTY: VimToken = VimToken {
    out: false,
    kind: 0,
    lochar: false,
    lo: 0,
    hichar: false,
    hi: 0,
};

impl VimToken {
    // Whether the token speaks of c, of which the caller says if it is a letter.
    pub fn speaks(self, letter: bool, c: u32) -> bool
        requires { letter ≡ is_letter c }
        ensures { result ≡ speaks self c }
    {
        if self.kind == 0 {
            return false;
        }
        if self.kind == 1 {
            return letter;
        }
        if c < self.lo {
            return false;
        }
        c <= self.hi
    }
}

//! Reads the slots of a file.

ghost use Rattle.std.specs.Prelude.{◌≡◌, IfOk, ◌≤◌, ◌∷◌, [], MatchResult};
ghost use Rattle.rota_core.specs.declared.fault.Kind.TheVariants.{Ended};
ghost use Rattle.rota_layout.specs.Layout.{exactly, number, any_word, setting};
ghost use Rattle.rota_layout.specs.Reading.{read_layout, Reads, check_end, ReadsFile};

use crate::cursor::{Cursor, Token, is_sign};
use crate::fault::{LayoutError, LineFault};
use rota_core::{Kind, MAX_PRICE, decimal_up_to};

impl Token<'_> {
    /// A fault of this kind on the token's line.
    pub fn fault(&self, kind: Kind) -> LayoutError
        ensures { result ≡ LayoutError.Fault (record { kind = kind; line = self.now.line }) }
    {
        LayoutError::Fault(LineFault {
            kind,
            line: self.line,
        })
    }
}

impl<'a> Cursor<'a> {
    /// The next token. It fails with `Ended` if there is none.
    pub fn token(&mut self) -> Result<Token<'a>, LayoutError>
        ensures { MatchResult result
            (λ t. (self.old.rest ≡ record { word = t.word.now; line = t.line } ∷ self.new.rest)
            × (self.new.last ≡ t.line))
            (λ e. (self.old.rest ≡ []) × (e ≡ LayoutError.Fault (record { kind = Ended; line = self.old.last }))) }
    {
        let last = self.last_line();
        self.next().ok_or(LayoutError::Fault(LineFault {
            kind: Kind::Ended,
            line: last,
        }))
    }

    /// The next token, which is to be a word. It fails with `OtherWord` for a sign.
    #[tactic(auto, unfolding(crate::specs::Layout::any_word, crate::specs::Reading::read_layout))]
    pub fn word(&mut self) -> Result<Token<'a>, LayoutError>
        ensures read { Reads (λ t. t.word.now) result self.new (read_layout any_word self.old) }
        ensures line { IfOk result (λ t. t.line ≡ self.new.last) }
    {
        let token = self.token()?;
        if token.word.first().is_some_and(|b| is_sign(*b)) {
            return Err(token.fault(Kind::OtherWord));
        }
        Ok(token)
    }

    /// The end of the file. It fails with `Trailing` if a token is left.
    pub fn finish(&mut self) -> Result<(), LayoutError>
        ensures { ReadsFile (λ _. tt) result (check_end self.old.rest) }
    {
        match self.next() {
            None => Ok(()),
            Some(token) => Err(token.fault(Kind::Trailing)),
        }
    }

    /// This word or sign. It fails with `OtherWord` for another one.
    #[tactic(auto, unfolding(crate::specs::Layout::exactly, crate::specs::Reading::read_layout))]
    pub fn exactly(&mut self, wanted: &[u8]) -> Result<(), LayoutError>
        ensures { Reads (λ _. wanted.now) result self.new (read_layout (exactly wanted.now) self.old) }
    {
        let token = self.token()?;
        if token.word != wanted {
            return Err(token.fault(Kind::OtherWord));
        }
        Ok(())
    }

    /// A number between the limits. It fails with `NoNumber` for another token, and with `Limit` for another number.
    pub fn number(&mut self, low: u16, high: u16) -> Result<u16, LayoutError>
        ensures read { Reads (λ n. n) result self.new (read_layout (number low high) self.old) }
        ensures above { IfOk result (λ n. low ≤ n) }
        ensures within { IfOk result (λ n. n ≤ high) }
    {
        Ok(self.long_number(u32::from(low), u32::from(high))? as u16)
    }

    /// A number between the limits, which may be as large as a price. It fails as `number` does.
    #[tactic(auto, unfolding(crate::specs::Layout::number, crate::specs::Reading::read_layout))]
    pub fn long_number(&mut self, low: u32, high: u32) -> Result<u32, LayoutError>
        requires { high ≤ MAX_PRICE }
        ensures read { Reads (λ n. n) result self.new (read_layout (number low high) self.old) }
        ensures above { IfOk result (λ n. low ≤ n) }
        ensures within { IfOk result (λ n. n ≤ high) }
    {
        let token = self.token()?;
        let Some(value) = decimal_up_to(token.word, MAX_PRICE + 1) else {
            return Err(token.fault(Kind::NoNumber));
        };
        if value < low || high < value {
            return Err(token.fault(Kind::Limit));
        }
        Ok(value)
    }

    /// This name, `=` and a number between the limits. It fails as `exactly` and `number` do.
    #[tactic(auto, unfolding(crate::specs::Layout::setting, crate::specs::Reading::read_layout))]
    pub fn setting(&mut self, name: &[u8], low: u16, high: u16) -> Result<u16, LayoutError>
        ensures read { Reads (λ n. n) result self.new (read_layout (setting name.now low high) self.old) }
        ensures above { IfOk result (λ n. low ≤ n) }
        ensures within { IfOk result (λ n. n ≤ high) }
    {
        self.exactly(name)?;
        self.exactly(b"=")?;
        self.number(low, high)
    }
}

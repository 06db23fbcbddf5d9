//! The line of a stage, put together from the tokens of JSON.
ghost use Rattle.std.specs.Prelude.{◌≡◌, ◌++◌, ◌∷◌, [], IfOk, OnOk, decimal};
ghost use Rattle.std.specs.Fmt.{signed_decimal};
ghost use Rattle.json.specs.Print.{print, IsPrintable};
ghost use Rattle.json.specs.Reads.{token_of};
ghost use Rattle.json.specs.Token.{key, number, string};

use json::{Token, Writer};
use std::alloc::{AllocError, Global};
use std::marker::Model;

/// So many bytes has the line of a usual stage at most.
const ROOM: usize = 160;

/// A line to which tokens are added. Contracts see it as its tokens.
#[derive(Drop)]
pub(crate) struct Line {
    writer: Writer,
}

impl Model for Line {
    ghost use Rattle.std.specs.Prelude.{◌≡◌, List, []};
    ghost use Rattle.json.specs.Token.{Token, tokens_code};

    ghost Value = { List Token };

    ghost coded = { tokens_code };

    ghost view = { λ line. line.writer.tokens };

    ghost invariant = { λ line. line.writer.before ≡ [] };
}

impl Line {
    /// A line without tokens.
    pub(crate) fn new(alloc: Global) -> Result<Line, AllocError>
        ensures { IfOk result (λ line. line ≡ []) }
    {
        Ok(Line {
            writer: Writer::new(Vec::with_capacity(alloc, ROOM)?),
        })
    }

    /// Adds a token, with the comma that it needs.
    pub(crate) fn token(&mut self, token: Token<'_>) -> Result<(), AllocError>
        requires { IsPrintable (token_of token) }
        ensures { OnOk result (self.new ≡ self.old ++ token_of token.entry ∷ []) }
    {
        self.writer.token(token)
    }

    /// Adds the name of a member.
    pub(crate) fn key(&mut self, name: &str) -> Result<(), AllocError>
        ensures { OnOk result (self.new ≡ self.old ++ key name.now ∷ []) }
    {
        self.token(Token::Key(name))
    }

    /// Adds a text.
    pub(crate) fn text(&mut self, content: &str) -> Result<(), AllocError>
        ensures { OnOk result (self.new ≡ self.old ++ string content.now ∷ []) }
    {
        self.token(Token::String(content))
    }

    /// Adds a count.
    pub(crate) fn count(&mut self, count: u64) -> Result<(), AllocError>
        ensures { OnOk result (self.new ≡ self.old ++ number (decimal count) ∷ []) }
    {
        self.writer.u64(count)
    }

    /// Adds a number.
    pub(crate) fn number(&mut self, amount: i64) -> Result<(), AllocError>
        ensures { OnOk result (self.new ≡ self.old ++ number (signed_decimal amount) ∷ []) }
    {
        self.writer.i64(amount)
    }

    /// The text of the line.
    pub(crate) fn into_bytes(self) -> Vec<u8>
        ensures { result.items ≡ print self }
    {
        let Line { writer } = self;
        writer.into_inner()
    }
}

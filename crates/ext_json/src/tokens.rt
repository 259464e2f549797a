//! The tokens of a text, of which the last one's place is known.

ghost use Rattle.std.specs.Prelude.{◌≡◌, [], ◌==◌, length, IfOk, option_map, IsTrue, ◌↔◌};
ghost use Rattle.json.specs.Reads.{token_of};
ghost use Rattle.json.specs.Lex as json;
ghost use Rattle.outcome.specs.Outcome.{GivesExactly};
ghost use Rattle.ext_json.specs.Tokens as spec;
ghost use Rattle.ext_json.specs.Tokens.{first, rest, text_in, number_in, key_at, text_at, name_at, end_at, open_at};

use crate::fault::ExtJsonFault;
use json::{Reader, Scratch, Token};
use std::alloc::AllocError;
use std::marker::Model;

/// The tokens that are still to come.
#[derive(Drop)]
pub(crate) struct Tokens<'a> {
    reader: Reader<'a>,
    // where the token that was read last begins
    at: usize,
}

impl<'a> Model for Tokens<'a> {
    ghost use Rattle.std.specs.Prelude.{List};
    ghost use Rattle.json.specs.Token.{Token as SpecToken, tokens_code};

    ghost Value = { List SpecToken };

    ghost coded = { tokens_code };

    ghost view = { λ a. a.reader };
}

impl<'a> Tokens<'a> {
    pub(crate) fn new(text: &'a str, scratch: &'a mut Scratch) -> Result<Tokens<'a>, AllocError>
        ensures { IfOk result (λ tokens. tokens ≡ json.tokens text.now) }
    {
        Ok(Tokens {
            reader: Reader::new(text, scratch)?,
            at: 0,
        })
    }

    /// Where the token that was read last begins.
    pub(crate) fn at(&self) -> usize {
        self.at
    }

    /// Takes an earlier token as the one that was read last.
    pub(crate) fn point_at(&mut self, at: usize)
        ensures { self.new ≡ self.old }
    {
        self.at = at;
    }

    /// The next token; `Bad` at the end of the text.
    pub(crate) fn next(&mut self) -> Token<'a>
        ensures token { token_of result ≡ first self.old }
        ensures rest { self.new ≡ rest self.old }
    {
        self.at = self.reader.offset();
        match self.reader.next() {
            Some(token) => token,
            None => Token::Bad,
        }
    }

    /// Whether no token is left.
    pub(crate) fn is_at_end(&mut self) -> bool
        ensures { IsTrue result ↔ (self.old ≡ []) }
    {
        self.at = self.reader.offset();
        self.reader.next().is_none()
    }

    /// A name, or `None` at the end of the object.
    pub(crate) fn key(&mut self) -> Result<Option<&'a str>, ExtJsonFault>
        ensures { GivesExactly (λ k. (option_map (λ s. s.now) k, self.new)) result
            (key_at self.old) }
    {
        match self.next() {
            Token::Key(name) => Ok(Some(name)),
            Token::EndObject => Ok(None),
            _ => Err(ExtJsonFault::Syntax),
        }
    }

    /// A name in a wrapper, where one has to stand.
    pub(crate) fn name(&mut self) -> Result<&'a str, ExtJsonFault>
        ensures { GivesExactly (λ s. (s.now, self.new)) result (name_at self.old) }
    {
        match self.next() {
            Token::Key(name) => Ok(name),
            Token::EndObject => Err(ExtJsonFault::Wrapper),
            _ => Err(ExtJsonFault::Syntax),
        }
    }

    /// A text in a wrapper, where one has to stand.
    pub(crate) fn text(&mut self) -> Result<&'a str, ExtJsonFault>
        ensures { GivesExactly (λ s. (s.now, self.new)) result (text_at self.old) }
    {
        text_of(self.next())
    }

    /// The beginning of an object in a wrapper, where one has to stand.
    pub(crate) fn open(&mut self) -> Result<(), ExtJsonFault>
        ensures { GivesExactly (λ _. self.new) result (open_at self.old) }
    {
        match self.next() {
            Token::BeginObject => Ok(()),
            token => Err(unfit(token)),
        }
    }

    /// The end of a wrapper.
    pub(crate) fn end(&mut self) -> Result<(), ExtJsonFault>
        ensures { GivesExactly (λ _. self.new) result (end_at self.old) }
    {
        match self.next() {
            Token::EndObject => Ok(()),
            Token::Key(_) => Err(ExtJsonFault::Wrapper),
            _ => Err(ExtJsonFault::Syntax),
        }
    }
}

/// Why a token can't stand where a wrapper has a value of another form.
pub(crate) fn unfit(token: Token<'_>) -> ExtJsonFault
    ensures { result ≡ spec.unfit (token_of token.entry) }
{
    match token {
        Token::EndObject | Token::EndArray | Token::Key(_) | Token::Bad => ExtJsonFault::Syntax,
        _ => ExtJsonFault::Wrapper,
    }
}

/// The text that a token is, where a wrapper has one.
pub(crate) fn text_of(token: Token<'_>) -> Result<&str, ExtJsonFault>
    ensures { GivesExactly (λ s. s.now) result (text_in (token_of token.entry)) }
{
    match token {
        Token::String(text) => Ok(text),
        _ => Err(unfit(token)),
    }
}

/// The text of the number that a token is, where a wrapper has one.
pub(crate) fn number_of(token: Token<'_>) -> Result<&str, ExtJsonFault>
    ensures { GivesExactly (λ s. s.now) result (number_in (token_of token.entry)) }
{
    match token {
        Token::Number(text) => Ok(text),
        _ => Err(unfit(token)),
    }
}

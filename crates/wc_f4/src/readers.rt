ghost use Rattle.std.specs.Prelude.{◌≡◌, drop, false};
ghost use Rattle.wc_f4.specs.Taking.{Heads, StandsAtEnd, Takes, TakesAny, TakesThis, map_ok};
ghost use Rattle.wc_f4.specs.Tokens.{mark, number, quoted, tokens_from, word};
ghost use Rattle.wc_f4.specs.Views.{behind, from_placed, is_end, left, seen};

use crate::pieces::piece_at;
use crate::stops::Stop;
use crate::tokens::{Mark, Token, Word};

/// A token, the place of its first byte and the place behind its last one.
#[derive(Clone, Copy)]
pub struct Placed<'a> {
    pub token: Token<'a>,
    pub place: usize,
    pub after: usize,
}

/// A text of flow facts at one of its tokens.
#[derive(Clone, Copy)]
pub struct Reader<'a> {
    text: &'a [u8],
    next: Placed<'a>,
}

/// The first token from a place on.
fn token_from(text: &[u8], start: usize) -> Placed<'_>
    ensures { tokens_from start 0 (drop start text.now) ≡ from_placed text.now result }
{
    let mut place = start;
    while place < text.len() {
        let piece = piece_at(&text[place..]);
        if let Some(token) = piece.token {
            return Placed {
                token,
                place,
                after: place + piece.length,
            };
        }
        place += piece.length;
    }
    Placed {
        token: Token::End,
        place,
        after: place,
    }
}

impl<'a> Reader<'a> {
    /// The text at its first token.
    #[tactic(auto, unfolding(crate::specs::Views::left))]
    pub fn new(text: &'a [u8]) -> Reader<'a>
        ensures { left result ≡ tokens_from 0 0 text.now }
    {
        Reader {
            text,
            next: token_from(text, 0),
        }
    }

    /// Whether all tokens are read.
    #[tactic(auto, unfolding(crate::specs::Views::left))]
    pub fn is_at_end(&self) -> bool
        ensures { StandsAtEnd result (left self.now) }
    {
        matches!(self.next.token, Token::End)
    }

    /// The place of the next token.
    #[tactic(auto, unfolding(crate::specs::Views::left))]
    pub fn place(&self) -> usize
        ensures { (t : _) × Heads t result (left self.now) }
    {
        self.next.place
    }

    /// Goes on to the next token.
    #[tactic(auto, unfolding(crate::specs::Views::left))]
    fn advance(&mut self)
        requires { is_end self.old.next.token ≡ false }
        ensures { behind self.old.next.token self.old.next.after self.old.text.now ≡ left self.new }
    {
        self.next = token_from(self.text, self.next.after);
    }

    /// Reads the mark.
    #[tactic(auto, unfolding(crate::specs::Views::left))]
    pub fn mark(&mut self, wanted: Mark) -> Result<(), Stop>
        ensures { Takes (λ _. mark wanted) result (left self.old) (left self.new) }
    {
        let token = self.next.token;
        match token {
            Token::Mark(mark) if mark == wanted => {
                self.advance();
                Ok(())
            }
            _ => Err(Stop::Bad(self.next.place)),
        }
    }

    /// Reads the mark, if it stands here.
    #[tactic(auto, unfolding(crate::specs::Views::left))]
    pub fn has_mark(&mut self, wanted: Mark) -> bool
        ensures { TakesThis (mark wanted) result (left self.old) (left self.new) }
    {
        let token = self.next.token;
        match token {
            Token::Mark(mark) if mark == wanted => {
                self.advance();
                true
            }
            _ => false,
        }
    }

    /// Reads the word.
    #[tactic(auto, unfolding(crate::specs::Views::left))]
    pub fn keyword(&mut self, wanted: Word) -> Result<(), Stop>
        ensures { Takes (λ _. word wanted) result (left self.old) (left self.new) }
    {
        let token = self.next.token;
        match token {
            Token::Word(word) if word == wanted => {
                self.advance();
                Ok(())
            }
            _ => Err(Stop::Bad(self.next.place)),
        }
    }

    /// Reads the word, if it stands here.
    #[tactic(auto, unfolding(crate::specs::Views::left))]
    pub fn has_keyword(&mut self, wanted: Word) -> bool
        ensures { TakesThis (word wanted) result (left self.old) (left self.new) }
    {
        let token = self.next.token;
        match token {
            Token::Word(word) if word == wanted => {
                self.advance();
                true
            }
            _ => false,
        }
    }

    /// Reads a number.
    #[tactic(auto, unfolding(crate::specs::Views::left))]
    pub fn number(&mut self) -> Result<u32, Stop>
        ensures { Takes number result (left self.old) (left self.new) }
    {
        let token = self.next.token;
        match token {
            Token::Number(number) => {
                self.advance();
                Ok(number)
            }
            _ => Err(Stop::Bad(self.next.place)),
        }
    }

    /// Reads a number, if one stands here.
    #[tactic(auto, unfolding(crate::specs::Views::left))]
    pub fn any_number(&mut self) -> Option<u32>
        ensures { TakesAny number result (left self.old) (left self.new) }
    {
        let token = self.next.token;
        match token {
            Token::Number(number) => {
                self.advance();
                Some(number)
            }
            _ => None,
        }
    }

    /// Reads a word.
    #[tactic(auto, unfolding(crate::specs::Views::left))]
    pub fn word(&mut self) -> Result<Word, Stop>
        ensures { Takes word result (left self.old) (left self.new) }
    {
        let token = self.next.token;
        match token {
            Token::Word(word) => {
                self.advance();
                Ok(word)
            }
            _ => Err(Stop::Bad(self.next.place)),
        }
    }

    /// Reads a string.
    #[tactic(auto, unfolding(crate::specs::Views::left))]
    pub fn quoted(&mut self) -> Result<&'a [u8], Stop>
        ensures { Takes quoted (map_ok (λ s. s.now) result) (left self.old) (left self.new) }
    {
        let token = self.next.token;
        match token {
            Token::Quoted(quoted) => {
                self.advance();
                Ok(quoted)
            }
            _ => Err(Stop::Bad(self.next.place)),
        }
    }
}

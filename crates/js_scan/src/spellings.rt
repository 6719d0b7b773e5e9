//! Texts of tokens that are spelled alike.

ghost use Rattle.std.specs.Prelude.{◌≡◌, IfOk};

use flow_text::{OutOfMemory, Text};
use js_ast::Token;
use std::alloc::Global;
use std::collections::HashSet;

/// The texts of the tokens so far, each once.
#[derive(Drop)]
pub(crate) struct Spellings {
    alloc: Global,
    texts: HashSet<Text>,
}

impl Spellings {
    pub(crate) fn new(alloc: Global) -> Spellings {
        Spellings {
            alloc,
            texts: HashSet::new(alloc),
        }
    }

    /// The token. It shares the units of its text with those of the same spelling before it.
    pub(crate) fn shared(&mut self, token: Token) -> Result<Token, OutOfMemory>
        ensures { IfOk result (λ t. t ≡ token) }
    {
        let Token {
            kind,
            text,
            from,
            to,
            newline,
        } = token;
        let text = self.shared_text(text)?;
        Ok(Token {
            kind,
            text,
            from,
            to,
            newline,
        })
    }

    fn shared_text(&mut self, text: Text) -> Result<Text, OutOfMemory>
        ensures { IfOk result (λ t. t ≡ text) }
    {
        if let Some(known) = self.texts.get(&text) {
            return known.copy(self.alloc);
        }
        self.texts.insert(text.copy(self.alloc)?)?;
        Ok(text)
    }
}

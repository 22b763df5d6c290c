// The words of a command line.
ghost use Rattle.std.specs.Prelude.{◌≡◌, ◌<◌, ◌≤◌, ◌∷◌, [], ◌++◌, ℕ, length, List, OnOk, OnErr, IfOk, IfSome, IfNone, slice_get, map, Some, string_bytes};

use crate::OutOfMemory;
use std::alloc::Global;
use std::marker::Model;

/// A list of texts. Contracts see the bytes of each.
#[derive(Drop)]
pub struct Words {
    alloc: Global,
    words: Vec<String>,
}

impl Model for Words {
    ghost Value = { List (List ℕ) };

    ghost view = { λ a. map string_bytes a.words.items };
}

impl Words {
    /// Returns no words. It allocates nothing; `push` allocates from `alloc`.
    pub fn new(alloc: Global) -> Words
        ensures { result ≡ [] }
    {
        Words {
            alloc,
            words: Vec::new(alloc),
        }
    }

    /// Puts a word at the end. If memory runs out, the words are unchanged.
    pub fn push(&mut self, word: &str) -> Result<(), OutOfMemory>
        ensures ok { OnOk result (self.new ≡ self.old ++ word.now ∷ []) }
        ensures err { OnErr result (self.new ≡ self.old) }
    {
        let text = String::from_str(self.alloc, word)?;
        self.words.push(text)?;
        Ok(())
    }

    pub fn len(&self) -> usize
        ensures { result ≡ length self.now }
    {
        self.words.len()
    }

    /// Returns the word at this place, from 0.
    pub fn word(&self, at: usize) -> Option<&str>
        ensures some { IfSome result (λ word. slice_get self.now at ≡ Some word.now) }
        ensures none { IfNone result (length self.now ≤ at) }
    {
        if at < self.words.len() {
            Some(self.words[at].as_str())
        } else {
            None
        }
    }
}

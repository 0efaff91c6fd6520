//! The name of a file.
ghost use Rattle.std.specs.Prelude.{◌≡◌, ℕ, List, IfOk, string_bytes};

use std::alloc::{AllocError, Global};
use std::marker::Model;

/// The name of a file, as the words of a command line give it.
#[derive(Debug, Drop)]
pub struct Name {
    text: String,
}

impl Model for Name {
    ghost Value = { List ℕ };

    ghost view = { λ n. string_bytes n.text };
}

impl Name {
    /// The name of this text.
    pub fn of(alloc: Global, text: &str) -> Result<Name, AllocError>
        ensures { IfOk result (λ name. name ≡ text.now) }
    {
        let text = String::from_str(alloc, text)?;
        Ok(Name { text })
    }

    /// The text.
    pub fn text(&self) -> &str
        ensures { result.now ≡ self.now }
    {
        self.text.as_str()
    }
}

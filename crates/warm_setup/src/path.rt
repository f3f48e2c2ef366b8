//! Paths, as texts.

use std::alloc::{AllocError, Global};
use std::fmt;
use std::marker::Model;

/// A path as the setup file or the command line wrote it. Contracts see its bytes.
#[derive(Debug, Drop)]
pub struct PathText {
    text: String,
}

impl Model for PathText {
    ghost use Rattle.std.specs.Prelude.{List, ℕ, string_bytes};

    ghost Value = { List ℕ };

    ghost view = { λ p. string_bytes p.text };
}

impl PathText {
    ghost use Rattle.std.specs.Prelude.{◌≡◌, ◌++◌, IfOk, codes, decimal};

    /// A copy of the text. `AllocError` if its allocation fails.
    pub fn copied_from(alloc: Global, text: &str) -> Result<PathText, AllocError>
        ensures { IfOk result (λ path. path ≡ text.now) }
    {
        let text = String::from_str(alloc, text)?;
        Ok(PathText { text })
    }

    /// The file of a replica, of those that a device's path names: the path, a dot and the
    /// replica's number. `AllocError` if its allocation fails.
    pub fn of_replica(&self, alloc: Global, replica: u16) -> Result<PathText, AllocError>
        ensures { IfOk result (λ path. path ≡ self.now ++ codes "." ++ decimal replica) }
    {
        let path = self.as_str();
        let text = format!(in alloc; "{path}.{replica}")?;
        Ok(PathText { text })
    }

    /// The text.
    pub fn as_str(&self) -> &str
        ensures { result.now ≡ self.now }
    {
        self.text.as_str()
    }
}

impl fmt::Display for PathText {
    ghost use Rattle.std.specs.Prelude.{Some};

    ghost output = { λ path. Some path };

    fn fmt<W: fmt::Write>(&self, f: &mut fmt::Formatter<W>) -> fmt::Result {
        f.write_str(self.as_str())
    }
}

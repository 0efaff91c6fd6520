//! The named files that are held in memory.
ghost use Rattle.std.specs.Prelude.{◌≡◌, ◌≢◌, ℕ, List, None, Some, OnOk, OnErr};
ghost use Rattle.std.specs.Option.{option_copied};
ghost use Rattle.apv_files.specs.Held.{content_of};

use std::alloc::{AllocError, Global};
use std::collections::HashMap;

/// The content of each file that is held, by its name.
#[derive(Drop)]
pub struct HeldFiles {
    files: HashMap<String, Vec<u8>>,
}

impl HeldFiles {
    /// No name is held. It takes no memory yet.
    pub fn new(alloc: Global) -> HeldFiles
        ensures { (name : List ℕ) → content_of result name ≡ None }
    {
        HeldFiles {
            files: HashMap::new(alloc),
        }
    }

    /// Holds a file of a name, in place of the content that was held of it before. After an error nothing changes.
    pub fn hold(&mut self, alloc: Global, name: &str, bytes: &[u8]) -> Result<(), AllocError>
        ensures held { OnOk result (content_of self.new name.now ≡ Some bytes.now) }
        ensures others { (other : List ℕ) → other ≢ name.now →
            content_of self.new other ≡ content_of self.old other }
        ensures err { OnErr result ((other : List ℕ) →
            content_of self.new other ≡ content_of self.old other) }
    {
        let name = String::from_str(alloc, name)?;
        let bytes = bytes.to_vec(alloc)?;
        self.files.insert(name, bytes)?;
        Ok(())
    }

    /// The content of the file of a name, where it is held.
    pub fn content(&self, name: &str) -> Option<&[u8]>
        ensures { option_copied result ≡ content_of self.now name.now }
    {
        self.files.get(name).map(|bytes| bytes.as_slice())
    }
}

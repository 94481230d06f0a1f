// Names of a script, each for a longer text.

use std::alloc::{AllocError, Global};

#[derive(Drop)]
struct Name {
    name: String,
    text: String,
}

/// The names that lines gave so far.
#[derive(Drop)]
pub struct Names {
    names: Vec<Name>,
}

impl Names {
    pub fn new(alloc: Global) -> Names {
        Names {
            names: Vec::new(alloc),
        }
    }

    /// Adds the name of a line `@NAME = TEXT`. Says whether the line is one.
    pub fn define(&mut self, alloc: Global, line: &str) -> Result<bool, AllocError> {
        if !line.starts_with('@') {
            return Ok(false);
        }
        let Some((name, text)) = line.split_once(" = ") else {
            return Ok(false);
        };
        let text = self.expand(alloc, text)?;
        let name = String::from_str(alloc, name)?;
        self.names.push(Name { name, text })?;
        Ok(true)
    }

    /// The text, with what the names stand for in their place, the latest name first.
    pub fn expand(&self, alloc: Global, text: &str) -> Result<String, AllocError> {
        let mut found = String::from_str(alloc, text)?;
        for name in self.names.iter().rev() {
            let next = found
                .as_str()
                .replace(alloc, name.name.as_str(), name.text.as_str())?;
            found = next;
        }
        Ok(found)
    }

    /// The text, with the names in place of what they stand for, the latest name first.
    pub fn shorten(&self, alloc: Global, text: &str) -> Result<String, AllocError> {
        let mut told = String::from_str(alloc, text)?;
        for name in self.names.iter().rev() {
            let next = told
                .as_str()
                .replace(alloc, name.text.as_str(), name.name.as_str())?;
            told = next;
        }
        Ok(told)
    }
}

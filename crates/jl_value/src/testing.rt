// What the tests of the crates above take in place of the definition language.
mod tiny;

pub use tiny::TinyLibrary;

// Where the folders and files of a cache stand.
ghost use Rattle.std.specs.Prelude.{◌≡◌, ◌⊎◌, ℕ, List, [], ◌∷◌, ◌++◌, length, IsTrue, IfOk, OnOk};
ghost use Rattle.hex.specs.Hex.{encode_lower};
ghost use Rattle.jl_text.specs.Paths.{is_part};
ghost use Rattle.jl_text.specs.Texts.{is_name};
ghost use Rattle.jl_entry.specs.Names.{Final, code_of, entry_of, IsFinal, is_key, root_of, below, entry_part};

use jl_text::Path;
use jl_value::Key;
use std::alloc::{AllocError, Global};

/// The files of an entry.
#[derive(Clone, Copy, Debug, PartialEq, Eq, Drop)]
pub enum EntryFile {
    Output,
    Metadata,
    Access,
}

/// The root of the cache of a location.
pub fn root(alloc: Global, location: &Path) -> Result<Path, AllocError>
    ensures { IfOk result (λ p. p ≡ root_of location.now) }
{
    location.join(alloc, "joblib")
}

fn join_name(alloc: Global, folder: &Path, name: &str) -> Result<Path, AllocError>
    requires { IsTrue (is_name name.now) }
    ensures { IfOk result (λ p. p ≡ folder.now ++ name.now ∷ []) }
{
    folder.join(alloc, name)
}

/// The folder of a module.
pub fn module_folder(alloc: Global, location: &Path, module: &str) -> Result<Path, AllocError>
    requires { IsTrue (is_name «module».now) }
    ensures { IfOk result (λ p. p ≡ below (root_of location.now) («module».now ∷ [])) }
{
    let root = root(alloc, location)?;
    join_name(alloc, &root, module)
}

/// The folder of a function.
pub fn function_folder(
    alloc: Global,
    location: &Path,
    module: &str,
    name: &str,
) -> Result<Path, AllocError>
    requires module_name { IsTrue (is_name «module».now) }
    requires function_name { IsTrue (is_name name.now) }
    ensures { IfOk result (λ p. p ≡ below (root_of location.now) («module».now ∷ name.now ∷ [])) }
{
    let folder = module_folder(alloc, location, module)?;
    join_name(alloc, &folder, name)
}

fn join_digits(alloc: Global, folder: &Path, key: &[u8]) -> Result<Path, AllocError>
    requires { length key.now ≡ 16 }
    ensures path { IfOk result (λ p. p ≡ folder.now ++ encode_lower key.now ∷ []) }
    ensures key { OnOk result (IsTrue (is_key (encode_lower key.now))) }
{
    let digits = hex::encode(alloc, key)?;
    folder.join(alloc, digits.as_str())
}

/// The folder of the entry of some arguments, whose key it is named for.
pub fn entry_folder(
    alloc: Global,
    location: &Path,
    module: &str,
    name: &str,
    key: &Key,
) -> Result<Path, AllocError>
    requires module_name { IsTrue (is_name «module».now) }
    requires function_name { IsTrue (is_name name.now) }
    ensures path { IfOk result (λ p. p
        ≡ below (root_of location.now) («module».now ∷ name.now ∷ encode_lower key.now.0 ∷ [])) }
    ensures key { OnOk result (IsTrue (is_key (encode_lower key.now.0))) }
{
    let folder = function_folder(alloc, location, module, name)?;
    join_digits(alloc, &folder, key.0.as_slice())
}

/// The file `func_code.py` of a function.
pub fn code_file(
    alloc: Global,
    location: &Path,
    module: &str,
    name: &str,
) -> Result<Path, AllocError>
    requires module_name { IsTrue (is_name «module».now) }
    requires function_name { IsTrue (is_name name.now) }
    ensures { IfOk result (IsFinal (root_of location.now) (code_of «module».now name.now)) }
{
    let folder = function_folder(alloc, location, module, name)?;
    folder.join(alloc, "func_code.py")
}

// Its name in the entry's folder.
#[tactic(auto, unfolding(crate::specs::Names::entry_part))]
fn file_name(file: EntryFile) -> &'static str
    ensures name { result.now ≡ entry_part file }
    ensures part { IsTrue (is_part (entry_part file)) }
{
    match file {
        EntryFile::Output => "output.json",
        EntryFile::Metadata => "metadata.json",
        EntryFile::Access => "last_access",
    }
}

/// A file of an entry.
pub fn entry_file(
    alloc: Global,
    file: EntryFile,
    location: &Path,
    module: &str,
    name: &str,
    key: &Key,
) -> Result<Path, AllocError>
    requires module_name { IsTrue (is_name «module».now) }
    requires function_name { IsTrue (is_name name.now) }
    ensures { IfOk result (IsFinal (root_of location.now)
        (entry_of file «module».now name.now (encode_lower key.now.0))) }
{
    let folder = entry_folder(alloc, location, module, name, key)?;
    folder.join(alloc, file_name(file))
}

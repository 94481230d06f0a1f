// Reading the names of a folder.
ghost use Rattle.jl_clear.specs.Listings.{Lists, HaveParts};

use crate::stop::Stop;
use jl_folder::{Folder, Listed, NameList, Path};

/// The names in a folder, or none where there is no such folder.
pub fn names_in<F: Folder>(folder: &mut F, path: &Path) -> Result<Option<NameList>, Stop>
    ensures lists { Lists path.now result (F.view folder.old) (F.view folder.new) }
    ensures parts { HaveParts result }
{
    match folder.list(path) {
        Listed::Names(names) => Ok(Some(names)),
        Listed::NoDir => Ok(None),
        Listed::Failed => Err(Stop::Fault),
        Listed::NoMemory => Err(Stop::NoMemory),
    }
}

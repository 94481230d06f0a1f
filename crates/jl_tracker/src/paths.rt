// Which texts are those of paths.
ghost use Rattle.std.specs.Prelude.{◌≡◌};
ghost use Rattle.std.specs.List.{list_all};
ghost use Rattle.jl_text.specs.Paths.{is_part as is_part_lem, pieces};
ghost use Rattle.jl_tracker.specs.PathTexts.{behind_slash as behind_slash_lem, is_spelled};

use jl_text::is_part;
use jl_text::limits::MOST_PATH_BYTES;

fn are_parts(text: &str) -> bool
    ensures { result ≡ list_all is_part_lem (pieces text.now) }
{
    text.split('/').all(|part| is_part(part))
}

fn behind_slash(text: &str) -> &str
    ensures { result.now ≡ behind_slash_lem text.now }
{
    match text.strip_prefix('/') {
        Some(rest) => rest,
        None => text,
    }
}

/// Whether the text is that of a path, as `Path::text` gives it.
pub fn is_path_text(text: &str) -> bool
    ensures { result ≡ is_spelled text.now }
{
    if text.len() > MOST_PATH_BYTES {
        return false;
    }
    if text == "." {
        return true;
    }
    if text == "/" {
        return true;
    }
    are_parts(behind_slash(text))
}

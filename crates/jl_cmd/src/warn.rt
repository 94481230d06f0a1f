// The lines of warnings.
ghost use Rattle.std.specs.Prelude.{◌≡◌, ◌++◌, IfOk, string_bytes};
ghost use Rattle.jl_cmd.specs.Texts.{warning_lines};

use jl_store::{Memory, Warning, warning_text};
use jl_text::Text;
use std::alloc::{AllocError, Global};

/// The lines of warnings, in their order.
pub fn lines_of(alloc: Global, memory: &Memory, warnings: &[Warning]) -> Result<Text, AllocError>
    ensures { IfOk result (λ t. t ≡ warning_lines memory.now.module warnings.now) }
{
    let mut lines = String::new(alloc);
    for warning in warnings {
        let text = warning_text(alloc, memory, warning)?;
        lines.push_str(text.as_str())?;
        lines.push_str("\n")?;
    }
    Ok(Text::new(lines))
}

// How a run ends.
ghost use Rattle.std.specs.Prelude.{◌≡◌};

use jl_text::Text;

/// How a run ends, with the last text of the error stream where the ending alone doesn't give it.
#[derive(Debug, Drop)]
pub enum Ended {
    Done,
    Failed(Text),
    Usage,
    Refused(Text),
    ReadFault,
    WriteFault,
    NoMemory,
    NoModule,
    FolderFault,
}

impl Ended {
    ghost use Rattle.jl_cmd.specs.Endings.{status_of, last_text};

    /// The exit status.
    pub fn status(&self) -> u8
        ensures { result ≡ status_of self.now }
    {
        match self {
            Ended::Done => 0,
            Ended::Failed(_) => 1,
            Ended::Usage => 2,
            Ended::Refused(_) => 3,
            Ended::ReadFault => 5,
            Ended::WriteFault => 6,
            Ended::NoMemory => 8,
            Ended::NoModule => 9,
            Ended::FolderFault => 10,
        }
    }

    /// The last text on the error stream, with its newline.
    #[tactic(auto, unfolding(crate::specs::Texts::error_line))]
    pub fn text(&self) -> &str
        ensures { result.now ≡ last_text self.now }
    {
        match self {
            Ended::Done => "",
            Ended::Failed(text) => text.as_str(),
            Ended::Usage => "error: usage\n",
            Ended::Refused(text) => text.as_str(),
            Ended::ReadFault => "error: read fault\n",
            Ended::WriteFault => "error: write fault\n",
            Ended::NoMemory => "error: out of memory\n",
            Ended::NoModule => "error: no module\n",
            Ended::FolderFault => "error: folder fault\n",
        }
    }
}

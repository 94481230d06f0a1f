// The machine that a program runs on.
ghost use Rattle.std.specs.Prelude.{◌≡◌, ◌^◌, ◌≤◌, IsTrue};
ghost use Rattle.jl_text.specs.Texts.{is_token};
ghost use Rattle.jl_streams.specs.Moments.{moment_of, moments_after};
ghost use Rattle.jl_streams.specs.Views.{HostView, HostKeeps};

use jl_text::Token;

/// The clock, the processors, and the token of this run.
pub trait Host {
    /// What contracts see.
    ghost view: { Self → HostView };

    /// Microseconds since 1970 began, by UTC.
    fn now(&mut self) -> u64
        ensures bound { result ≤ 2 ^ 62 }
        ensures moment { (view self.old).told → result ≡ moment_of (view self.old).moments }
        ensures moments { (view self.old).told
            → (view self.new).moments ≡ moments_after (view self.old).moments }
        ensures frame { HostKeeps (view self.old) (view self.new) };

    /// How many processors there are.
    fn processors(&self) -> u32
        ensures count { result ≡ (view self.now).processors }
        ensures least { 1 ≤ result }
        ensures most { result ≤ 1024 };

    fn token(&self) -> &Token
        ensures same { result.now ≡ (view self.now).token }
        ensures form { IsTrue (is_token (view self.now).token) };
}

use tmw_args::Which;

/// One of each of the program's memories.
#[derive(Clone, Copy)]
pub struct Memories<M> {
    pub norec: M,
    pub lock: M,
    pub torn: M,
}

impl<M: Copy> Memories<M> {
    ghost use Rattle.std.specs.Prelude.{◌≡◌};
    ghost use Rattle.tmw_command.specs.Memories.{memory_picked};

    /// Returns the memory that `which` picks.
    pub fn pick(self, which: Which) -> M
        ensures { result ≡ memory_picked self which }
    {
        match which {
            Which::NoRec => self.norec,
            Which::Lock => self.lock,
            Which::Torn => self.torn,
        }
    }
}

//! What is known of one sector.

ghost use Rattle.std.specs.Prelude.{◌≡◌};
ghost use Rattle.rs01_states.specs.Sparing.{is_open, is_unread, spared_where};

/// What is known of a sector while its medium is read.
#[derive(Clone, Copy, PartialEq, Eq, Debug)]
pub enum State {
    /// Still to be asked for.
    Unread,
    /// Its bytes are there.
    Good,
    /// No drive gave a usable answer.
    Failed,
    /// Never to be asked for: the parity of its layer restores it.
    Spared,
}

impl State {
    /// Whether the sector is still to be asked for.
    pub fn is_unread(self) -> bool
        ensures { result ≡ is_unread self }
    {
        match self {
            State::Unread => true,
            State::Good => false,
            State::Failed => false,
            State::Spared => false,
        }
    }

    // Whether the sector is anything but good, so that the parity has to make up for it.
    pub(crate) fn is_open(self) -> bool
        ensures { result ≡ is_open self }
    {
        match self {
            State::Unread => true,
            State::Good => false,
            State::Failed => true,
            State::Spared => true,
        }
    }

    // The state after its layer was looked at: an unread sector is spared where the parity is
    // enough. A function of its own, so that the loops that write states have no branch.
    #[tactic(auto, unfolding(crate::specs::Sparing::spared_where))]
    pub(crate) fn spared_where(self, enough: bool) -> State
        ensures { result ≡ spared_where self enough }
    {
        if enough && self.is_unread() {
            State::Spared
        } else {
            self
        }
    }
}

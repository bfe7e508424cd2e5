ghost use Rattle.std.specs.Prelude.{◌≡◌, ◌<◌, ◌^◌};
ghost use Rattle.bank.specs.System.{accounts};

use turns::{Clock, LockSharing};

/// The number of accounts of a shard.
pub const SHARD_SIZE: u32 = 4;

/// How a bank opens: with how many shards, of four accounts each, and with which balance on each
/// account; how actors share its locks, and whether it counts turns. Accounts 0 to 3 are those of
/// shard 0, and so on.
#[derive(Clone, Copy, Debug, PartialEq, Eq, Drop)]
pub struct Opening {
    pub shards: u32,
    pub balance: u64,
    pub sharing: LockSharing,
    pub clock: Clock,
}

impl Opening {
    /// The number of accounts.
    pub fn account_count(&self) -> usize
        ensures count { result ≡ accounts self.now }
        ensures few { result < 2 ^ 34 }
    {
        SHARD_SIZE as usize * self.shards as usize
    }
}

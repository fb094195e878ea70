//! What happens before an exchange, and after one that was lost.
ghost use Rattle.nb_table.specs.Chains.{ChainOf};

use nb_table::Chain;
use std::hint::spin_loop;

/// What a write does before each exchange, and after each that it has lost: nothing, or a rest; or,
/// in a test, steps of other seats just then.
pub trait Pause {
    /// What the pause needs of the chain: for one that holds seats, that they are the chain's.
    ghost serves: { Self → ChainOf → Type 0 };

    /// Is called before each exchange.
    fn before_exchange(&mut self, chain: &Chain)
        requires serves { serves self.old chain.now }
        ensures serves { serves self.new chain.now };

    /// Is called after each exchange that was lost to another write, if there are tries left. Unless
    /// a pause says otherwise it does nothing.
    fn after_loss(&mut self, _chain: &Chain)
        requires serves { serves self.old _chain.now }
        ensures serves { serves self.new _chain.now }
    {}
}

/// The pause that does nothing.
#[derive(Clone, Copy)]
pub struct NoPause;

impl Pause for NoPause {
    ghost serves = { λ pause chain. Unit {0} };

    fn before_exchange(&mut self, _chain: &Chain) {}
}

/// The pause of the calls that try again without a limit, once they have left their straight way.
/// After the first loss there, the third and so on they leave the key to others for a while, which
/// then needn't fetch its cache line anew for each call. The exchange after a rest mostly finds that
/// the value has changed meanwhile, and the next one follows at once.
#[derive(Clone, Copy)]
pub(crate) struct Rest {
    /// Whether it has rested after the last loss.
    rested: bool,
}

impl Rest {
    /// The pause of a call that has lost nothing yet.
    #[inline(always)]
    pub(crate) fn new() -> Rest {
        Rest { rested: false }
    }
}

impl Pause for Rest {
    ghost serves = { λ pause chain. Unit {0} };

    fn before_exchange(&mut self, _chain: &Chain) {}

    fn after_loss(&mut self, _chain: &Chain) {
        self.rested = !self.rested;
        if self.rested {
            spin();
        }
    }
}

/// For how many turns a call rests: some microseconds.
const TURNS: u32 = 200;

/// Lets other threads go on for a while. It stands in the code of its callers: a call of a function
/// would have them keep what they need later in registers that they have to store first.
#[inline(always)]
pub(crate) fn spin() {
    for _ in 0..TURNS {
        spin_loop();
    }
}

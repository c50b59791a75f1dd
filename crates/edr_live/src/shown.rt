//! What is shown: all banks, and the commands that changed them.

use edr_banks::BankView;

/// All banks after some first commands, with how many these are.
#[derive(Clone, Copy, Debug, PartialEq, Eq)]
pub struct LiveView {
    /// How many commands were shown.
    pub applied: u64,
    /// How many banks there are.
    pub banks: u8,
    /// What each bank holds, bank 1 first. Those past the number of banks are void.
    pub views: [BankView; 16],
}

/// What a command does to the banks that are shown.
#[derive(Clone, Copy, Debug, PartialEq, Eq)]
pub enum ShownCommand {
    /// It puts a new view of this bank.
    Put { bank: u8, view: BankView },
    /// It puts none.
    Nothing,
}

//! The terms that the parties sign. Terms can hold unfit numbers, so that they can be refused.

/// How many classes of collateral there are.
pub const CLASSES: usize = 8;

/// The whole of a face, in hundredths of a percent.
pub(crate) const PAR: u32 = 10_000;

/// The agreed numbers, in hundredths of the base currency; percentages in hundredths of a percent.
#[derive(Clone, Copy, PartialEq, Eq, Debug)]
pub struct Terms {
    /// The exposure up to which nothing is called: 0 to 10^13.
    pub threshold: u64,
    /// The least amount that is called from the pledgor: 1 to 10^12.
    pub pledgor_minimum: u64,
    /// The least amount that the secured party offers back: 1 to 10^12.
    pub secured_minimum: u64,
    /// What the pledgor owes on top of exposure: 0 to 10^12.
    pub pledgor_independent: u64,
    /// What the secured party owes on top of exposure: 0 to 10^12.
    pub secured_independent: u64,
    /// The valuation percentage of each of the eight classes: 0 to 10,000.
    pub percentages: [u32; CLASSES],
}

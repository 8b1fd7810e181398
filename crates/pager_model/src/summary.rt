/// The counts of a whole run.
#[derive(Clone, Copy, Debug, PartialEq, Eq)]
pub struct Summary {
    /// Translations at the end, by size.
    pub tiles: [u32; 4],
    pub promotions: u64,
    pub demotions: u64,
    /// How many takings of a frame broke a reservation.
    pub preemptions: u64,
    pub hits: u64,
    pub misses: u64,
    /// Frames at the end: free ones, unused places of reservations, and those under a page.
    pub free: u32,
    pub reserved: u32,
    pub used: u32,
}

//! All that a user may choose, in one struct that C sets and reads.

/// What a user of C chooses: `Settings` of the library. Times are in nanoseconds.
#[repr(C)]
#[derive(Clone, Copy)]
pub struct AgentSettings {
    /// The pacing interval Ta.
    pub timing_advance: u64,
    /// The RTO after a pair's first check.
    pub initial_rto: u64,
    /// The greatest RTO after a check.
    pub max_rto: u64,
    /// How long a lite agent keeps a pair without a check.
    pub lite_timeout: u64,
    /// How long a response keeps a pair. 0: by the timing.
    pub consent_timeout: u64,
    /// How many checks a pair sends without a response: at least 1.
    pub max_retransmits: usize,
    /// The greatest number of pairs after forming.
    pub max_pairs: usize,
    /// How many candidates packets may bring of each side; the greatest number: as many as come.
    pub max_discovered: usize,
    /// How many candidates of each side may be listed when one is added; the greatest number: as many as the program adds.
    pub max_candidates: usize,
    /// Room for later versions, in which these are fields.
    pub room: [u64; 4],
    /// Whether the profile is `Modern`.
    pub modern: bool,
    /// Whether only responses keep a pair.
    pub strict_consent: bool,
    /// Whether each nomination replaces the ones before.
    pub renomination: bool,
}

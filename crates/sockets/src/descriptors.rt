//! How many descriptors the system allows.

use libc::types::rlimit;

/// How many descriptors are left for all but connections.
const KEPT: u64 = 16;

/// How many connections the system's limit of descriptors allows, of which 16 are kept for all else; none where the
/// system doesn't say.
pub fn most_connections() -> Option<usize> {
    let mut limit = rlimit {
        rlim_cur: 0,
        rlim_max: 0,
    };
    if libc::getrlimit(libc::RLIMIT_NOFILE, &mut limit) != 0 {
        return None;
    }
    Some(limit.rlim_cur.saturating_sub(KEPT) as usize)
}
